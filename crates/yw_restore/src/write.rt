// The bytes of a state.
ghost use Rattle.std.specs.Prelude.{◌≡◌, ◌≤◌, ◌++◌, ℕ, List, length, IfOk, OnOk};
ghost use Rattle.yw_restore.specs.Standing.{IsOf, WritesState};
ghost use Rattle.yw_restore.specs.Written.{AreCasesInRange, AreInRange, from_nets, lines_bytes, rows_of_lines};
ghost use Rattle.yw_state.specs.State.{State};
ghost use Rattle.yw_states.specs.States.{rows_of};

use crate::cases::gather_all;
use crate::ended::ended_rows;
use crate::kept::{Kept, has_nothing};
use crate::line::write_lines;
use crate::lines::{CaseLines, PersonLine, TextLine};
use crate::order::{person_lines, text_lines};
use std::alloc::{AllocError, Global};
use yw_base::Items;
use yw_codec::Field;
use yw_states::{Ascending, EndedRow, TreeRow};

/// All of a state as lines, in the order of its bytes.
#[derive(Drop)]
pub struct StateLines<'a> {
    pub next: u64,
    pub persons: Items<PersonLine<'a>>,
    pub texts: Items<TextLine<'a>>,
    pub trees: &'a Ascending<TreeRow>,
    pub cases: CaseLines<'a>,
    pub ended: Items<EndedRow>,
}

// All that is kept, as lines.
fn lines_of<'a>(alloc: Global, kept: &Kept<'a>) -> Result<StateLines<'a>, AllocError>
    ensures { IfOk result (λ lines. (s : State) → IsOf kept.now s → rows_of_lines lines
        ≡ rows_of s) }
{
    let library = kept.known.library();
    let persons = person_lines(alloc, library)?;
    let texts = text_lines(alloc, library)?;
    let cases = gather_all(alloc, kept.known, kept.forest, kept.next)?;
    let ended = ended_rows(alloc, kept.ended, kept.next)?;
    Ok(StateLines {
        next: kept.next,
        persons,
        texts,
        trees: kept.trees,
        cases,
        ended,
    })
}

// What stands in cases.
fn write_cases(out: &mut Vec<u8>, lines: &CaseLines<'_>) -> Result<(), AllocError>
    ensures bytes { OnOk result ((rest : List ℕ) → out.new.items ++ rest ≡ out.old.items
        ++ from_nets lines.now rest) }
    ensures range { OnOk result (AreCasesInRange lines.now) }
{
    write_lines(out, &lines.nets)?;
    write_lines(out, &lines.tokens)?;
    write_lines(out, &lines.items)?;
    write_lines(out, &lines.runs)?;
    write_lines(out, &lines.suspended)?;
    write_lines(out, &lines.due)
}

// All lines of a state.
fn write_all(out: &mut Vec<u8>, lines: &StateLines<'_>) -> Result<(), AllocError>
    ensures bytes { OnOk result (out.new.items ≡ out.old.items ++ lines_bytes lines.now) }
    ensures range { OnOk result (AreInRange lines.now) }
{
    lines.next.write(out)?;
    write_lines(out, &lines.persons)?;
    write_lines(out, &lines.texts)?;
    lines.trees.write(out)?;
    write_cases(out, &lines.cases)?;
    lines.ended.write(out)
}

/// Writes the bytes of the state of which this is kept after what stands in `out`; of the opening state nothing. An `Err` says that no memory
/// was left, or that the state has no bytes, since a text is longer, or a kind of rows has more, than four bytes can say; what `out` has then
/// is told nowhere.
///
/// Nothing is copied. It takes the memory of the bytes, and some pointers for each thing that stands.
pub fn write_state(alloc: Global, kept: &Kept<'_>, out: &mut Vec<u8>) -> Result<(), AllocError>
    ensures state { OnOk result (WritesState kept.now out.old.items out.new.items) }
    ensures longer { OnOk result (length out.old.items ≤ length out.new.items) }
{
    if has_nothing(kept) {
        return Ok(());
    }
    let lines = lines_of(alloc, kept)?;
    write_all(out, &lines)
}
