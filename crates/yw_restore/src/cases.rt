// All that stands in cases, as lines.
ghost use Rattle.std.specs.Prelude.{◌≡◌, ℕ, IfOk, OnOk, Some};
ghost use Rattle.yw_library.specs.Held.{IsHeld};
ghost use Rattle.yw_restore.specs.Gathers.{Gathers};
ghost use Rattle.yw_restore.specs.Lines.{no_lines};
ghost use Rattle.yw_state.specs.Answers.{of_case};
ghost use Rattle.yw_state.specs.Map.{entries};
ghost use Rattle.yw_state.specs.State.{State};
ghost use Rattle.yw_tree.specs.Cases.{case_at};

use crate::gather::gather_at;
use crate::lines::{CaseLines, no_lines};
use std::alloc::{AllocError, Global};
use yw_known::Known;
use yw_shown::ordered_idents;
use yw_tree::{Case, Forest};

// All that stands in a case of the forest.
fn gather_case<'a>(
    alloc: Global,
    known: &'a Known,
    forest: &'a Forest,
    case: &'a Case,
    lines: &mut CaseLines<'a>,
) -> Result<(), AllocError>
    ensures { OnOk result ((s : State) (n : ℕ) → IsHeld known.now forest.now s
        → case_at n forest.now.cases ≡ Some case.now
        → Gathers s (of_case s n) lines.old lines.new) }
{
    let idents = ordered_idents(alloc, case)?;
    for at in &idents {
        gather_at(known, forest, *at, lines)?;
    }
    Ok(())
}

// All that stands in the case of a number, where there is one.
fn gather_number<'a>(
    alloc: Global,
    known: &'a Known,
    forest: &'a Forest,
    n: u64,
    lines: &mut CaseLines<'a>,
) -> Result<(), AllocError>
    ensures { OnOk result ((s : State) → IsHeld known.now forest.now s
        → Gathers s (of_case s n) lines.old lines.new) }
{
    let Some(case) = forest.case(n) else {
        return Ok(());
    };
    gather_case(alloc, known, forest, case, lines)
}

/// All that stands in the cases of a forest, in a state in which this number is drawn next. Each number below it is looked at once. An `Err`
/// says that no memory was left.
pub fn gather_all<'a>(
    alloc: Global,
    known: &'a Known,
    forest: &'a Forest,
    next: u64,
) -> Result<CaseLines<'a>, AllocError>
    ensures { IfOk result (λ lines. (s : State) → IsHeld known.now forest.now s → s.next ≡ next
        → Gathers s (entries s.sites) no_lines lines) }
{
    let mut lines = no_lines(alloc);
    for n in 1..next {
        gather_number(alloc, known, forest, n, &mut lines)?;
    }
    Ok(lines)
}
