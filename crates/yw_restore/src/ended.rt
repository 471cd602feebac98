// How cases ended, as rows.
ghost use Rattle.std.specs.Prelude.{◌≡◌, ◌++◌, map, IfOk, OnOk};
ghost use Rattle.yw_library.specs.Ended.{ended_of};
ghost use Rattle.yw_restore.specs.Gathers.{AreDrawn, row_if_ended};
ghost use Rattle.yw_state.specs.Map.{entries, get};
ghost use Rattle.yw_states.specs.States.{ended_row};

use std::alloc::{AllocError, Global};
use yw_base::Items;
use yw_library::EndedTable;
use yw_states::EndedRow;

// How the case of a number ended, if it is over.
fn push_ended(ended: &EndedTable, n: u64, rows: &mut Items<EndedRow>) -> Result<(), AllocError>
    ensures { OnOk result (rows.new ≡ rows.old ++ row_if_ended n (get (ended_of ended.now) n)) }
{
    match ended.get(n) {
        Some(way) => rows.push(EndedRow { case: n, way }),
        None => Ok(()),
    }
}

/// How the cases ended whose numbers are below this one, in order of their numbers: that is how all ended, where each has such a number. Each
/// number below it is looked at once. An `Err` says that no memory was left.
pub fn ended_rows(
    alloc: Global,
    ended: &EndedTable,
    next: u64,
) -> Result<Items<EndedRow>, AllocError>
    ensures { IfOk result (λ rows. AreDrawn next (ended_of ended.now)
        → rows ≡ map ended_row (entries (ended_of ended.now))) }
{
    let mut rows = Items::new(alloc);
    for n in 1..next {
        push_ended(ended, n, &mut rows)?;
    }
    Ok(rows)
}
