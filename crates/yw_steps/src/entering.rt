// A task is entered.
ghost use Rattle.std.specs.Prelude.{◌≤◌, OnOk, length};
ghost use Rattle.yw_steps.specs.Enters.{AreEntryRowsAt, Enters, MayComeAt};
ghost use Rattle.yw_steps.specs.Stands.{TaskMayGrow};
ghost use Rattle.yw_tree.specs.Forest.{IsForest};

use std::alloc::{AllocError, Global};
use yw_base::{Ident, Row};
use yw_mark::Taken;
use yw_spec::Net;
use yw_state::Checks;
use yw_task::come;
use yw_tree::Forest;

/// A task is entered, by its number in the net at an identity, which is this one: a token goes from each place that the choice of its join
/// stands for, and its items come, ready, numbered from `first` on, each given one of these rows, which are those of its entry (`entry_rows` of
/// yw_task), with these checks due. None of the task's items stands in the net, and numbers are left for those that come. Nothing is tested: neither
/// this, nor whether the join takes from these places, nor whether it waits. An `Err` says that no memory was left, and then the forest isn't used
/// again. To enter a task is the paper's.
pub fn come_at(
    alloc: Global,
    forest: &mut Forest,
    net: &Net,
    at: &Ident,
    t: usize,
    taken: Taken,
    first: u64,
    rows: Vec<Row>,
    due: Checks,
) -> Result<(), AllocError>
    requires boxed { IsForest forest.old }
    requires may { TaskMayGrow forest.old net.now at.now t }
    requires come { MayComeAt forest.old net.now at.now t first }
    requires rows { AreEntryRowsAt forest.old net.now at.now t rows.items }
    requires some { 1 ≤ first }
    ensures { OnOk result
        (Enters net.now at.now t taken first due forest.old forest.new (length rows.items)) }
{
    match forest.net_mut(at) {
        Some(state) => come(alloc, net, state, at, t, taken, first, rows, due),
        None => unreachable!(),
    }
}
