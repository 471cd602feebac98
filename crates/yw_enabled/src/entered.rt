// Whether a task may be entered.
ghost use Rattle.std.specs.Prelude.{◌≡◌, ◌<◌, ◌≤◌, IfOk, IfSome, None, length};
ghost use Rattle.yw_enabled.specs.Entered.{EntersWith, MakesRows, MayNotEnter};
ghost use Rattle.yw_path.specs.Upstream.{IsUpstreamOf};
ghost use Rattle.yw_within.specs.Within.{most_tasks};

use std::alloc::{AllocError, Global};
use yw_base::Row;
use yw_mark::{Taken, join_choice};
use yw_path::Upstream;
use yw_spec::{Net, Task};
use yw_task::{count_rule, entry_values, is_active, or_waits, task_at};
use yw_tree::NetState;

/// What an entry takes, and what it gives.
#[derive(Drop)]
pub struct Entering {
    /// From where the task's join takes.
    pub taken: Taken,
    /// What each item is given that comes.
    pub rows: Vec<Row>,
}

/// What items are given, numbered from `first` on, where it is defined and so many may be made; `None` else. An `Err` says that no memory was left.
fn rows_made(
    alloc: Global,
    task: &Task,
    vals: &Row,
    first: u64,
) -> Result<Option<Vec<Row>>, AllocError>
    ensures { IfOk result (MakesRows task.now vals.now first) }
{
    let Some(rows) = entry_values(alloc, task, vals)? else {
        return Ok(None);
    };
    match count_rule(task, first, rows.len()) {
        None => Ok(Some(rows)),
        Some(_rule) => Ok(None),
    }
}

/// Whether the task of a net with this number may be entered, whoever does it: from where its join then takes, and what its items are given. `first` is
/// the number that is drawn next, `up` the net's own upstream. `None` says that it may not: items of it stand there, its join lacks tokens, what items
/// are given is undefined, they would be too few or too many, or so many numbers aren't left; or that it is an OR-join that waits. No expression is
/// evaluated where activity or tokens say that the task isn't entered. An `Err` says that no memory was left. Joins are the paper's; the rest is our
/// own.
pub fn may_be_entered(
    alloc: Global,
    net: &Net,
    state: &NetState,
    up: &Upstream,
    t: usize,
    first: u64,
) -> Result<Option<Entering>, AllocError>
    requires task { t < length net.now.tasks }
    requires few { length net.now.tasks ≤ most_tasks }
    requires upstream { IsUpstreamOf net.now up.now }
    ensures some { IfOk result (λ found. IfSome found (EntersWith net.now state.now t first)) }
    ensures none { IfOk result (λ found. found ≡ None → MayNotEnter net.now state.now t first) }
{
    if is_active(state, t) {
        return Ok(None);
    }
    let Some(taken) = join_choice(net, &state.marks, t) else {
        return Ok(None);
    };
    let task = task_at(net, t);
    if or_waits(net, task, up, state) {
        return Ok(None);
    }
    match rows_made(alloc, task, &state.vals, first)? {
        Some(rows) => Ok(Some(Entering { taken, rows })),
        None => Ok(None),
    }
}
