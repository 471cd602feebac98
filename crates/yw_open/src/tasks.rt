// Whether a person may enter a task.
ghost use Rattle.std.specs.Prelude.{◌≡◌, ◌&&◌, ◌<◌, ◌≤◌, IfOk, length, not};
ghost use Rattle.yw_open.specs.Entries.{EntersAs, entry_of};
ghost use Rattle.yw_path.specs.Upstream.{IsUpstreamOf};
ghost use Rattle.yw_state.specs.Nets.{is_atomic};
ghost use Rattle.yw_within.specs.Within.{most_tasks};

use crate::whom::by_role;
use std::alloc::AllocError;
use yw_path::Upstream;
use yw_spec::{Kind, Net, Task};
use yw_state::What;
use yw_task::{ask_enter, task_at};
use yw_tree::NetState;
use yw_work::Open;

/// Persons do the task's items.
pub fn is_atomic(task: &Task) -> bool
    ensures { result ≡ is_atomic task.now }
{
    match task.kind {
        Kind::Atomic => true,
        Kind::Empty | Kind::Sub(_) => false,
    }
}

/// Persons enter the task: they do its items, and worklets aren't chosen for it (`chosen`).
fn is_manual(task: &Task, chosen: bool) -> bool
    ensures { result ≡ (is_atomic task.now && not chosen) }
{
    is_atomic(task) && !chosen
}

/// Whether a person may enter the task of a net with this number, whoever it is and whether or not work is held there. `up` is the net's own
/// upstream; `chosen` tells whether a tree chooses worklets for the task. It takes no memory.
pub fn person_may_enter(net: &Net, state: &NetState, up: &Upstream, t: usize, chosen: bool) -> bool
    requires task { t < length net.now.tasks }
    requires few { length net.now.tasks ≤ most_tasks }
    requires upstream { IsUpstreamOf net.now up.now }
    ensures { EntersAs net.now state.now t chosen result }
{
    if !is_manual(task_at(net, t), chosen) {
        return false;
    }
    ask_enter(net, state, up, t).is_none()
}

/// The entry of a task, for who has its role. An `Err` says that no memory was left.
pub fn entry_of(task: &Task) -> Result<Open, AllocError>
    ensures { IfOk result (λ entry. entry ≡ entry_of task.now) }
{
    Ok(Open {
        task: task.name.copy()?,
        what: What::Enter,
        by: by_role(&task.role)?,
    })
}
