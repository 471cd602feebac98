// Which tasks of a net are active, and whether an OR-join waits.
ghost use Rattle.std.specs.Prelude.{◌≡◌, ◌≤◌, ◌↔◌, IsTrue, length};
ghost use Rattle.yw_path.specs.Upstream.{IsUpstreamOf};
ghost use Rattle.yw_path.specs.Waiting.{MayFill};
ghost use Rattle.yw_task.specs.Asked.{AreActive, FillsAs, OrWaitsAs, is_active};
ghost use Rattle.yw_within.specs.Within.{most_tasks};

use yw_mark::is_marked;
use yw_path::Upstream;
use yw_spec::{Net, Task};
use yw_state::Marks;
use yw_tree::NetState;

/// The most tasks that a net has.
const MOST_TASKS: usize = 256;

/// Items of the task stand in the net.
pub fn is_active(state: &NetState, t: usize) -> bool
    ensures { result ≡ is_active state.now t }
{
    match state.items.get(t) {
        Some(list) => !list.is_empty(),
        None => false,
    }
}

/// Which of so many tasks are active.
fn actives(state: &NetState, count: usize) -> [bool; MOST_TASKS]
    requires { count ≤ most_tasks }
    ensures { AreActive state.now count result }
{
    let mut active = [false; MOST_TASKS];
    for t in 0..count {
        active[t] = is_active(state, t);
    }
    active
}

/// An input place of the task is empty, and a token may still come to it, where these tasks are active.
fn may_fill(net: &Net, task: &Task, up: &Upstream, marks: &Marks, active: &[bool]) -> bool
    requires { IsUpstreamOf net.now up.now }
    ensures { IsTrue result ↔ MayFill net.now task.now marks.now active.now }
{
    for c in task.before.as_slice() {
        if !is_marked(marks, *c) && up.may_still_come(*c, marks, active) {
            return true;
        }
    }
    false
}

/// An input place of the task is empty, and a token may still come to it.
fn fills(net: &Net, task: &Task, up: &Upstream, state: &NetState) -> bool
    requires upstream { IsUpstreamOf net.now up.now }
    requires few { length net.now.tasks ≤ most_tasks }
    ensures { FillsAs net.now state.now task.now result }
{
    let active = actives(state, net.tasks.as_slice().len());
    may_fill(net, task, up, &state.marks, &active)
}

/// The task is an OR-join that waits: an input place of it is empty, and a token may still come there.
pub fn or_waits(net: &Net, task: &Task, up: &Upstream, state: &NetState) -> bool
    requires upstream { IsUpstreamOf net.now up.now }
    requires few { length net.now.tasks ≤ most_tasks }
    ensures { OrWaitsAs net.now state.now task.now result }
{
    if !task.join.is_or() {
        return false;
    }
    fills(net, task, up, state)
}
