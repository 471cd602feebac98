// What is open at an identity where a net stands: the entries of its tasks.
ghost use Rattle.std.specs.List.Sorted.{IsPermutation, IsSortedBy};
ghost use Rattle.std.specs.Prelude.{◌≡◌, ◌<◌, IfOk, OnOk, length};
ghost use Rattle.yw_open.specs.Entries.{AddsEntry, IsKnownHere, ListsBelow, TellsNet, TellsState, is_chosen};
ghost use Rattle.yw_open.specs.Opens.{NoneChosen, name_before};
ghost use Rattle.yw_state.specs.Map.{lexical};
ghost use Rattle.yw_state.specs.State.{State, TaskAt};

use crate::tasks::{entry_of, person_may_enter};
use std::alloc::{AllocError, Global};
use std::cmp::Ordering;
use yw_base::Items;
use yw_known::{Known, NetHere};
use yw_spec::Task;
use yw_task::task_at;
use yw_tree::NetState;
use yw_work::Open;

/// Whether a tree chooses worklets for a task of the net. Trees are no part of what is known, so here none does; once they are, they are asked here.
fn is_chosen(_here: &NetHere<'_>, _task: &Task) -> bool
    ensures { (s : State) (x : TaskAt) → NoneChosen s → is_chosen s x ≡ result }
{
    false
}

/// Adds the entry of the task with this number at the end, where a person may enter it.
fn push_entry(here: &NetHere<'_>, t: usize, opens: &mut Items<Open>) -> Result<(), AllocError>
    requires known { IsKnownHere here.now }
    requires task { t < length here.now.net.now.tasks }
    ensures { OnOk result (AddsEntry here.now t opens.old opens.new) }
{
    let task = task_at(here.net, t);
    if !person_may_enter(here.net, here.state, here.up, t, is_chosen(here, task)) {
        return Ok(());
    }
    opens.push(entry_of(task)?)
}

/// The entries of the tasks of a net that a person may enter, in the order of its document.
fn entries_in(alloc: Global, here: &NetHere<'_>) -> Result<Items<Open>, AllocError>
    requires { IsKnownHere here.now }
    ensures { IfOk result (ListsBelow here.now (length here.now.net.now.tasks)) }
{
    let mut opens = Items::new(alloc);
    for t in 0..here.net.tasks.len() {
        push_entry(here, t, &mut opens)?;
    }
    Ok(opens)
}

/// How the names of two tasks are ordered, in byte order.
fn name_order(a: &Open, b: &Open) -> Ordering
    ensures { result ≡ lexical a.now.task b.now.task }
{
    a.task.as_str().cmp(b.task.as_str())
}

/// The same in order of the tasks' names. It takes no memory.
fn by_name(opens: Items<Open>) -> Items<Open>
    ensures moved { IsPermutation opens result }
    ensures sorted { IsSortedBy name_before result }
{
    let mut opens = opens.into_vec();
    opens.sort_unstable_by(|a, b| name_order(a, b));
    Items::from_vec(opens)
}

/// The entries of the tasks of a net that a person may enter, in order of the tasks' names.
fn entries_at(alloc: Global, here: &NetHere<'_>) -> Result<Items<Open>, AllocError>
    requires { IsKnownHere here.now }
    ensures { IfOk result (TellsNet here.now) }
{
    Ok(by_name(entries_in(alloc, here)?))
}

/// What is open where a net stands, whatever stands there with it: the entries of its tasks that a person may enter, in order of the tasks' names. A
/// net of which nothing is known stands nowhere. An `Err` says that no memory was left.
pub fn opens_in_net(
    alloc: Global,
    known: &Known,
    state: &NetState,
) -> Result<Items<Open>, AllocError>
    ensures { IfOk result (TellsState known.now state.now) }
{
    // No work is done here: it says that names lead to specifications.
    known.are_named();
    let Some(found) = known.net(state.spec, state.net) else {
        return Ok(Items::new(alloc));
    };
    let here = NetHere {
        state,
        net: found.net,
        up: found.up,
        spec: found.spec,
    };
    entries_at(alloc, &here)
}
