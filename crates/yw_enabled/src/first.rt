// The first task of a net that is left or entered by nobody.
ghost use Rattle.std.specs.Prelude.{◌≡◌, ◌<◌, ◌≤◌, IfOk, IfSome, None, length};
ghost use Rattle.yw_enabled.specs.Entered.{ComesIn, EntersFirst, StaysOut, is_chosen, is_manual};
ghost use Rattle.std.specs.Option.{option_copied};
ghost use Rattle.yw_enabled.specs.Left.{IsOfTask, LeavesFirst, TellsNet, told_of};
ghost use Rattle.yw_mark.specs.Taking.{OfTask};
ghost use Rattle.yw_path.specs.Upstream.{IsUpstreamOf};
ghost use Rattle.yw_state.specs.Nets.{is_atomic};
ghost use Rattle.yw_within.specs.Within.{most_tasks};

use crate::entered::{Entering, may_be_entered};
use crate::left::may_be_left;
use std::alloc::{AllocError, Global};
use yw_path::Upstream;
use yw_spec::{Kind, Net, Task};
use yw_task::{Outcome, task_at};
use yw_tree::NetState;

/// Persons do the task's items.
fn is_atomic(task: &Task) -> bool
    ensures { result ≡ is_atomic task.now }
{
    match task.kind {
        Kind::Atomic => true,
        Kind::Empty | Kind::Sub(_) => false,
    }
}

/// A tree chooses worklets for the task with this number, as is told.
fn is_chosen(chosen: &[bool], t: usize) -> bool
    ensures { result ≡ is_chosen chosen.now t }
{
    chosen.get(t).copied().unwrap_or(false)
}

/// Persons enter the task of a net with this number.
fn is_manual(net: &Net, chosen: &[bool], t: usize) -> bool
    requires { t < length net.now.tasks }
    ensures { OfTask net.now t (λ task. is_manual task (is_chosen chosen.now t) ≡ result) }
{
    is_atomic(task_at(net, t)) && !is_chosen(chosen, t)
}

/// What an entry of the task takes and gives, where persons don't enter it and it may be entered.
fn comes_in(
    alloc: Global,
    net: &Net,
    state: &NetState,
    up: &Upstream,
    t: usize,
    first: u64,
    chosen: &[bool],
) -> Result<Option<Entering>, AllocError>
    requires task { t < length net.now.tasks }
    requires few { length net.now.tasks ≤ most_tasks }
    requires upstream { IsUpstreamOf net.now up.now }
    ensures some { IfOk result
        (λ found. IfSome found (ComesIn net.now state.now first chosen.now t)) }
    ensures none { IfOk result
        (λ found. found ≡ None → StaysOut net.now state.now first chosen.now t) }
{
    if is_manual(net, chosen, t) {
        return Ok(None);
    }
    may_be_entered(alloc, net, state, up, t, first)
}

/// What is told of the task with this number, by how many items are done of each.
fn told_of(told: Option<&[usize]>, t: usize) -> Option<usize>
    ensures { result ≡ told_of (option_copied told.entry) t }
{
    told?.get(t).copied()
}

/// The first task of a net that may be left, by its number, with what its exit leaves; `None` where none may. How many items are done of each task
/// may be told. An `Err` says that no memory was left.
pub fn first_left(
    alloc: Global,
    net: &Net,
    state: &NetState,
    told: Option<&[usize]>,
) -> Result<Option<(usize, Outcome)>, AllocError>
    ensures within { IfOk result (λ found. IfSome found (IsOfTask net.now)) }
    ensures first { TellsNet state.now (option_copied told.entry) → IfOk result (LeavesFirst net.now state.now) }
{
    for t in 0..net.tasks.as_slice().len() {
        if let Some(outcome) = may_be_left(alloc, net, state, t, told_of(told, t))? {
            return Ok(Some((t, outcome)));
        }
    }
    Ok(None)
}

/// The first task of a net, of those that persons don't enter, that may be entered, by its number, with what its entry takes and gives; `None` where
/// none may. `first` is the number that is drawn next, `up` the net's own upstream. Persons enter the atomic tasks for which no tree chooses worklets;
/// `chosen` says of each task whether one does, and a task that it hasn't is not chosen for. An `Err` says that no memory was left.
pub fn first_entered(
    alloc: Global,
    net: &Net,
    state: &NetState,
    up: &Upstream,
    first: u64,
    chosen: &[bool],
) -> Result<Option<(usize, Entering)>, AllocError>
    requires few { length net.now.tasks ≤ most_tasks }
    requires upstream { IsUpstreamOf net.now up.now }
    ensures { IfOk result (EntersFirst net.now state.now first chosen.now) }
{
    for t in 0..net.tasks.as_slice().len() {
        if let Some(entering) = comes_in(alloc, net, state, up, t, first, chosen)? {
            return Ok(Some((t, entering)));
        }
    }
    Ok(None)
}
