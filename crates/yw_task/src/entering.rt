// A task is entered.
ghost use Rattle.std.specs.Prelude.{◌≡◌, ◌<◌, ◌≤◌, IfOk, None, OnOk, false, length};
ghost use Rattle.yw_base.specs.Identity.{most_numbers};
ghost use Rattle.yw_path.specs.Upstream.{IsUpstreamOf};
ghost use Rattle.yw_task.specs.Asked.{is_active};
ghost use Rattle.yw_task.specs.Completes.{AnswersFirst};
ghost use Rattle.yw_task.specs.Enters.{AreEntryRows, Chooses, EnterBreaks, Enters, MayCome, OnRefusal, by_choice, is_choice};
ghost use Rattle.yw_tree.specs.Boxed.{IsBoxedNet};
ghost use Rattle.yw_within.specs.Within.{most_tasks};

use crate::ask::{ask_enter, task_at};
use crate::coming::{add_items, take_tokens};
use crate::done::placeless;
use crate::fault::StepFault;
use crate::giving::rows_to_enter;
use std::alloc::{AllocError, Global};
use yw_base::{Gate, Ident, Row};
use yw_mark::{Taken, is_among, is_marked};
use yw_path::Upstream;
use yw_spec::{Net, Task};
use yw_state::{Checks, Marks, Rule};
use yw_tree::NetState;

/// The choice is of the kind of the task's join, and names no place but a marked input place.
fn is_choice(task: &Task, marks: &Marks, taken: Taken) -> bool
    ensures { result ≡ is_choice task.now.join marks.now task.now.before taken }
{
    match (task.join, taken) {
        (Gate::And, Taken::All) | (Gate::Or, Taken::Marked) => true,
        (Gate::Xor, Taken::One(c)) => is_marked(marks, c) && is_among(task.before.as_slice(), c),
        _ => false,
    }
}

/// That the task is active stays; else it isn't enabled where the choice is none of the join's.
fn by_choice(chosen: bool, shown: Option<Rule>) -> Option<Rule>
    ensures { result ≡ by_choice chosen shown }
{
    if chosen {
        return shown;
    }
    match shown {
        Some(Rule::Active) => Some(Rule::Active),
        _ => Some(Rule::NotEnabled),
    }
}

/// The first rule that an entry breaks, of those that the net and the choice show.
fn choice_fault(net: &Net, state: &NetState, up: &Upstream, t: usize, taken: Taken) -> Option<Rule>
    requires task { t < length net.now.tasks }
    requires few { length net.now.tasks ≤ most_tasks }
    requires upstream { IsUpstreamOf net.now up.now }
    ensures shows { Chooses net.now state.now t taken result }
    ensures idle { result ≡ None → is_active state.now t ≡ false }
{
    let chosen = is_choice(task_at(net, t), &state.marks, taken);
    by_choice(chosen, ask_enter(net, state, up, t))
}

/// A task is entered, by its number in the net at `at`: a token goes from each place that the choice of its join stands for, and its items
/// come, ready, numbered from `first` on, each given one of these rows, which are those of its entry (`entry_rows`), with these checks due. None of
/// the task's items stands in the net, the items below the net have numbers below `first`, and numbers are left for those that come. Nothing is
/// tested: neither this, nor whether the join takes from these places, nor whether it waits. An `Err` says that no memory was left, and then the net
/// isn't used again. To enter a task is the paper's.
pub fn come(
    alloc: Global,
    net: &Net,
    state: &mut NetState,
    at: &Ident,
    t: usize,
    taken: Taken,
    first: u64,
    rows: Vec<Row>,
    due: Checks,
) -> Result<(), AllocError>
    requires may { MayCome net.now state.old t first }
    requires rows { AreEntryRows net.now state.old t rows.items }
    requires boxed { IsBoxedNet state.old }
    requires room { length at.now < most_numbers }
    requires some { 1 ≤ first }
    ensures { OnOk result
        (Enters net.now state.old at.now t taken first due state.new (length rows.items)) }
{
    take_tokens(net, state, t, taken);
    add_items(alloc, state, at, t, first, rows, due)?;
    Ok(())
}

/// A task is entered, by its number in the net at `at`: a token goes from each place that the choice of its join stands for, and its items
/// come, ready, numbered from `first` on, each with what it is given and these checks due. Answers how many came. `up` is the net's own, and
/// the items below the net have numbers below `first`.
///
/// `Refused` has the first rule that this breaks, of those that are looked at here: `Active` where items of the task stand in the net;
/// `NotEnabled` where its join lacks tokens, and where the choice isn't of the join's kind or names a place that is no marked input place;
/// `OrWaits` where it is an OR-join that waits; `Mapping` where the list over which it runs is undefined, at `each`, or what an item is given,
/// at the name of the first such parameter; `Count` where the items would be fewer than `min` or more than `max`; `Numbers` where so many numbers
/// aren't left. Then the net is as it was. Where no memory is left the net isn't used again.
pub fn enter(
    alloc: Global,
    net: &Net,
    state: &mut NetState,
    up: &Upstream,
    at: &Ident,
    t: usize,
    taken: Taken,
    first: u64,
    due: Checks,
) -> Result<u32, StepFault>
    requires task { t < length net.now.tasks }
    requires few { length net.now.tasks ≤ most_tasks }
    requires upstream { IsUpstreamOf net.now up.now }
    requires boxed { IsBoxedNet state.old }
    requires room { length at.now < most_numbers }
    requires some { 1 ≤ first }
    ensures ok { IfOk result (Enters net.now state.old at.now t taken first due state.new) }
    ensures breaks { AnswersFirst (EnterBreaks net.now state.old t taken first) result }
    ensures err { OnRefusal result (state.new ≡ state.old) }
{
    if let Some(rule) = choice_fault(net, state, up, t, taken) {
        return Err(StepFault::Refused(placeless(alloc, rule)));
    }
    let rows = rows_to_enter(alloc, task_at(net, t), &state.vals, first)?;
    let count = rows.len() as u32;
    come(alloc, net, state, at, t, taken, first, rows, due)?;
    Ok(count)
}
