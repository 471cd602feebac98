// An item is added to a task.
ghost use Rattle.std.specs.Prelude.{◌≡◌, ◌<◌, ◌≤◌, [], ◌∷◌, IfOk, IsSome, OnOk, Some, length};
ghost use Rattle.yw_base.specs.Identity.{most_numbers, number_end};
ghost use Rattle.yw_state.specs.Passing.{given_values};
ghost use Rattle.yw_task.specs.Adds.{AddBreaks, Adds, AddsElement, GivesRow, MayComeMore, is_full, room_rule, value_fault};
ghost use Rattle.yw_task.specs.Completes.{AnswersFirst};
ghost use Rattle.yw_task.specs.Enters.{OnRefusal};
ghost use Rattle.yw_task.specs.Items.{AreBefore, row_of};
ghost use Rattle.yw_task.specs.Room.{GetsListAndItems};
ghost use Rattle.yw_tree.specs.Boxed.{IsBoxedNet};

use crate::ask::task_at;
use crate::coming::add_items;
use crate::done::placeless;
use crate::fault::StepFault;
use crate::giving::{given_row, undefined_param};
use crate::waits::is_active;
use std::alloc::{AllocError, Global};
use yw_base::{Ident, NUMBER_END, Row, Text, Value};
use yw_given::element_value;
use yw_spec::{Net, Task};
use yw_state::{Checks, Refusal, Rule};
use yw_tree::NetState;

/// How many items of the task stand in the net.
fn item_count(state: &NetState, t: usize) -> usize
    ensures { result ≡ length (row_of state.now t) }
{
    match state.items.get(t) {
        Some(list) => list.len(),
        None => 0,
    }
}

/// So many items are as many as the task may have, or more.
fn is_full(task: &Task, count: usize) -> bool
    ensures { result ≡ is_full task.now count }
{
    match &task.many {
        Some(many) => many.max as usize <= count,
        None => false,
    }
}

/// `Stage` where the task isn't active, `MaxReached` where it has as many items as it may have.
fn room_rule(state: &NetState, task: &Task, t: usize) -> Option<Rule>
    ensures { result ≡ room_rule state.now task.now t }
{
    if !is_active(state, t) {
        return Some(Rule::Stage);
    }
    is_full(task, item_count(state, t)).then_some(Rule::MaxReached)
}

/// What an item is given for an element, where each parameter has a value for it.
fn element_row(alloc: Global, task: &Task, vals: &Row, element: &Value) -> Result<Row, AllocError>
    requires { IsSome (given_values task.now vals.now (Some element.now)) }
    ensures { IfOk result (λ row. given_values task.now vals.now (Some element.now) ≡ Some row) }
{
    match given_row(alloc, task, vals, Some(element.lend()))? {
        Some(row) => Ok(row),
        None => unreachable!(),
    }
}

/// What an item that is numbered `n` is given for a value. `Refused` has the first rule that is broken: `BadData` where the value is no element,
/// `Mapping` where a parameter has an undefined expression, at its name, and `Numbers`.
fn row_to_add(
    alloc: Global,
    task: &Task,
    vals: &Row,
    value: Value,
    n: u64,
) -> Result<Row, StepFault>
    ensures gives { IfOk result (GivesRow task.now vals.now value) }
    ensures number { OnOk result (n < number_end) }
    ensures breaks { AnswersFirst (λ found. found ≡ value_fault task.now vals.now value n) result }
{
    let Some(element) = element_value(alloc, task, Some(value)) else {
        return Err(StepFault::Refused(Refusal {
            rule: Rule::BadData,
            at: Text::copy_of(alloc, "value")?,
        }));
    };
    if let Some(at) = undefined_param(alloc, task, vals)? {
        return Err(StepFault::Refused(Refusal {
            rule: Rule::Mapping,
            at,
        }));
    }
    if n >= NUMBER_END {
        return Err(StepFault::Refused(placeless(alloc, Rule::Numbers)));
    }
    Ok(element_row(alloc, task, vals, &element)?)
}

/// A list of one row.
fn alone(alloc: Global, given: Row) -> Result<Vec<Row>, AllocError>
    ensures { IfOk result (λ rows. rows.items ≡ given ∷ []) }
{
    Ok(vec![in alloc; given]?)
}

/// An item of a task comes to the net at `at`, ready and numbered `n`, which is given this row.
fn come_row(
    alloc: Global,
    state: &mut NetState,
    at: &Ident,
    t: usize,
    n: u64,
    given: Row,
    due: Checks,
) -> Result<(), AllocError>
    requires boxed { IsBoxedNet state.old }
    requires room { length at.now < most_numbers }
    requires some { 1 ≤ n }
    requires number { n < number_end }
    requires before { AreBefore at.now n (row_of state.old t) }
    ensures { OnOk result (GetsListAndItems at.now t due n (given ∷ []) state.old state.new) }
{
    add_items(alloc, state, at, t, n, alone(alloc, given)?, due)
}

/// An item more comes of a task, by the task's number in the net at `at`: it is ready and numbered `n`, is given this element, and these checks
/// are due at it. Each parameter of the task has a value for the element, its items have numbers below `n`, and `n` is below 2^48. Nothing is
/// tested. An `Err` says that no memory was left, and then the net isn't used again. To add an item is the paper's.
pub fn come_more(
    alloc: Global,
    net: &Net,
    state: &mut NetState,
    at: &Ident,
    t: usize,
    element: &Value,
    n: u64,
    due: Checks,
) -> Result<(), AllocError>
    requires may { MayComeMore net.now state.old t element.now n }
    requires boxed { IsBoxedNet state.old }
    requires room { length at.now < most_numbers }
    requires some { 1 ≤ n }
    requires before { AreBefore at.now n (row_of state.old t) }
    ensures { OnOk result (AddsElement net.now state.old at.now t element.now n due state.new) }
{
    let given = element_row(alloc, task_at(net, t), &state.vals, element)?;
    come_row(alloc, state, at, t, n, given, due)
}

/// A person adds an item to a task, by the task's number in the net at `at`; that the task is dynamic is judged before. The item is ready and
/// numbered `n`, is given the element for which the value stands, and these checks are due at it. The items of the task have numbers below `n`.
///
/// `Refused` has the first rule that this breaks, of those that are looked at here: `Stage` where the task isn't active; `MaxReached` where it
/// has as many items as it may have; `BadData`, at `value`, where the value isn't of the sort of an element, or past the limits of values;
/// `Mapping` where another parameter has an undefined expression, at the name of the first such one; `Numbers` where no number is left. Then
/// the net is as it was. Where no memory is left the net isn't used again.
pub fn add(
    alloc: Global,
    net: &Net,
    state: &mut NetState,
    at: &Ident,
    t: usize,
    value: Value,
    n: u64,
    due: Checks,
) -> Result<(), StepFault>
    requires task { t < length net.now.tasks }
    requires boxed { IsBoxedNet state.old }
    requires room { length at.now < most_numbers }
    requires some { 1 ≤ n }
    requires before { AreBefore at.now n (row_of state.old t) }
    ensures ok { OnOk result (Adds net.now state.old at.now t value n due state.new) }
    ensures breaks { AnswersFirst (AddBreaks net.now state.old t value n) result }
    ensures err { OnRefusal result (state.new ≡ state.old) }
{
    let task = task_at(net, t);
    if let Some(rule) = room_rule(state, task, t) {
        return Err(StepFault::Refused(placeless(alloc, rule)));
    }
    let given = row_to_add(alloc, task, &state.vals, value, n)?;
    come_row(alloc, state, at, t, n, given, due)?;
    Ok(())
}
