// An item is added to a task.
ghost use Rattle.std.specs.Prelude.{◌≡◌, IfOk, OnOk};
ghost use Rattle.yw_cases.specs.Adding.{has_room, may_grow, takes_element};
ghost use Rattle.yw_cases.specs.State.{MayStand};
ghost use Rattle.yw_cases.specs.Tried.{IsTaskNumbered, TellsNumbered};
ghost use Rattle.yw_standing.specs.State.{state_of};
ghost use Rattle.yw_standing.specs.Tried.{IsDone, LeadsOn};
ghost use Rattle.yw_state.specs.declared.event.Event.TheVariants as events;

use crate::held::is_held;
use crate::rows::may_hold;
use crate::whole::NO_CHECKS;
use std::alloc::{AllocError, Global};
use yw_base::{Ident, Name, Value};
use yw_known::{net_here, task_called};
use yw_spec::Task;
use yw_standing::{Standing, draws, known_net};
use yw_task::{first_lacking, is_active, items_in};
use yw_tree::NetState;

/// The task is dynamic, and may have more items than so many.
fn has_room(task: &Task, count: usize) -> bool
    ensures { result ≡ has_room task.now count }
{
    match &task.many {
        Some(many) => many.dynamic && count < many.max as usize,
        None => false,
    }
}

/// The task's items are given such a value as their element.
fn takes_element(task: &Task, value: &Value) -> bool
    ensures { result ≡ takes_element task.now value.now }
{
    match &task.many {
        Some(many) => match task.ins.get(many.item) {
            Some(param) => may_hold(param.sort, value),
            None => false,
        },
        None => false,
    }
}

/// The task, which has number `t`, may have one item more in the net, for this element: it is active, and each of its parameters has a value.
fn may_grow(state: &NetState, task: &Task, t: usize, element: &Value) -> bool
    ensures { result ≡ may_grow state.now task.now t element.now }
{
    is_active(state, t)
        && has_room(task, items_in(state, t).len())
        && takes_element(task, element)
        && first_lacking(task.ins.as_slice(), &state.vals).is_none()
}

/// The number of a task in the net at an identity, by its name, where an item numbered `n` may be added to it for this element; `None` where none may.
/// It takes no memory.
pub fn may_add(standing: &Standing, at: &Ident, name: &Name, value: &Value, n: u64) -> Option<usize>
    requires { MayStand standing.now }
    ensures { TellsNumbered standing.now (events.Add at.now name.now value.now n) result }
{
    if !draws(standing.next, n, 1) {
        return None;
    }
    if is_held(standing, at) {
        return None;
    }
    let Some(here) = net_here(&standing.known, &standing.forest, at) else {
        return None;
    };
    let Some(t) = task_called(here.net, name) else {
        return None;
    };
    let Some(task) = here.net.tasks.get(t) else {
        return None;
    };
    if !may_grow(here.state, task, t, value) {
        return None;
    }
    Some(t)
}

/// An item numbered `n` is added for this element, as is allowed, to the task with the number `t`, which has this name. An `Err` says that no memory
/// was left.
pub fn act_add(
    alloc: Global,
    standing: &mut Standing,
    at: &Ident,
    _name: &Name,
    value: &Value,
    n: u64,
    t: usize,
) -> Result<(), AllocError>
    requires stands { MayStand standing.old }
    requires leads { LeadsOn standing.old (events.Add at.now _name.now value.now n) }
    requires number { IsTaskNumbered (state_of standing.old) at.now _name.now t }
    ensures { OnOk result
        (IsDone standing.old (events.Add at.now _name.now value.now n) standing.new) }
{
    let Some(found) = known_net(&standing.known, &standing.forest, at) else {
        unreachable!();
    };
    let forest = &mut standing.forest;
    yw_steps::come_more_at(alloc, forest, found.net, at, t, value, n, NO_CHECKS)?;
    standing.next = n + 1;
    Ok(())
}
