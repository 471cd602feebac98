// A person adds an item to a task.
ghost use Rattle.std.specs.Prelude.{◌≡◌, IfOk, codes};
ghost use Rattle.yw_breaks.specs.Add.{add_rule, is_dynamic, rest_fault};
ghost use Rattle.yw_breaks.specs.Events.{AddFinds, AddMakes};
ghost use Rattle.yw_breaks.specs.Finds.{ByHeld};
ghost use Rattle.yw_breaks.specs.Nets.{IsTaskNamed};
ghost use Rattle.yw_state.specs.Broken.{placed};
ghost use Rattle.yw_state.specs.declared.rule.Rule.TheVariants.{BadData};
ghost use Rattle.yw_task.specs.Adds.{is_full, room_rule};

use crate::asked::AddAsked;
use crate::hold::is_held;
use crate::nets::task_named;
use crate::persons::lacks_role;
use crate::refusals::{number_rule, placeless, refusal, undefined};
use std::alloc::{AllocError, Global};
use yw_base::{Ident, Name, NameList, Row, Text, Value};
use yw_given::element_value;
use yw_known::NetHere;
use yw_spec::Task;
use yw_state::{Event, Refusal, Rule};
use yw_task::{first_lacking, is_active, items_in, task_at};
use yw_tree::{Forest, NetState};

/// Items may be added to the task.
fn is_dynamic(task: &Task) -> bool
    ensures { result ≡ is_dynamic task.now }
{
    match &task.many {
        Some(many) => many.dynamic,
        None => false,
    }
}

/// So many items are as many as the task may have, or more.
fn is_full(task: &Task, count: usize) -> bool
    ensures { result ≡ is_full task.now count }
{
    match &task.many {
        Some(many) => many.max as usize <= count,
        None => false,
    }
}

/// `Stage` where the task isn't active, `MaxReached` where it has as many items as it may have.
fn room_rule(state: &NetState, task: &Task, t: usize) -> Option<Rule>
    ensures { result ≡ room_rule state.now task.now t }
{
    if !is_active(state, t) {
        return Some(Rule::Stage);
    }
    is_full(task, items_in(state, t).len()).then_some(Rule::MaxReached)
}

/// What is broken of the task, by who has these roles, of whether work in the net is held, and of the items that there are.
fn add_rule(
    forest: &Forest,
    roles: &NameList,
    state: &NetState,
    task: &Task,
    t: usize,
    at: &Ident,
) -> Option<Rule>
    ensures { ByHeld forest.now at.now (λ held. result ≡ add_rule roles.now state.now task.now t held) }
{
    if !is_dynamic(task) {
        return Some(Rule::NotDynamic);
    }
    if lacks_role(roles, task) {
        return Some(Rule::Role);
    }
    if is_held(forest, at) {
        return Some(Rule::Held);
    }
    room_rule(state, task, t)
}

/// `BadData`, at `value`. An `Err` says that no memory was left.
fn bad_value(alloc: Global) -> Result<Refusal, AllocError>
    ensures { IfOk result (λ refusal. refusal ≡ placed BadData (codes "value")) }
{
    let at = Text::copy_of(alloc, "value")?;
    Ok(Refusal {
        rule: Rule::BadData,
        at,
    })
}

/// What is broken of the parameters but the element, and of the numbers that are left.
fn rest_fault(
    alloc: Global,
    task: &Task,
    vals: &Row,
    next: u64,
) -> Result<Option<Refusal>, AllocError>
    ensures { IfOk result (λ found. found ≡ rest_fault task.now vals.now next) }
{
    match first_lacking(task.ins.as_slice(), vals) {
        Some(param) => undefined(alloc, param.name.as_str()),
        None => Ok(refusal(alloc, number_rule(next))),
    }
}

/// The event of an addition to the task with this number, which has this name, by who has these roles; else the first rule that it breaks.
fn add_to(
    alloc: Global,
    forest: &Forest,
    roles: &NameList,
    here: &NetHere<'_>,
    t: usize,
    next: u64,
    at: Ident,
    name: Name,
    value: Option<Value>,
) -> Result<Result<Event, Refusal>, AllocError>
    requires { IsTaskNamed here.now.net.now name t }
    ensures { IfOk result (AddMakes forest.now roles.now here.now next at name value) }
{
    let task = task_at(here.net, t);
    if let Some(rule) = add_rule(forest, roles, here.state, task, t, &at) {
        return Ok(Err(placeless(alloc, rule)));
    }
    let Some(element) = element_value(alloc, task, value) else {
        return Ok(Err(bad_value(alloc)?));
    };
    match rest_fault(alloc, task, &here.state.vals, next)? {
        Some(refusal) => Ok(Err(refusal)),
        None => Ok(Ok(Event::Add {
            net: at,
            task: name,
            value: element,
            number: next,
        })),
    }
}

/// The event that an addition to this net asks for, with the number of its task, where `next` is drawn next and none of the rules is broken that
/// are tried behind. Else the first that is: `UnknownTask` where the net has no task of this name; `NotDynamic` where no items may be added to it;
/// `Role` where the person, who has these roles, lacks its role; `Held` where work in the net is held; `Stage` where the task isn't active;
/// `MaxReached` where it has as many items as it may have; `BadData`, at `value`, where the value isn't of the sort of an element, or past the limits
/// of values; `Mapping` where another parameter has an undefined expression, at the name of the first such one; `Numbers` where no number is left.
/// An `Err` says that no memory was left.
pub fn add_asked(
    alloc: Global,
    forest: &Forest,
    roles: &NameList,
    here: &NetHere<'_>,
    next: u64,
    at: Ident,
    task: Name,
    value: Option<Value>,
) -> Result<Result<AddAsked, Refusal>, AllocError>
    ensures { IfOk result (AddFinds forest.now roles.now here.now next at task value) }
{
    match task_named(here.net, &task) {
        None => Ok(Err(placeless(alloc, Rule::UnknownTask))),
        Some(t) => match add_to(alloc, forest, roles, here, t, next, at, task, value)? {
            Ok(event) => Ok(Ok(AddAsked { event, task: t })),
            Err(refusal) => Ok(Err(refusal)),
        },
    }
}
