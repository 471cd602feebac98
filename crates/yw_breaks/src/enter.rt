// A person enters a task.
ghost use Rattle.std.specs.Option.{option_copied};
ghost use Rattle.std.specs.Prelude.{◌≡◌, ◌<◌, IfOk, None, Some, find, length, ℕ};
ghost use Rattle.yw_breaks.specs.Enter.{EnterMakes, EntersBy, FindsChosen, FindsRows, IsFed};
ghost use Rattle.yw_breaks.specs.Nets.{IsWithinHere};
ghost use Rattle.yw_state.specs.Passing.{entry_values};
ghost use Rattle.yw_task.specs.Giving.{entry_fault, lacks_value};

use crate::asked::EntryAsked;
use crate::nets::task_named;
use crate::persons::worker_rule;
use crate::refusals::{mapping, placeless};
use std::alloc::{AllocError, Global};
use yw_base::{Ident, Name, NameList, Row};
use yw_known::NetHere;
use yw_mark::{Taken, join_choice};
use yw_spec::{Param, Task};
use yw_state::{Refusal, Rule};
use yw_task::{count_rule, entry_values, first_lacking, is_active, lacks_list, or_waits, task_at};
use yw_tree::Forest;

/// The refusal of an entry of which something is undefined, where a parameter without an expression is given an element: at `each`, or at the first such
/// parameter. An `Err` says that no memory was left.
fn undefined_entry(alloc: Global, task: &Task, vals: &Row) -> Result<Refusal, AllocError>
    requires fed { IsFed task.now }
    requires undefined { entry_values task.now vals.now ≡ None }
    ensures { IfOk result
        (λ refusal. (next : ℕ) → Some refusal ≡ entry_fault task.now vals.now next) }
{
    if lacks_list(task, vals) {
        return mapping(alloc, "each");
    }
    let Some(param) = first_lacking(task.ins.as_slice(), vals) else {
        unreachable!();
    };
    mapping(alloc, param.name.as_str())
}

/// The first parameter that has an undefined expression, where these rows are given: none where there are any.
fn lacking<'a>(task: &'a Task, vals: &Row, rows: &[Row]) -> Option<&'a Param>
    requires { entry_values task.now vals.now ≡ Some rows.now }
    ensures { option_copied result ≡ find (lacks_value vals.now) task.now.ins }
{
    if rows.is_empty() {
        return first_lacking(task.ins.as_slice(), vals);
    }
    None
}

/// What each item is given that an entry makes, where a parameter without an expression is given an element. Else what keeps items from coming:
/// `Mapping`, `Count` or `Numbers`. An `Err` says that no memory was left.
fn rows_of(
    alloc: Global,
    task: &Task,
    vals: &Row,
    next: u64,
) -> Result<Result<Vec<Row>, Refusal>, AllocError>
    requires { IsFed task.now }
    ensures { IfOk result (FindsRows task.now vals.now next) }
{
    let Some(rows) = entry_values(alloc, task, vals)? else {
        return Ok(Err(undefined_entry(alloc, task, vals)?));
    };
    if let Some(param) = lacking(task, vals, rows.as_slice()) {
        return Ok(Err(mapping(alloc, param.name.as_str())?));
    }
    match count_rule(task, next, rows.len()) {
        Some(rule) => Ok(Err(placeless(alloc, rule))),
        None => Ok(Ok(rows)),
    }
}

/// From where the join of the task with this number takes, where nothing that the net shows keeps the task from being entered; else the first rule
/// that it shows: `Active`, `NotEnabled` or `OrWaits`.
fn choice_of(here: &NetHere<'_>, t: usize) -> Result<Taken, Rule>
    requires task { t < length here.now.net.now.tasks }
    requires within { IsWithinHere here.now }
    ensures { FindsChosen here.now t result }
{
    if is_active(here.state, t) {
        return Err(Rule::Active);
    }
    let Some(taken) = join_choice(here.net, &here.state.marks, t) else {
        return Err(Rule::NotEnabled);
    };
    if or_waits(here.net, task_at(here.net, t), here.up, here.state) {
        return Err(Rule::OrWaits);
    }
    Ok(taken)
}

/// From where the join of the task with this number takes, and what its items are given, where who has these roles may enter the task of this net;
/// else the first rule that this breaks.
fn enter_by(
    alloc: Global,
    forest: &Forest,
    roles: &NameList,
    here: &NetHere<'_>,
    t: usize,
    next: u64,
    at: &Ident,
) -> Result<Result<(Taken, Vec<Row>), Refusal>, AllocError>
    requires task { t < length here.now.net.now.tasks }
    requires within { IsWithinHere here.now }
    ensures { IfOk result (EntersBy forest.now at.now roles.now here.now t next) }
{
    let task = task_at(here.net, t);
    if let Some(rule) = worker_rule(forest, roles, task, at) {
        return Ok(Err(placeless(alloc, rule)));
    }
    match choice_of(here, t) {
        Err(rule) => Ok(Err(placeless(alloc, rule))),
        Ok(taken) => match rows_of(alloc, task, &here.state.vals, next)? {
            Ok(rows) => Ok(Ok((taken, rows))),
            Err(refusal) => Ok(Err(refusal)),
        },
    }
}

/// The task that is entered at this net, with the choice of its join and what its items are given, where none of the rules is broken that are
/// tried behind, in a state in which persons do each atomic task. Else the first that is: `UnknownTask` where the net has no task of this name;
/// `ByItself` where the task isn't atomic; `Role` where the person, who has these roles, lacks its role; `Held` where work in the net is held;
/// `Active` where items of the task stand there; `NotEnabled` where its join lacks tokens; `OrWaits` where it is an OR-join that waits; `Mapping`
/// where the list over which it runs is undefined, at `each`, or what an item is given, at the name of the first such parameter; `Count` where the
/// items would be too few or too many; `Numbers` where so many numbers aren't left, of which `next` is drawn next. An `Err` says that no memory was
/// left.
pub fn enter_asked(
    alloc: Global,
    forest: &Forest,
    roles: &NameList,
    here: &NetHere<'_>,
    next: u64,
    at: &Ident,
    name: &Name,
) -> Result<Result<EntryAsked, Refusal>, AllocError>
    requires { IsWithinHere here.now }
    ensures { IfOk result (EnterMakes forest.now roles.now here.now next at.now name.now) }
{
    match task_named(here.net, name) {
        None => Ok(Err(placeless(alloc, Rule::UnknownTask))),
        Some(task) => match enter_by(alloc, forest, roles, here, task, next, at)? {
            Ok((taken, rows)) => Ok(Ok(EntryAsked { task, taken, rows })),
            Err(refusal) => Ok(Err(refusal)),
        },
    }
}
