// What items of a task are given as they come.
ghost use Rattle.std.specs.Prelude.{◌≡◌, ◌+◌, ◌^◌, ◌<◌, ◌≤◌, [], ◌∷◌, None, Some, IfOk, find, is_none, is_some, length, map, option_map, slice_get, true};
ghost use Rattle.std.specs.Option.{option_copied};
ghost use Rattle.yw_base.specs.Identity.{number_end};
ghost use Rattle.yw_base.specs.Values.{value_of};
ghost use Rattle.yw_state.specs.Passing.{elements_for, entry_values, given_values, within_bounds};
ghost use Rattle.yw_task.specs.Completes.{AnswersFirst};
ghost use Rattle.yw_task.specs.Giving.{AreRows, count_rule, elements, entry_fault, entry_rows, given_value, lacks_value, rows_for};
ghost use Rattle.yw_task.specs.Giving.{undefined_entry, undefined_param};

use crate::done::placeless;
use crate::fault::StepFault;
use std::alloc::{AllocError, Global};
use yw_base::{Items, NUMBER_END, Row, Text, Val};
use yw_expr::view;
use yw_spec::{Param, Task};
use yw_state::{Refusal, Rule};

/// The parameter has an expression, which is undefined over these values.
fn lacks_value(param: &Param, vals: &Row) -> bool
    ensures { result ≡ lacks_value vals.now param.now }
{
    match &param.value {
        Some(value) => view(value, vals).is_none(),
        None => false,
    }
}

/// The first such parameter.
pub fn first_lacking<'a>(params: &'a [Param], vals: &Row) -> Option<&'a Param>
    ensures { option_copied result ≡ find (lacks_value vals.now) params.now }
{
    params.iter().find(|param| lacks_value(param, vals))
}

/// The name of the first parameter that has an undefined expression.
pub fn undefined_param(alloc: Global, task: &Task, vals: &Row) -> Result<Option<Text>, AllocError>
    ensures { IfOk result (λ name. name ≡ undefined_param task.now vals.now) }
{
    match first_lacking(task.ins.as_slice(), vals) {
        Some(param) => Ok(Some(Text::copy_of(alloc, param.name.as_str())?)),
        None => Ok(None),
    }
}

/// The task runs over a list, which is undefined. It takes no memory.
pub fn lacks_list(task: &Task, vals: &Row) -> bool
    ensures { result ≡ is_none (elements_for task.now.many vals.now) }
{
    match &task.many {
        Some(many) => view(&many.each, vals).is_none(),
        None => false,
    }
}

/// `each` where the list is undefined, or else the name of the first parameter that has an undefined expression.
fn undefined_entry(alloc: Global, task: &Task, vals: &Row) -> Result<Option<Text>, AllocError>
    ensures { IfOk result (λ name. name ≡ undefined_entry task.now vals.now) }
{
    if lacks_list(task, vals) {
        return Ok(Some(Text::copy_of(alloc, "each")?));
    }
    undefined_param(alloc, task, vals)
}

/// What a parameter is given: the value of its expression, or where it has none the element.
fn given_value<'a>(param: &'a Param, vals: &'a Row, element: Option<Val<'a>>) -> Option<Val<'a>>
    ensures { option_map value_of result ≡ given_value vals.now (option_map value_of element.entry) param.now }
{
    match &param.value {
        Some(value) => view(value, vals),
        None => element,
    }
}

/// What an item is given for an element: nothing where a parameter has no value.
pub fn given_row(
    alloc: Global,
    task: &Task,
    vals: &Row,
    element: Option<Val<'_>>,
) -> Result<Option<Row>, AllocError>
    ensures { IfOk result (λ row. row ≡ given_values task.now vals.now (option_map value_of element.entry)) }
{
    let mut row = Items::new(alloc);
    for param in task.ins.as_slice() {
        match given_value(param, vals, element) {
            Some(value) => row.push(value.to_value(alloc)?)?,
            None => return Ok(None),
        }
    }
    Ok(Some(row))
}

/// How many elements a list has; none where it is no list.
fn element_count(list: Val<'_>) -> usize
    ensures { result ≡ length (elements (value_of list.entry)) }
{
    match list {
        Val::Ints(ints) => ints.len(),
        Val::Texts(texts) => texts.len(),
        Val::Bool(_) | Val::Int(_) | Val::Text(_) => 0,
    }
}

/// The element of a list with this number.
fn element_at(list: Val<'_>, k: usize) -> Option<Val<'_>>
    ensures { option_map value_of result ≡ slice_get (elements (value_of list.entry)) k }
{
    match list {
        Val::Ints(ints) => Some(Val::Int(*ints.get(k)?)),
        Val::Texts(texts) => Some(Val::Text(texts.get(k)?.as_str())),
        Val::Bool(_) | Val::Int(_) | Val::Text(_) => None,
    }
}

/// What the item for each element of a list is given; `None` where one lacks a value.
fn rows_over(
    alloc: Global,
    task: &Task,
    vals: &Row,
    list: Val<'_>,
) -> Result<Option<Vec<Row>>, AllocError>
    ensures { IfOk result
        (AreRows (rows_for task.now vals.now (map Some (elements (value_of list.entry))))) }
{
    let mut rows = Vec::new(alloc);
    for k in 0..element_count(list) {
        match given_row(alloc, task, vals, element_at(list, k))? {
            Some(row) => rows.push(row)?,
            None => return Ok(None),
        }
    }
    Ok(Some(rows))
}

/// What the one item of a task without a list is given; `None` where it lacks a value.
fn one_row(alloc: Global, task: &Task, vals: &Row) -> Result<Option<Vec<Row>>, AllocError>
    ensures { IfOk result (AreRows (rows_for task.now vals.now (None ∷ []))) }
{
    let Some(row) = given_row(alloc, task, vals, None)? else {
        return Ok(None);
    };
    let mut rows = Vec::new(alloc);
    rows.push(row)?;
    Ok(Some(rows))
}

/// What each item is given that an entry makes: a row for each element of the list over which the task runs, or one where it runs over none. `None`
/// where the list, or what an item is given, is undefined. An `Err` says that no memory was left.
pub fn entry_values(alloc: Global, task: &Task, vals: &Row) -> Result<Option<Vec<Row>>, AllocError>
    ensures { IfOk result (AreRows (entry_values task.now vals.now)) }
{
    let Some(many) = &task.many else {
        return one_row(alloc, task, vals);
    };
    match view(&many.each, vals) {
        Some(list) => rows_over(alloc, task, vals, list),
        None => Ok(None),
    }
}

/// The same, and no row where something is undefined.
fn entry_rows(alloc: Global, task: &Task, vals: &Row) -> Result<Vec<Row>, AllocError>
    ensures { IfOk result (λ rows. rows.items ≡ entry_rows task.now vals.now) }
{
    match entry_values(alloc, task, vals)? {
        Some(rows) => Ok(rows),
        None => Ok(Vec::new(alloc)),
    }
}

/// So many items are within the task's bounds.
fn is_within_bounds(task: &Task, count: usize) -> bool
    ensures value { result ≡ within_bounds task.now.many count }
    ensures few { result ≡ true → is_some task.now.many ≡ true → count < 2 ^ 32 }
{
    match &task.many {
        Some(many) => many.min as usize <= count && count <= many.max as usize,
        None => true,
    }
}

/// The rule that so many items break, numbered from `first` on: `Count` where they are too few or too many, `Numbers` where so many numbers
/// aren't left.
pub fn count_rule(task: &Task, first: u64, count: usize) -> Option<Rule>
    ensures value { result ≡ count_rule task.now first count }
    ensures few { result ≡ None → is_some task.now.many ≡ true → count < 2 ^ 32 }
    ensures room { result ≡ None → first + count ≤ number_end }
{
    if !is_within_bounds(task, count) {
        return Some(Rule::Count);
    }
    if first.saturating_add(count as u64) > NUMBER_END {
        return Some(Rule::Numbers);
    }
    None
}

/// What each item is given that an entry makes, numbered from `first` on. `Refused` has the first rule that is broken: `Mapping` where an
/// expression is undefined, at `each` or at the parameter's name, `Count` and `Numbers`.
pub fn rows_to_enter(
    alloc: Global,
    task: &Task,
    vals: &Row,
    first: u64,
) -> Result<Vec<Row>, StepFault>
    ensures rows { IfOk result (λ rows. rows.items ≡ entry_rows task.now vals.now) }
    ensures few { IfOk result (λ rows. length rows.items < 2 ^ 32) }
    ensures room { IfOk result (λ rows. first + length rows.items ≤ number_end) }
    ensures breaks { AnswersFirst (λ found. found ≡ entry_fault task.now vals.now first) result }
{
    if let Some(at) = undefined_entry(alloc, task, vals)? {
        return Err(StepFault::Refused(Refusal {
            rule: Rule::Mapping,
            at,
        }));
    }
    let rows = entry_rows(alloc, task, vals)?;
    if let Some(rule) = count_rule(task, first, rows.len()) {
        return Err(StepFault::Refused(placeless(alloc, rule)));
    }
    Ok(rows)
}
