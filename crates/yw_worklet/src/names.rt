// Values that are passed by name: to a net as it begins, and back to an item.
ghost use Rattle.std.specs.Prelude.{◌≡◌, IfOk, map, option_and_then, position, unwrap_or};
ghost use Rattle.std.specs.Str.{bytes_eq};
ghost use Rattle.std.specs.Option.{option_copied};
ghost use Rattle.yw_base.specs.Values.{zero_of};
ghost use Rattle.yw_nest.specs.Values.{begins_with, var_value};
ghost use Rattle.yw_state.specs.ByName.{of_sort, param_value};
ghost use Rattle.yw_worklet.specs.Named.{given_value, handed_back, is_handed_back, named, returned, returned_value};

use std::alloc::{AllocError, Global};
use yw_base::{Items, Row, Sort, Text, Value};
use yw_spec::{Param, ParamList, Var, VarList};

/// What has values under names.
#[derive(Clone, Copy)]
pub enum Source<'a> {
    /// What an item was given, by the parameters of its task.
    Given(&'a ParamList, &'a Row),
    /// What a net has, by its variables.
    Held(&'a VarList, &'a Row),
}

fn param_number(params: &ParamList, name: &str) -> Option<usize>
    ensures { result ≡ position (λ p. bytes_eq p.name name.now) params.now }
{
    params
        .as_slice()
        .iter()
        .position(|param| param.name.as_str() == name)
}

fn param_value<'a>(params: &ParamList, values: &'a Row, name: &str) -> Option<&'a Value>
    ensures { option_copied result ≡ param_value params.now values.now name.now }
{
    match param_number(params, name) {
        Some(k) => values.get(k),
        None => None,
    }
}

fn var_number(vars: &VarList, name: &str) -> Option<usize>
    ensures { result ≡ position (λ x. bytes_eq x.name name.now) vars.now }
{
    vars.as_slice()
        .iter()
        .position(|var| var.name.as_str() == name)
}

fn var_value<'a>(vars: &VarList, values: &'a Row, name: &str) -> Option<&'a Value>
    ensures { option_copied result ≡ var_value vars.now values.now name.now }
{
    match var_number(vars, name) {
        Some(k) => values.get(k),
        None => None,
    }
}

/// What has this name.
fn value<'a>(source: &Source<'a>, name: &str) -> Option<&'a Value>
    ensures { option_copied result ≡ named source.now name.now }
{
    match *source {
        Source::Given(params, values) => param_value(params, values, name),
        Source::Held(vars, values) => var_value(vars, values, name),
    }
}

/// What has this name and is of this sort.
fn value_of_sort<'a>(source: &Source<'a>, name: &str, sort: Sort) -> Option<&'a Value>
    ensures { option_copied result ≡ option_and_then (of_sort sort) (named source.now name.now) }
{
    match value(source, name) {
        Some(value) if value.has_sort(sort) => Some(value),
        _ => None,
    }
}

/// What a variable has as its net begins.
fn first_value<'a>(var: &'a Var, source: &Source<'a>) -> &'a Value
    ensures { result.now ≡ begins_with (named source.now) var.now }
{
    if !var.usage.comes_in() {
        return &var.init;
    }
    match value_of_sort(source, var.name.as_str(), var.sort) {
        Some(value) => value,
        None => &var.init,
    }
}

/// What the variables of a net have as it begins.
pub fn first_values(alloc: Global, vars: &VarList, source: &Source<'_>) -> Result<Row, AllocError>
    ensures { IfOk result (λ row. row ≡ map (begins_with (named source.now)) vars.now) }
{
    let mut row = Items::new(alloc);
    for var in vars.as_slice() {
        row.push(first_value(var, source).copy(alloc)?)?;
    }
    Ok(row)
}

/// False, 0, the empty text, the empty list. It takes no memory.
fn zero_of(alloc: Global, sort: Sort) -> Value
    ensures { result ≡ zero_of sort }
{
    match sort {
        Sort::Bool => Value::Bool(false),
        Sort::Int => Value::Int(0),
        Sort::Text => Value::Text(Text::new(alloc)),
        Sort::Ints => Value::Ints(Items::new(alloc)),
        Sort::Texts => Value::Texts(Items::new(alloc)),
    }
}

/// What is found, or zero.
fn found_or_zero(alloc: Global, found: Option<&Value>, sort: Sort) -> Result<Value, AllocError>
    ensures { IfOk result (λ value. value ≡ unwrap_or (option_copied found.entry) (zero_of sort)) }
{
    match found {
        Some(value) => value.copy(alloc),
        None => Ok(zero_of(alloc, sort)),
    }
}

/// What an item of a task makes of what it was given: each of the task's `outs` has the given value of its name and sort, else false, 0, the
/// empty text or the empty list. An `Err` says that no memory was left.
pub fn made_of_given(
    alloc: Global,
    ins: &ParamList,
    outs: &ParamList,
    given: &Row,
) -> Result<Row, AllocError>
    ensures { IfOk result (λ row. row ≡ map (given_value (param_value ins.now given.now)) outs.now) }
{
    let source = Source::Given(ins, given);
    let mut row = Items::new(alloc);
    for param in outs.as_slice() {
        let found = value_of_sort(&source, param.name.as_str(), param.sort);
        row.push(found_or_zero(alloc, found, param.sort)?)?;
    }
    Ok(row)
}

/// The number of the first variable of this name whose value is handed back.
fn handed_number(vars: &VarList, name: &str) -> Option<usize>
    ensures { result ≡ position (is_handed_back name.now) vars.now }
{
    vars.as_slice()
        .iter()
        .position(|var| var.usage.goes_out() && var.name.as_str() == name)
}

/// What a net that has these values hands back under this name.
fn handed_back<'a>(vars: &VarList, values: &'a Row, name: &str) -> Option<&'a Value>
    ensures { option_copied result ≡ handed_back vars.now values.now name.now }
{
    match handed_number(vars, name) {
        Some(k) => values.get(k),
        None => None,
    }
}

/// What a parameter has at the end of a worklet: what the worklet hands back, else what the item was given.
fn returned<'a>(
    param: &Param,
    vars: &VarList,
    values: &'a Row,
    given: &Source<'a>,
) -> Option<&'a Value>
    ensures { option_copied result ≡ returned (handed_back vars.now values.now) (named given.now) param.now }
{
    match handed_back(vars, values, param.name.as_str()) {
        Some(value) if value.has_sort(param.sort) => Some(value),
        _ => value_of_sort(given, param.name.as_str(), param.sort),
    }
}

/// What an item makes by the variables of its worklet, which have these values, and by what it was given.
pub fn returned_values(
    alloc: Global,
    outs: &ParamList,
    vars: &VarList,
    values: &Row,
    given: &Source<'_>,
) -> Result<Row, AllocError>
    ensures { IfOk result (λ row. row ≡ map (returned_value (handed_back vars.now values.now) (named given.now)) outs.now) }
{
    let mut row = Items::new(alloc);
    for param in outs.as_slice() {
        let found = returned(param, vars, values, given);
        row.push(found_or_zero(alloc, found, param.sort)?)?;
    }
    Ok(row)
}
