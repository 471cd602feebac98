// Values that are passed by name, to a child net as it begins and back from it at its end.
ghost use Rattle.std.specs.Prelude.{◌≡◌, IfOk, map, position};
ghost use Rattle.std.specs.Str.{bytes_eq};
ghost use Rattle.std.specs.Option.{option_copied};
ghost use Rattle.yw_base.specs.Values.{zero_of};
ghost use Rattle.yw_nest.specs.Values.{begins_with, made_value, var_value};
ghost use Rattle.yw_state.specs.ByName.{param_value};

use std::alloc::{AllocError, Global};
use yw_base::{Items, Row, Sort, Text, Value};
use yw_spec::{Param, ParamList, Var, VarList};

/// The number of the first parameter of this name.
fn param_number(params: &ParamList, name: &str) -> Option<usize>
    ensures { result ≡ position (λ p. bytes_eq p.name name.now) params.now }
{
    params
        .as_slice()
        .iter()
        .position(|param| param.name.as_str() == name)
}

/// The value of the parameter of this name, where the parameters have these values.
fn param_value<'a>(params: &ParamList, values: &'a Row, name: &str) -> Option<&'a Value>
    ensures { option_copied result ≡ param_value params.now values.now name.now }
{
    match param_number(params, name) {
        Some(k) => values.get(k),
        None => None,
    }
}

/// The number of the first variable of this name.
fn var_number(vars: &VarList, name: &str) -> Option<usize>
    ensures { result ≡ position (λ x. bytes_eq x.name name.now) vars.now }
{
    vars.as_slice()
        .iter()
        .position(|var| var.name.as_str() == name)
}

/// The value of the variable of this name, where the variables have these values.
fn var_value<'a>(vars: &VarList, values: &'a Row, name: &str) -> Option<&'a Value>
    ensures { option_copied result ≡ var_value vars.now values.now name.now }
{
    match var_number(vars, name) {
        Some(k) => values.get(k),
        None => None,
    }
}

/// What a variable has as its net begins, where the item is given these values of these parameters.
fn first_value<'a>(var: &'a Var, ins: &ParamList, given: &'a Row) -> &'a Value
    ensures { result.now ≡ begins_with (param_value ins.now given.now) var.now }
{
    if !var.usage.comes_in() {
        return &var.init;
    }
    match param_value(ins, given, var.name.as_str()) {
        Some(value) if value.has_sort(var.sort) => value,
        _ => &var.init,
    }
}

/// What the variables of a net have as it begins, where the item is given these values of these parameters.
pub fn first_values(
    alloc: Global,
    vars: &VarList,
    ins: &ParamList,
    given: &Row,
) -> Result<Row, AllocError>
    ensures { IfOk result (λ row. row ≡ map (begins_with (param_value ins.now given.now)) vars.now) }
{
    let mut row = Items::new(alloc);
    for var in vars.as_slice() {
        row.push(first_value(var, ins, given).copy(alloc)?)?;
    }
    Ok(row)
}

/// False, 0, the empty text, the empty list. It takes no memory.
fn zero_of(alloc: Global, sort: Sort) -> Value
    ensures { result ≡ zero_of sort }
{
    match sort {
        Sort::Bool => Value::Bool(false),
        Sort::Int => Value::Int(0),
        Sort::Text => Value::Text(Text::new(alloc)),
        Sort::Ints => Value::Ints(Items::new(alloc)),
        Sort::Texts => Value::Texts(Items::new(alloc)),
    }
}

/// What an item makes of a parameter, by the variables of its net, which have these values.
fn made_value(alloc: Global, param: &Param, vars: &VarList, vals: &Row) -> Result<Value, AllocError>
    ensures { IfOk result (λ value. value ≡ made_value vars.now vals.now param.now) }
{
    match var_value(vars, vals, param.name.as_str()) {
        Some(value) => value.copy(alloc),
        None => Ok(zero_of(alloc, param.sort)),
    }
}

/// What an item makes, by the variables of its net, which have these values.
pub fn made_values(
    alloc: Global,
    outs: &ParamList,
    vars: &VarList,
    vals: &Row,
) -> Result<Row, AllocError>
    ensures { IfOk result (λ row. row ≡ map (made_value vars.now vals.now) outs.now) }
{
    let mut row = Items::new(alloc);
    for param in outs.as_slice() {
        row.push(made_value(alloc, param, vars, vals)?)?;
    }
    Ok(row)
}
