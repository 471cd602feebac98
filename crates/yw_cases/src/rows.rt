// Rows of values that an event has.
ghost use Rattle.std.specs.Prelude.{◌≡◌, ◌&&◌, ◌||◌, IfOk};
ghost use Rattle.std.specs.Cmp.Lexicographic.{pointwise};
ghost use Rattle.std.specs.Str.{bytes_eq};
ghost use Rattle.yw_base.specs.Values.{may_hold};
ghost use Rattle.yw_cases.specs.Rows.{launch_value_fits};
ghost use Rattle.yw_state.specs.Allowed.{launch_fits};
ghost use Rattle.yw_state.specs.Passing.{row_fits};
ghost use Rattle.yw_state.specs.Values.{same_value};

use std::alloc::{AllocError, Global};
use yw_base::{Items, Row, Sort, Text, Value};
use yw_spec::{Param, Var};

/// It is of this sort, and within the limits of values. It takes no memory.
pub fn may_hold(sort: Sort, value: &Value) -> bool
    ensures { result ≡ may_hold sort value.now }
{
    value.has_sort(sort) && value.is_small()
}

/// The texts are the same, one for one.
fn same_texts(a: &[Text], b: &[Text]) -> bool
    ensures { result ≡ pointwise bytes_eq a.now b.now }
{
    match (a, b) {
        ([], []) => true,
        ([x, xs @ ..], [y, ys @ ..]) => x.as_str() == y.as_str() && same_texts(xs, ys),
        _ => false,
    }
}

/// The values are the same.
fn same_value(a: &Value, b: &Value) -> bool
    ensures { result ≡ same_value a.now b.now }
{
    match (a, b) {
        (Value::Bool(a), Value::Bool(b)) => a == b,
        (Value::Int(a), Value::Int(b)) => a == b,
        (Value::Text(a), Value::Text(b)) => a.as_str() == b.as_str(),
        (Value::Ints(a), Value::Ints(b)) => a.as_slice() == b.as_slice(),
        (Value::Texts(a), Value::Texts(b)) => same_texts(a.as_slice(), b.as_slice()),
        _ => false,
    }
}

/// A case may begin with this value of the variable: it is of its sort, and where none comes in it is the variable's own first value.
fn launch_value_fits(var: &Var, value: &Value) -> bool
    ensures { result ≡ launch_value_fits var.now value.now }
{
    may_hold(var.sort, value) && (var.usage.comes_in() || same_value(value, &var.init))
}

/// A case may begin with these values of the variables, one for one. It takes no memory.
pub fn launch_fits(vars: &[Var], values: &[Value]) -> bool
    ensures { result ≡ launch_fits vars.now values.now }
{
    match (vars, values) {
        ([], []) => true,
        ([var, vars @ ..], [value, values @ ..]) => {
            launch_value_fits(var, value) && launch_fits(vars, values)
        }
        _ => false,
    }
}

/// The values are of the parameters' sorts, one for one, and within the limits. It takes no memory.
pub fn row_fits(params: &[Param], values: &[Value]) -> bool
    ensures { result ≡ row_fits params.now values.now }
{
    match (params, values) {
        ([], []) => true,
        ([param, params @ ..], [value, values @ ..]) => {
            may_hold(param.sort, value) && row_fits(params, values)
        }
        _ => false,
    }
}

/// A copy of a row. An `Err` says that no memory was left.
pub fn copy_row(alloc: Global, row: &Row) -> Result<Row, AllocError>
    ensures { IfOk result (λ copy. copy ≡ row.now) }
{
    let mut copy = Items::new(alloc);
    for value in row.as_slice() {
        copy.push(value.copy(alloc)?)?;
    }
    Ok(copy)
}
