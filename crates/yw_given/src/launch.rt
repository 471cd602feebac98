// What a case begins with.
ghost use Rattle.std.specs.Prelude.{◌≡◌, IfOk};
ghost use Rattle.std.specs.Option.{option_copied, option_map};
ghost use Rattle.yw_given.specs.Found.{AreFirst, Finds, comes_as, is_given_as};
ghost use Rattle.yw_state.specs.Given.{first_failing, is_wanted, launch_value, launch_values, unwanted};

use crate::least::lesser;
use crate::numbers::{Numbers, found_in, given_under, number_given, number_vars};
use crate::sorts::{copy_as_sort, is_of_sort};
use std::alloc::{AllocError, Global};
use yw_base::{Items, Row, Text, Value};
use yw_spec::{Var, VarList};
use yw_state::{Given, GivenList};

/// A variable into which a value comes has this name, and the value is of its sort.
fn is_wanted(vars: &[Var], numbers: &Numbers, given: &Given) -> bool
    requires first { AreFirst vars.now }
    requires found { Finds comes_as vars.now numbers.now }
    ensures { result ≡ is_wanted vars.now given.now }
{
    match found_in(vars, numbers, given.name.as_str()) {
        Some(var) => is_of_sort(var.sort, given.value.as_ref()),
        None => false,
    }
}

/// The first name in byte order whose value isn't wanted.
fn first_unwanted<'a>(vars: &[Var], numbers: &Numbers, given: &'a [Given]) -> Option<&'a str>
    requires first { AreFirst vars.now }
    requires found { Finds comes_as vars.now numbers.now }
    ensures { option_copied result ≡ first_failing (is_wanted vars.now) given.now }
{
    let mut least = None;
    for i in (0..given.len()).rev() {
        let one = &given[i];
        if !is_wanted(vars, numbers, one) {
            least = Some(lesser(one.name.as_str(), least));
        }
    }
    least
}

/// Of the values that are given for a net's variables, the first name in byte order that no variable into which a value comes has, or whose
/// value is of another sort or past the limits of values. It is `None` where each is wanted. Each variable is the first of its name.
///
/// The names of the variables are put into a search tree once, and each value is looked up there, so it takes time as the number of values
/// times the logarithm of that of the variables. An `Err` says that no memory was left.
pub fn unwanted(
    alloc: Global,
    vars: &VarList,
    given: &GivenList,
) -> Result<Option<Text>, AllocError>
    requires { AreFirst vars.now }
    ensures { IfOk result (λ name. name ≡ unwanted vars.now given.now) }
{
    let numbers = number_vars(alloc, vars.as_slice())?;
    match first_unwanted(vars.as_slice(), &numbers, given.as_slice()) {
        Some(name) => Ok(Some(Text::copy_of(alloc, name)?)),
        None => Ok(None),
    }
}

/// What a variable has as the case begins.
fn launch_value(
    alloc: Global,
    given: &[Given],
    numbers: &Numbers,
    var: &Var,
) -> Result<Value, AllocError>
    requires { Finds is_given_as given.now numbers.now }
    ensures { IfOk result (λ value. value ≡ launch_value given.now var.now) }
{
    if var.usage.comes_in() {
        let value = given_under(given, numbers, var.name.as_str());
        if let Some(value) = copy_as_sort(alloc, var.sort, value)? {
            return Ok(value);
        }
    }
    var.init.copy(alloc)
}

/// What the variables of a net have as a case begins with it. A variable into which a value comes has the one that is given under its name, if
/// that is of its sort; any other its own first value. It is asked for where `unwanted` found nothing.
///
/// The names of the values are put into a search tree once, and each variable is looked up there, so it takes time as the number of values and
/// variables times the logarithm of that of the values. Values are copied. An `Err` says that no memory was left.
pub fn launch_values(alloc: Global, vars: &VarList, given: &GivenList) -> Result<Row, AllocError>
    ensures { IfOk result (λ row. row ≡ launch_values vars.now given.now) }
{
    let given = given.as_slice();
    let numbers = number_given(alloc, given)?;
    let mut row = Items::new(alloc);
    for var in vars.as_slice() {
        row.push(launch_value(alloc, given, &numbers, var)?)?;
    }
    Ok(row)
}
