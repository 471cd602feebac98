// What an item makes.
ghost use Rattle.std.specs.Prelude.{◌≡◌, IfOk, None, Some, is_none};
ghost use Rattle.std.specs.Option.{option_copied, option_map};
ghost use Rattle.yw_given.specs.Found.{Finds, is_called, is_given_as, is_known};
ghost use Rattle.yw_state.specs.Given.{first_failing, lacking, made_value, made_values, misfit};

use crate::least::lesser;
use crate::numbers::{Numbers, found_in, given_under, number_given, number_params};
use crate::sorts::{copy_as_sort, is_of_sort};
use std::alloc::{AllocError, Global};
use yw_base::{Items, Row, Text, Value};
use yw_spec::{Param, ParamList};
use yw_state::{Given, GivenList};

/// No value of the parameter's sort is given under its name.
fn is_lacking(given: &[Given], numbers: &Numbers, param: &Param) -> bool
    requires { Finds is_given_as given.now numbers.now }
    ensures { result ≡ is_none (made_value given.now param.now) }
{
    let value = given_under(given, numbers, param.name.as_str());
    !is_of_sort(param.sort, value)
}

/// The name of the first parameter that lacks a value of its sort.
fn lacking<'a>(given: &[Given], numbers: &Numbers, params: &'a [Param]) -> Option<&'a str>
    requires { Finds is_given_as given.now numbers.now }
    ensures { option_copied result ≡ lacking params.now given.now }
{
    for param in params {
        if is_lacking(given, numbers, param) {
            return Some(param.name.as_str());
        }
    }
    None
}

/// A parameter has the name of this value.
fn is_known(params: &[Param], numbers: &Numbers, given: &Given) -> bool
    requires { Finds is_called params.now numbers.now }
    ensures { result ≡ is_known params.now given.now }
{
    found_in(params, numbers, given.name.as_str()).is_some()
}

/// The first name in byte order that no parameter has.
fn first_unknown<'a>(params: &[Param], numbers: &Numbers, given: &'a [Given]) -> Option<&'a str>
    requires { Finds is_called params.now numbers.now }
    ensures { option_copied result ≡ first_failing (is_known params.now) given.now }
{
    let mut least = None;
    for i in (0..given.len()).rev() {
        let one = &given[i];
        if !is_known(params, numbers, one) {
            least = Some(lesser(one.name.as_str(), least));
        }
    }
    least
}

/// Of the values that are given for what an item makes, the name of the first parameter that lacks one of its sort within the limits of values,
/// else the first name in byte order that no parameter has. It is `None` where the values fit.
///
/// The names of the values and those of the parameters are put into a search tree once, and each name is looked up in the other, so it takes
/// time as the number of both times a logarithm. An `Err` says that no memory was left.
pub fn misfit(
    alloc: Global,
    params: &ParamList,
    given: &GivenList,
) -> Result<Option<Text>, AllocError>
    ensures { IfOk result (λ name. name ≡ misfit params.now given.now) }
{
    let (params, given) = (params.as_slice(), given.as_slice());
    if let Some(name) = lacking(given, &number_given(alloc, given)?, params) {
        return Ok(Some(Text::copy_of(alloc, name)?));
    }
    match first_unknown(params, &number_params(alloc, params)?, given) {
        Some(name) => Ok(Some(Text::copy_of(alloc, name)?)),
        None => Ok(None),
    }
}

/// The value of a parameter, if one of its sort is given.
fn made_value(
    alloc: Global,
    given: &[Given],
    numbers: &Numbers,
    param: &Param,
) -> Result<Option<Value>, AllocError>
    requires { Finds is_given_as given.now numbers.now }
    ensures { IfOk result (λ value. value ≡ made_value given.now param.now) }
{
    let value = given_under(given, numbers, param.name.as_str());
    copy_as_sort(alloc, param.sort, value)
}

/// The values of all parameters, or `None` where one lacks.
fn row_of(alloc: Global, params: &[Param], given: &[Given]) -> Result<Option<Row>, AllocError>
    ensures { IfOk result (λ row. row ≡ made_values params.now given.now) }
{
    let numbers = number_given(alloc, given)?;
    let mut row = Items::new(alloc);
    for param in params {
        match made_value(alloc, given, &numbers, param)? {
            Some(value) => row.push(value)?,
            None => return Ok(None),
        }
    }
    Ok(Some(row))
}

/// What an item makes of its parameters, where `misfit` found nothing: the values that are given under their names.
///
/// The names of the values are put into a search tree once, and each parameter is looked up there, so it takes time as the number of values and
/// parameters times the logarithm of that of the values. Values are copied. An `Err` says that no memory was left.
pub fn made_values(alloc: Global, params: &ParamList, given: &GivenList) -> Result<Row, AllocError>
    requires { misfit params.now given.now ≡ None }
    ensures { IfOk result (λ row. made_values params.now given.now ≡ Some row) }
{
    match row_of(alloc, params.as_slice(), given.as_slice())? {
        Some(row) => Ok(row),
        None => unreachable!(),
    }
}
