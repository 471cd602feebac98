// Names with numbers.
ghost use Rattle.std.specs.Prelude.{◌≡◌, IfOk, find, option_and_then, slice_get};
ghost use Rattle.std.specs.Option.{option_copied};
ghost use Rattle.yw_given.specs.Found.{Finds, comes_as, is_called, is_given_as, number_of};
ghost use Rattle.yw_state.specs.Given.{given_under};

use std::alloc::{AllocError, Global};
use std::collections::BTreeMap;
use yw_base::Value;
use yw_spec::{Param, Var};
use yw_state::Given;

/// Names with numbers. A name is put and found in time that grows with the logarithm of how many there are, whatever the names are.
#[derive(Drop)]
pub struct Numbers {
    table: BTreeMap<String, usize>,
}

impl Numbers {
    ghost use Rattle.std.specs.Prelude.{◌≡◌, ℕ, List, None, OnOk};
    ghost use Rattle.yw_given.specs.Found.{Puts, number_of};

    /// No name has a number. It takes no memory.
    fn new(alloc: Global) -> Numbers
        ensures { (name : List ℕ) → number_of result name ≡ None }
    {
        Numbers {
            table: BTreeMap::new(alloc),
        }
    }

    /// The name has this number from now on. An `Err` says that no memory was left.
    fn put(&mut self, alloc: Global, name: &str, number: usize) -> Result<(), AllocError>
        ensures { OnOk result (Puts name.now number self.old self.new) }
    {
        let key = String::from_str(alloc, name)?;
        self.table.insert(key, number)?;
        Ok(())
    }

    /// The number that a name has. It takes no memory.
    fn get(&self, name: &str) -> Option<usize>
        ensures { result ≡ number_of self.now name.now }
    {
        self.table.get(name).copied()
    }
}

/// The numbers of given values by their names; of values of one name the first has it. It goes over the values once, and copies each name. An
/// `Err` says that no memory was left.
pub fn number_given(alloc: Global, given: &[Given]) -> Result<Numbers, AllocError>
    ensures { IfOk result (Finds is_given_as given.now) }
{
    let mut numbers = Numbers::new(alloc);
    for i in (0..given.len()).rev() {
        numbers.put(alloc, given[i].name.as_str(), i)?;
    }
    Ok(numbers)
}

/// The numbers of the variables into which values come. An `Err` says that no memory was left.
pub fn number_vars(alloc: Global, vars: &[Var]) -> Result<Numbers, AllocError>
    ensures { IfOk result (Finds comes_as vars.now) }
{
    let mut numbers = Numbers::new(alloc);
    for i in (0..vars.len()).rev() {
        let var = &vars[i];
        if var.usage.comes_in() {
            numbers.put(alloc, var.name.as_str(), i)?;
        }
    }
    Ok(numbers)
}

/// The numbers of parameters. An `Err` says that no memory was left.
pub fn number_params(alloc: Global, params: &[Param]) -> Result<Numbers, AllocError>
    ensures { IfOk result (Finds is_called params.now) }
{
    let mut numbers = Numbers::new(alloc);
    for i in (0..params.len()).rev() {
        numbers.put(alloc, params[i].name.as_str(), i)?;
    }
    Ok(numbers)
}

/// The one of a list that has a name, by their numbers.
pub fn found_in<'a, T>(items: &'a [T], numbers: &Numbers, name: &str) -> Option<&'a T>
    ensures { option_copied result ≡ option_and_then (slice_get items.now) (number_of numbers.now name.now) }
{
    match numbers.get(name) {
        Some(number) => items.get(number),
        None => None,
    }
}

/// The value that is given under a name.
pub fn given_under<'a>(given: &'a [Given], numbers: &Numbers, name: &str) -> Option<&'a Value>
    requires { Finds is_given_as given.now numbers.now }
    ensures { option_copied result ≡ given_under given.now name.now }
{
    match found_in(given, numbers, name) {
        Some(one) => one.value.as_ref(),
        None => None,
    }
}
