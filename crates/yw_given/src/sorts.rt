// Values of a sort.
ghost use Rattle.std.specs.Prelude.{◌≡◌, IfOk, is_some};
ghost use Rattle.std.specs.Option.{option_copied};
ghost use Rattle.yw_state.specs.Allowed.{element_param};
ghost use Rattle.yw_state.specs.Given.{as_sort, element_value};

use std::alloc::{AllocError, Global};
use yw_base::{Sort, Value};
use yw_spec::{Param, Task};

/// What is given as a value of this sort, if it is one and within the limits: a text of at most 4,096 bytes, a list of at most 1,000 elements.
/// The empty list is of both sorts of lists. The value is moved; it takes no memory.
pub fn as_sort(alloc: Global, sort: Sort, value: Option<Value>) -> Option<Value>
    ensures { result ≡ as_sort sort value }
{
    let value = value?.meant(alloc, sort);
    if value.has_sort(sort) && value.is_small() {
        Some(value)
    } else {
        None
    }
}

/// What is given is a value of this sort and within the limits. It takes no memory.
pub fn is_of_sort(sort: Sort, value: Option<&Value>) -> bool
    ensures { result ≡ is_some (as_sort sort (option_copied value.entry)) }
{
    match value {
        Some(value) => value.fits(sort) && value.is_small(),
        None => false,
    }
}

/// A copy of what is given, as a value of this sort. An `Err` says that no memory was left.
pub fn copy_as_sort(
    alloc: Global,
    sort: Sort,
    value: Option<&Value>,
) -> Result<Option<Value>, AllocError>
    ensures { IfOk result (λ copy. copy ≡ as_sort sort (option_copied value.entry)) }
{
    match value {
        Some(value) => Ok(as_sort(alloc, sort, Some(value.copy(alloc)?))),
        None => Ok(None),
    }
}

/// The parameter that is given an element.
fn element_param(task: &Task) -> Option<&Param>
    ensures { option_copied result ≡ element_param task.now }
{
    match &task.many {
        Some(many) => task.ins.get(many.item),
        None => None,
    }
}

/// What is given as the element that an item of the task is given. It is `None` where the items don't run over a list, or what is given is no
/// value of the element's sort. The value is moved; it takes no memory.
pub fn element_value(alloc: Global, task: &Task, value: Option<Value>) -> Option<Value>
    ensures { result ≡ element_value task.now value }
{
    match element_param(task) {
        Some(param) => as_sort(alloc, param.sort, value),
        None => None,
    }
}
