// Which places a split chooses.
ghost use Rattle.std.specs.Prelude.{◌≡◌, ◌==◌, ◌&&◌, IfOk, filter, find, option_map};
ghost use Rattle.std.specs.List.{list_any};
ghost use Rattle.yw_mark.specs.Splits.{first_place, first_to, is_default, is_place, is_reached, is_taken};
ghost use Rattle.yw_spec.specs.declared.task.Branch.{Branch};
ghost use Rattle.yw_state.specs.Passing.{is_true, split_places};

use std::alloc::{AllocError, Global};
use yw_base::{Gate, Items};
use yw_expr::{Values, truth_over};
use yw_spec::{Branch, IndexList, Task};

/// The branch has a condition, and it is true over these values.
fn is_true<V: Values>(branch: &Branch, values: &V) -> bool
    ensures { result ≡ is_true (V.values values.now) branch.now }
{
    match &branch.when {
        None => false,
        Some(when) => truth_over(when, values).unwrap_or(false),
    }
}

/// Where the first true branch leads.
fn first_true<V: Values>(branches: &[Branch], values: &V) -> Option<usize>
    ensures { result ≡ first_to (is_true (V.values values.now)) branches.now }
{
    branches
        .iter()
        .find(|branch| is_true(branch, values))
        .map(|branch| branch.to)
}

/// Where the default leads.
fn first_default(branches: &[Branch]) -> Option<usize>
    ensures { result ≡ first_to is_default branches.now }
{
    branches
        .iter()
        .find(|branch| branch.when.is_none())
        .map(|branch| branch.to)
}

/// Where the first true branch leads, or else the default.
fn first_place<V: Values>(branches: &[Branch], values: &V) -> Option<usize>
    ensures { result ≡ first_place branches.now (V.values values.now) }
{
    first_true(branches, values).or_else(|| first_default(branches))
}

/// Some branch is true.
fn is_any_true<V: Values>(branches: &[Branch], values: &V) -> bool
    ensures { result ≡ list_any (is_true (V.values values.now)) branches.now }
{
    branches.iter().any(|branch| is_true(branch, values))
}

/// The branch is taken, where this says whether some branch is true.
fn is_taken<V: Values>(branch: &Branch, values: &V, some_true: bool) -> bool
    ensures { result ≡ is_taken (V.values values.now) some_true branch.now }
{
    if some_true {
        is_true(branch, values)
    } else {
        branch.when.is_none()
    }
}

/// A branch that is taken leads to the place, where `some_true` says whether some branch is true.
fn is_reached<V: Values>(branches: &[Branch], values: &V, some_true: bool, c: usize) -> bool
    requires { some_true ≡ list_any (is_true (V.values values.now)) branches.now }
    ensures { result ≡ is_reached branches.now (V.values values.now) c }
{
    branches.iter().any(|branch| c == branch.to && is_taken(branch, values, some_true))
}

/// The places of an XOR-split.
fn first_of<V: Values>(alloc: Global, task: &Task, values: &V) -> Result<Vec<usize>, AllocError>
    ensures { IfOk result (λ v. v.items ≡ filter (is_place (first_place task.now.branch (V.values values.now))) task.now.after) }
{
    let Some(first) = first_place(task.branch.as_slice(), values) else {
        return Ok(Vec::new(alloc));
    };
    task.after
        .as_slice()
        .iter()
        .copied()
        .filter(|c| *c == first)
        .collect(alloc)
}

/// The places of an OR-split.
fn reached<V: Values>(alloc: Global, task: &Task, values: &V) -> Result<Vec<usize>, AllocError>
    ensures { IfOk result (λ v. v.items ≡ filter (is_reached task.now.branch (V.values values.now)) task.now.after) }
{
    let branches = task.branch.as_slice();
    let some_true = is_any_true(branches, values);
    task.after
        .as_slice()
        .iter()
        .copied()
        .filter(|c| is_reached(branches, values, some_true, *c))
        .collect(alloc)
}

/// The places to which a split brings a token each, in flow order: all places behind an AND-split, that of the first true branch behind an XOR-split, those of
/// all true ones behind an OR-split; where none is true, that of the default. A condition without a value counts as false. The
/// answer is all memory that it takes; an `Err` says that it wasn't there. The branches with a default are after the YAWL User Manual.
pub fn split_places<V: Values>(
    alloc: Global,
    task: &Task,
    values: &V,
) -> Result<IndexList, AllocError>
    ensures { IfOk result (λ places. places ≡ split_places task.now (V.values values.now)) }
{
    let places = match task.split {
        Gate::And => Vec::from_slice(alloc, task.after.as_slice())?,
        Gate::Xor => first_of(alloc, task, values)?,
        Gate::Or => reached(alloc, task, values)?,
    };
    Ok(Items::from_vec(places))
}
