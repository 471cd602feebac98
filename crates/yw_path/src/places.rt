// The tasks upstream of each place.
ghost use Rattle.std.specs.Prelude.{◌≡◌, ◌<◌, ◌≤◌, ℕ, [], All, Contains, IfOk, get_or, length};
ghost use Rattle.yw_path.specs.Bits.{words_for};
ghost use Rattle.yw_path.specs.Places.{HasRow, HaveRows, IsUnion};
ghost use Rattle.yw_path.specs.Rows.{AreRows};

use crate::bits::BitRow;
use std::alloc::{AllocError, Global};
use yw_spec::IndexList;

/// What is in a row of one of these tasks or more.
fn union_of(
    alloc: Global,
    count: usize,
    rows: &[BitRow],
    tasks: &[usize],
) -> Result<BitRow, AllocError>
    requires tasks { All (λ t. t < length rows.now) tasks.now }
    requires width { All (λ t. length (get_or rows.now t []) ≡ words_for count) tasks.now }
    ensures { IfOk result (IsUnion count (Contains tasks.now) rows.now) }
{
    let mut row = BitRow::empty(alloc, count)?;
    for t in tasks {
        row.join(&rows[*t]);
    }
    Ok(row)
}

/// The number of a row of all that is upstream of a place, to which these tasks lead: the row of the task, where it is one, and
/// else a row more.
fn row_number(
    alloc: Global,
    count: usize,
    rows: &mut Vec<BitRow>,
    tasks: &[usize],
) -> Result<usize, AllocError>
    requires tasks { All (λ t. t < length rows.old.items) tasks.now }
    requires width { All (λ t. length (get_or rows.old.items t []) ≡ words_for count) tasks.now }
    ensures { IfOk result (HasRow tasks.now rows.old.items rows.new.items) }
{
    if let [t] = tasks {
        return Ok(*t);
    }
    let row = union_of(alloc, count, rows, tasks)?;
    rows.push(row)?;
    Ok(rows.len() - 1)
}

/// For each place the number of a row of all that is upstream of it. Rows are added behind those of the tasks, which stay.
pub fn row_numbers(
    alloc: Global,
    count: usize,
    rows: &mut Vec<BitRow>,
    into: &[IndexList],
) -> Result<Vec<usize>, AllocError>
    requires rows { AreRows count rows.old.items }
    requires into { (c t : ℕ) → Contains (get_or into.now c []) t → t < count }
    ensures { IfOk result (λ v. HaveRows (length into.now) into.now rows.old.items rows.new.items v.items) }
{
    let mut numbers = Vec::new(alloc);
    for tasks in into {
        numbers.push(row_number(alloc, count, rows, tasks.as_slice())?)?;
    }
    Ok(numbers)
}
