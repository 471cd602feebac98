// From steps to paths.
ghost use Rattle.std.specs.Prelude.{◌≡◌, ◌<◌, ℕ, [], OnOk, get_or, length};
ghost use Rattle.yw_path.specs.Bits.{Adds, Has};
ghost use Rattle.yw_path.specs.Rows.{AddsWhere, AreRows, IsClosure, Leads};

use crate::bits::BitRow;
use std::alloc::{AllocError, Global};

/// Adds the numbers of a set to a row that has k.
fn join_if(row: &mut BitRow, k: usize, pivot: &BitRow)
    requires { length pivot.now ≡ length row.old }
    ensures { Adds (λ u. Has row.old k × Has pivot.now u) row.old row.new }
{
    if row.has(k) {
        row.join(pivot);
    }
}

/// Adds the numbers of a set to each row that has k.
fn join_where(rows: &mut Vec<BitRow>, k: usize, pivot: &BitRow)
    requires { (t : ℕ) → t < length rows.old.items → length pivot.now ≡ length (get_or rows.old.items t []) }
    ensures { AddsWhere k (Has pivot.now) rows.old.items rows.new.items }
{
    for t in 0..rows.len() {
        join_if(&mut rows[t], k, pivot);
    }
}

/// Makes rows of steps rows of paths. Each number is in its own row. An `Err` says that no memory was left.
///
/// Each number in turn is joined in as the middle of a path (Warshall, "A Theorem on Boolean Matrices", 1962).
pub fn close(alloc: Global, rows: &mut Vec<BitRow>) -> Result<(), AllocError>
    requires rows { AreRows (length rows.old.items) rows.old.items }
    requires each { (t : ℕ) → t < length rows.old.items → Leads rows.old.items t t }
    ensures { OnOk result (IsClosure rows.old.items rows.new.items) }
{
    for k in 0..rows.len() {
        let pivot = rows[k].copy(alloc)?;
        join_where(rows, k, &pivot);
    }
    Ok(())
}
