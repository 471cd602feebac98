// How tasks lead to each other through one place.
ghost use Rattle.std.specs.Prelude.{◌≡◌, ◌<◌, ◌/◌, ℕ, [], All, Contains, IfOk, OnOk, get_or, length, map, replicate};
ghost use Rattle.yw_path.specs.Bits.{Has, words_for};
ghost use Rattle.yw_path.specs.Direct.{AreDirect, AreInto, Feeds, HasItsPlaces, IsDirectRow, PushesEach};
ghost use Rattle.yw_spec.specs.Net.{places_before};
ghost use Rattle.yw_spec.specs.declared.task.Task.{Task};

use crate::bits::BitRow;
use std::alloc::{AllocError, Global};
use yw_base::Items;
use yw_spec::{IndexList, Net};

/// So many empty lists.
fn empty_lists(alloc: Global, count: usize) -> Result<Vec<IndexList>, AllocError>
    ensures { IfOk result (λ v. v.items ≡ replicate count []) }
{
    let mut lists = Vec::new(alloc);
    for _ in 0..count {
        lists.push(Items::new(alloc))?;
    }
    Ok(lists)
}

/// Adds a task to the lists of these places.
fn push_each(into: &mut Vec<IndexList>, places: &[usize], t: usize) -> Result<(), AllocError>
    requires { All (λ c. c < length into.old.items) places.now }
    ensures { OnOk result (PushesEach (Contains places.now) t into.old.items into.new.items) }
{
    for c in places {
        into[*c].push(t)?;
    }
    Ok(())
}

/// For each place the tasks from which flows lead to it.
pub fn tasks_into(alloc: Global, net: &Net) -> Result<Vec<IndexList>, AllocError>
    requires { HasItsPlaces net.now }
    ensures { IfOk result (λ v. AreInto net.now (length net.now.tasks) v.items) }
{
    let mut into = empty_lists(alloc, net.places.as_slice().len())?;
    for (t, task) in net.tasks.as_slice().iter().enumerate() {
        push_each(&mut into, task.after.as_slice(), t)?;
    }
    Ok(into)
}

/// The tasks that feed task t, and t, where flows lead to t from these places.
fn direct_row(
    alloc: Global,
    count: usize,
    t: usize,
    places: &[usize],
    into: &[IndexList],
) -> Result<BitRow, AllocError>
    requires task { t < count }
    requires places { All (λ c. c < length into.now) places.now }
    requires tasks { (c u : ℕ) → Contains (get_or into.now c []) u → u < count }
    ensures { IfOk result (λ row. IsDirectRow count t (Contains places.now) into.now row) }
{
    let mut row = BitRow::empty(alloc, count)?;
    row.insert(t);
    for c in places {
        row.insert_all(into[*c].as_slice());
    }
    Ok(row)
}

/// For each task those that feed it, and itself.
pub fn direct_rows(alloc: Global, net: &Net, into: &[IndexList]) -> Result<Vec<BitRow>, AllocError>
    requires places { HasItsPlaces net.now }
    requires into { AreInto net.now (length net.now.tasks) into.now }
    ensures { IfOk result (λ v. AreDirect net.now v.items) }
{
    let tasks = net.tasks.as_slice();
    let mut rows = Vec::new(alloc);
    for (t, task) in tasks.iter().enumerate() {
        rows.push(direct_row(alloc, tasks.len(), t, task.before.as_slice(), into)?)?;
    }
    Ok(rows)
}
