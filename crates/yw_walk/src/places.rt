// The places that an event names.
ghost use Rattle.std.specs.Prelude.{◌≡◌, IfOk};
ghost use Rattle.yw_mark.specs.Taking.{taken_places};
ghost use Rattle.yw_walk.specs.Places.{places_numbered};

use std::alloc::{AllocError, Global};
use yw_base::Items;
use yw_mark::{Taken, is_marked};
use yw_spec::{Net, Place, PlaceList, Task};
use yw_state::Marks;

/// A copy of a place.
fn copy_of(place: &Place) -> Result<Place, AllocError>
    ensures { IfOk result (λ copy. copy ≡ place.now) }
{
    match place {
        Place::Named(name) => Ok(Place::Named(name.copy()?)),
        Place::Between(from, to) => Ok(Place::Between(from.copy()?, to.copy()?)),
    }
}

/// Copies of the places of a net with these numbers, in this order; a number that no place has names none. An `Err` says that no memory was
/// left.
pub fn places_of(alloc: Global, net: &Net, numbers: &[usize]) -> Result<PlaceList, AllocError>
    ensures { IfOk result (λ places. places ≡ places_numbered net.now numbers.now) }
{
    let mut places = Items::new(alloc);
    for c in numbers {
        if let Some(place) = net.places.get(*c) {
            places.push(copy_of(place)?)?;
        }
    }
    Ok(places)
}

/// The numbers of the places from which a choice of a task's join takes. An `Err` says that no memory was left.
pub fn taken_from(
    alloc: Global,
    task: &Task,
    marks: &Marks,
    taken: Taken,
) -> Result<Vec<usize>, AllocError>
    ensures { IfOk result (λ numbers. numbers.items ≡ taken_places marks.now task.now.before taken) }
{
    let before = task.before.as_slice();
    match taken {
        Taken::All => Vec::from_slice(alloc, before),
        Taken::One(c) => Ok(vec![in alloc; c]?),
        Taken::Marked => before
            .iter()
            .copied()
            .filter(|c| is_marked(marks, *c))
            .collect(alloc),
    }
}
