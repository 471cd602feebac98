// Copies of what rows have.
ghost use Rattle.std.specs.Prelude.{◌≡◌, IfOk};

use std::alloc::AllocError;
use yw_base::Name;
use yw_spec::Place;

/// A copy of who started an item. An `Err` says that no memory was left.
pub fn copy_of_who(who: &Option<Name>) -> Result<Option<Name>, AllocError>
    ensures { IfOk result (λ copy. copy ≡ who.now) }
{
    match who {
        Some(name) => Ok(Some(name.copy()?)),
        None => Ok(None),
    }
}

/// A copy of a place. An `Err` says that no memory was left.
pub fn copy_of_place(place: &Place) -> Result<Place, AllocError>
    ensures { IfOk result (λ copy. copy ≡ place.now) }
{
    match place {
        Place::Named(name) => Ok(Place::Named(name.copy()?)),
        Place::Between(from, to) => Ok(Place::Between(from.copy()?, to.copy()?)),
    }
}
