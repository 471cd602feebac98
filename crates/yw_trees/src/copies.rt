// Copies of the places of trees.
ghost use Rattle.std.specs.Prelude.{◌≡◌, IfOk};

use std::alloc::AllocError;
use yw_base::Name;
use yw_state::TreePlace;

/// A copy of a name, where there is one. An `Err` says that no memory was left.
fn copy_of_some(name: &Option<Name>) -> Result<Option<Name>, AllocError>
    ensures { IfOk result (λ copy. copy ≡ name.now) }
{
    match name {
        Some(name) => Ok(Some(name.copy()?)),
        None => Ok(None),
    }
}

/// A copy of a tree's place. An `Err` says that no memory was left.
pub fn copy_of_place(place: &TreePlace) -> Result<TreePlace, AllocError>
    ensures { IfOk result (λ copy. copy ≡ place.now) }
{
    Ok(TreePlace {
        spec: place.spec.copy()?,
        net: copy_of_some(&place.net)?,
        task: copy_of_some(&place.task)?,
        kind: place.kind,
    })
}
