// What sort an expression is to have that a variable becomes.
ghost use Rattle.std.specs.Prelude.{◌≡◌};
ghost use Rattle.yw_check_sorts.specs.Wanted.{sort_named, wanted_by};

use crate::spelling::WantedSort;
use yw_base::Sort;
use yw_expr::Bindings;

/// The sort of the values of a name, or `None` where the name doesn't stand in the layer.
fn sort_named(layer: &Bindings, name: &str) -> Option<Sort>
    ensures { result ≡ sort_named layer.now name.now }
{
    let place = layer.place_of(name)?;
    layer.sort_at(place)
}

/// What sort an expression is to have that a variable of the layer becomes: any, where there is no such
/// variable.
pub fn wanted_for(layer: &Bindings, name: &str) -> WantedSort
    ensures { result ≡ wanted_by (sort_named layer.now name.now) }
{
    match sort_named(layer, name) {
        Some(sort) => WantedSort::Exactly(sort),
        None => WantedSort::Any,
    }
}
