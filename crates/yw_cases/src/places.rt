// Places of a net by their names.
ghost use Rattle.std.specs.Prelude.{◌≡◌, nat_eq};
ghost use Rattle.std.specs.Cmp.Lexicographic.{pointwise};
ghost use Rattle.yw_cases.specs.Places.{ArePlacesApart};
ghost use Rattle.yw_state.specs.Allowed.{place_numbers};
ghost use Rattle.yw_state.specs.Nets.{place_number, same_place};
ghost use Rattle.yw_state.specs.Options.{is_some_and};

use yw_spec::{Net, Place};

/// They are the same place.
fn same_place(a: &Place, b: &Place) -> bool
    ensures { result ≡ same_place a.now b.now }
{
    match (a, b) {
        (Place::Named(a), Place::Named(b)) => a.as_str() == b.as_str(),
        (Place::Between(a, b), Place::Between(c, d)) => {
            a.as_str() == c.as_str() && b.as_str() == d.as_str()
        }
        _ => false,
    }
}

/// The number of a place of a net, or `None` where it has no such place. It takes no memory.
pub fn place_number(net: &Net, place: &Place) -> Option<usize>
    ensures { result ≡ place_number net.now place.now }
{
    let places = net.places.as_slice();
    places.iter().position(|other| same_place(place, other))
}

/// The place has this number in the net: the place with the number is this one. No other place is looked at.
fn is_numbered(net: &Net, place: &Place, number: usize) -> bool
    requires { ArePlacesApart net.now }
    ensures { result ≡ is_some_and (place_number net.now place.now) (λ k. nat_eq k number) }
{
    match net.places.get(number) {
        Some(other) => same_place(place, other),
        None => false,
    }
}

/// These are the numbers of the places, one for one. It takes no memory, and time as there are places to compare.
pub fn are_numbered(net: &Net, places: &[Place], numbers: &[usize]) -> bool
    requires { ArePlacesApart net.now }
    ensures { result ≡ is_some_and (place_numbers net.now places.now) (λ cs. pointwise nat_eq cs numbers.now) }
{
    match places {
        [] => numbers.is_empty(),
        [place, places @ ..] => match numbers {
            [] => false,
            [number, numbers @ ..] => {
                is_numbered(net, place, *number) && are_numbered(net, places, numbers)
            }
        },
    }
}
