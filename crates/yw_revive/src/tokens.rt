// The tokens of a net, from the rows of all nets.
ghost use Rattle.std.specs.Prelude.{◌≡◌, ◌≤◌, drop, length, IfOk};
ghost use Rattle.std.specs.Option.{option_copied};
ghost use Rattle.yw_revive.specs.Taken.{IsTaken, count_of, is_of};
ghost use Rattle.yw_state.specs.Nets.{same_place};

use std::alloc::{AllocError, Global};
use yw_base::{Ident, Items};
use yw_spec::Place;
use yw_state::Marks;
use yw_states::TokenRow;

// They are the same place.
fn same_place(a: &Place, b: &Place) -> bool
    ensures { result ≡ same_place a.now b.now }
{
    match (a, b) {
        (Place::Named(a), Place::Named(b)) => a.as_str() == b.as_str(),
        (Place::Between(a, b), Place::Between(c, d)) => {
            a.as_str() == c.as_str() && b.as_str() == d.as_str()
        }
        _ => false,
    }
}

// The row is of this place of the net at this identity.
fn is_of(at: &Ident, place: &Place, row: &TokenRow) -> bool
    ensures { result ≡ is_of at.now place.now row.now }
{
    row.ident == *at && same_place(&row.place, place)
}

// The tokens on a place of the net at an identity, by the row that comes next.
fn count_of(at: &Ident, place: &Place, row: Option<&TokenRow>) -> u64
    ensures { result ≡ count_of at.now place.now (option_copied row.entry) }
{
    match row {
        Some(row) => {
            if is_of(at, place, row) {
                u64::from(row.count)
            } else {
                0
            }
        }
        None => 0,
    }
}

/// The tokens on the places of the net at an identity, one count for each, by the rows from this one on; and the
/// number of the first row that is of none of them. A row is taken where it is of the place that comes next, and
/// counts some tokens. Rows and tokens are each other's (laws `tokens_have_rows` and `rows_have_tokens`). An `Err`
/// says that no memory was left.
pub fn take_tokens(
    alloc: Global,
    at: &Ident,
    places: &[Place],
    rows: &[TokenRow],
    from: usize,
) -> Result<(Marks, usize), AllocError>
    requires { from ≤ length rows.now }
    ensures { IfOk result (λ found. IsTaken at.now places.now rows.now from found.0 found.1) }
{
    let mut marks = Items::new(alloc);
    let mut next = from;
    for place in places {
        let count = count_of(at, place, rows.get(next));
        marks.push(count)?;
        if count > 0 {
            next += 1;
        }
    }
    Ok((marks, next))
}
