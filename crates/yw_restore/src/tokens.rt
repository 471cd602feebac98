// The tokens of a net.
ghost use Rattle.std.specs.Prelude.{◌≡◌, ◌++◌, map, OnOk};
ghost use Rattle.yw_restore.specs.Gathers.{marked};
ghost use Rattle.yw_restore.specs.Lines.{row_of_token};
ghost use Rattle.yw_states.specs.States.{place_rows};

use crate::lines::TokenLine;
use std::alloc::AllocError;
use yw_base::{Ident, Items};
use yw_spec::{Net, Place};
use yw_state::Marks;

// The tokens of a place, if there are any.
fn push_marked<'a>(
    at: &'a Ident,
    place: &'a Place,
    count: u64,
    tokens: &mut Items<TokenLine<'a>>,
) -> Result<(), AllocError>
    ensures { OnOk result (map row_of_token tokens.new ≡ map row_of_token tokens.old
        ++ marked at.now place.now count) }
{
    if count == 0 {
        return Ok(());
    }
    tokens.push(TokenLine { at, place, count })
}

/// The tokens of a net that stands at an identity, in the order of its places. An `Err` says that no memory was left.
pub fn push_tokens<'a>(
    at: &'a Ident,
    net: &'a Net,
    marks: &Marks,
    tokens: &mut Items<TokenLine<'a>>,
) -> Result<(), AllocError>
    ensures { OnOk result (map row_of_token tokens.new ≡ map row_of_token tokens.old
        ++ place_rows at.now net.now.places marks.now) }
{
    let places = net.places.as_slice();
    for (place, count) in places.iter().zip(marks.as_slice()) {
        push_marked(at, place, *count, tokens)?;
    }
    Ok(())
}
