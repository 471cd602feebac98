// The tokens of a net, in order of the texts of their places.
ghost use Rattle.std.specs.Prelude.{IfOk, OnOk, zip};
ghost use Rattle.yw_state.specs.State.{NetAt, State};
ghost use Rattle.yw_shown.specs.Shows.{AddsTokens};
ghost use Rattle.yw_shown.specs.Tokens.{AreMarked, IsCounted, PutsMarked};

use crate::copies::copy_of_place;
use std::alloc::{AllocError, Global};
use std::collections::BTreeMap;
use yw_base::Ident;
use yw_spec::{Net, Place};
use yw_state::{Marks, TokenList, TokenRow};

/// The most tokens of a place, in any state: our own limit.
const MOST_TOKENS: u64 = 1_000_000;

/// Rows by the texts of their places.
type ByText = BTreeMap<String, TokenRow>;

/// The tokens of a place, if there are any. No state has more of them than the limit.
fn put_marked(
    alloc: Global,
    at: &Ident,
    place: &Place,
    count: u64,
    rows: &mut ByText,
) -> Result<(), AllocError>
    ensures { OnOk result (PutsMarked at.now (place.now, count) rows.old.entries rows.new.entries) }
{
    if count == 0 {
        return Ok(());
    }
    let row = TokenRow {
        net: at.copy(alloc)?,
        place: copy_of_place(place)?,
        count: count.min(MOST_TOKENS) as u32,
    };
    rows.insert(place.text(alloc)?, row)?;
    Ok(())
}

/// The marked places of a net, by their texts.
fn marked(alloc: Global, at: &Ident, net: &Net, marks: &Marks) -> Result<ByText, AllocError>
    ensures { IfOk result (λ rows. AreMarked at.now (zip net.now.places marks.now) rows.entries) }
{
    let mut rows = BTreeMap::new(alloc);
    let places = net.places.as_slice();
    for (place, count) in places.iter().zip(marks.as_slice()) {
        put_marked(alloc, at, place, *count, &mut rows)?;
    }
    Ok(rows)
}

/// The tokens of a net that stands at an identity, behind other rows. An `Err` says that no memory was left.
pub fn push_tokens(
    alloc: Global,
    at: &Ident,
    net: &Net,
    marks: &Marks,
    rows: &mut TokenList,
) -> Result<(), AllocError>
    ensures { OnOk result ((s : State) (n : NetAt) → IsCounted s at.now net.now marks.now n → AddsTokens s at.now rows.old rows.new) }
{
    for (_, row) in marked(alloc, at, net, marks)? {
        rows.push(row)?;
    }
    Ok(())
}
