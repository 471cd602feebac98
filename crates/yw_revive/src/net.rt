// A net, made of its row and of the rows of its tokens.
ghost use Rattle.std.specs.Prelude.{◌≡◌, ◌≤◌, position, length, IfOk, MatchOption};
ghost use Rattle.std.specs.Str.{bytes_eq};
ghost use Rattle.yw_library.specs.Holdings.{IsKept, state_of};
ghost use Rattle.yw_revive.specs.NetRead.{IsFoundNet, IsReadNet};
ghost use Rattle.yw_spec.specs.declared.spec.Net.{Net};
ghost use Rattle.yw_state.specs.Map.{get};

use crate::tokens::take_tokens;
use std::alloc::{AllocError, Global};
use yw_base::{Name, Row};
use yw_library::Library;
use yw_spec::{Net, Spec};
use yw_state::Marks;
use yw_states::{NetRow, TokenRow};
use yw_tree::NetState;

// The number of the net of this name, or `None` where the specification has no such net.
fn net_number(spec: &Spec, name: &Name) -> Option<usize>
    ensures { result ≡ position (λ (n : Net). bytes_eq n.name name.now) spec.now.nets }
{
    spec.nets
        .as_slice()
        .iter()
        .position(|net| net.name.as_str() == name.as_str())
}

/// A net by its number in its specification, which has its own number.
#[derive(Drop)]
pub struct FoundNet<'a> {
    /// The specification's number in the library.
    pub spec: usize,
    /// The net's number in its specification.
    pub number: usize,
    /// The net.
    pub net: &'a Net,
}

// The net of this name of the specification of this name, or `None` where there is none.
fn find_net<'a>(library: &'a Library, spec: &Name, net: &Name) -> Option<FoundNet<'a>>
    ensures { IsFoundNet library.now spec.now net.now result }
{
    let (loaded, place) = library.spec(spec)?;
    let number = net_number(loaded, net)?;
    let there = loaded.nets.get(number)?;
    Some(FoundNet {
        spec: place,
        number,
        net: there,
    })
}

/// The net of which this is the row, with the tokens that the rows from this one on say, and the number of the
/// first row that isn't of it. No item stands in it. `None` comes only where no net that stands in a state of these
/// specifications has this row: none is loaded of this name, or it has no net of this name. An `Err` says that no
/// memory was left.
pub fn read_net(
    alloc: Global,
    library: &Library,
    row: NetRow,
    tokens: &[TokenRow],
    from: usize,
) -> Result<Option<(NetState, usize)>, AllocError>
    requires { from ≤ length tokens.now }
    ensures { IfOk result (IsReadNet library.now row tokens.now from) }
{
    let Some(found) = find_net(library, &row.spec, &row.net) else {
        return Ok(None);
    };
    let (marks, next) = take_tokens(alloc, &row.ident, found.net.places.as_slice(), tokens, from)?;
    let tasks = found.net.tasks.len();
    let net = NetState::empty(alloc, found.spec, found.number, marks, row.values, tasks)?;
    Ok(Some((net, next)))
}
