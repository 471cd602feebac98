// The net at an identity.
ghost use Rattle.std.specs.Option.{option_copied};
ghost use Rattle.std.specs.Prelude.{◌≡◌, IfSome};
ghost use Rattle.yw_library.specs.Held.{IsHeld};
ghost use Rattle.yw_library.specs.Holdings.{Holdings};
ghost use Rattle.yw_state.specs.Identity as ids;
ghost use Rattle.yw_state.specs.State.{State};
ghost use Rattle.yw_tree.specs.Places as places;
ghost use Rattle.yw_tree.specs.Ways.{net_in};
ghost use Rattle.yw_tree.specs.declared.Forest as forests;
ghost use Rattle.yw_tree.specs.declared.Node.{out-Node};
ghost use Rattle.yw_walk.specs.Finds.{IsAtEnd, IsItemAt, IsKnownHere, StandsAt};

use yw_base::Ident;
use yw_enabled::is_at_output;
use yw_known::{ItemHere, Known, NetHere};
use yw_tree::{Forest, NetState};

/// The net of an item.
fn net_of<'a>(item: &ItemHere<'a>) -> Option<&'a NetState>
    ensures { option_copied result ≡ net_in (out-Node item.now.item.now).net }
{
    match &item.item.net {
        Some(net) => Some(net),
        None => None,
    }
}

/// What the forest has of the net at an identity, where this is the item there.
fn state_at<'a>(forest: &'a Forest, at: &Ident, item: &Option<ItemHere<'a>>) -> Option<&'a NetState>
    ensures { (known : Holdings) (s : State) → IsHeld known forest.now s → IsItemAt known forest.now at.now item.now
        → option_copied result ≡ places.net_at forest.now at.now }
{
    match item {
        Some(item) => net_of(item),
        None => forest.net(at),
    }
}

/// The net of the case, item or run at an identity, where this is the item there. That the net is within and the upstream its own is said here
/// without a state.
pub fn net_at<'a>(
    known: &'a Known,
    forest: &'a Forest,
    at: &Ident,
    item: &Option<ItemHere<'a>>,
) -> Option<NetHere<'a>>
    ensures here { IsItemAt known.now forest.now at.now item.now → StandsAt known.now forest.now at.now result }
    ensures known { IfSome result IsKnownHere }
{
    let _ = at.numbers();
    known.are_named();
    let state = state_at(forest, at, item)?;
    let found = known.net(state.spec, state.net)?;
    Some(NetHere {
        state,
        net: found.net,
        up: found.up,
        spec: found.spec,
    })
}

/// A net stands at an identity, and is at its end.
pub fn is_at_end(here: &Option<NetHere<'_>>) -> bool
    ensures { (known : Holdings) (f : forests.Forest) (at : ids.Ident) → StandsAt known f at here.now → IsAtEnd known f at result }
{
    match here {
        Some(here) => is_at_output(here.net, here.state),
        None => false,
    }
}
