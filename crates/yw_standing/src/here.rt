// What stands at an identity, and is said of what is known alone, so that the forest may change.
ghost use Rattle.std.specs.Prelude.{◌≡◌, ◌+◌, ◌==◌, ◌&&◌, None, MatchOption, nat_le};
ghost use Rattle.yw_base.specs.Identity.{number_end};
ghost use Rattle.yw_standing.specs.Here.{IsNetKnown};
ghost use Rattle.yw_library.specs.Held.{IsHeld};
ghost use Rattle.yw_state.specs.Joins.{at_output};
ghost use Rattle.yw_state.specs.State.{State, net_part};

use yw_base::{Ident, NUMBER_END};
use yw_enabled::is_at_output;
use yw_known::{Known, KnownNet, net_here};
use yw_tree::Forest;

/// So many numbers are drawn from `first` on, which is the next.
pub fn draws(next: u64, first: u64, count: u64) -> bool
    ensures { result ≡ (first == next && nat_le (first + count) number_end) }
{
    first == next && first <= NUMBER_END && count <= NUMBER_END - first
}

/// The net that stands at an identity, by what is known; `None` exactly where none stands there. It takes no memory.
pub fn known_net<'a>(known: &'a Known, forest: &Forest, at: &Ident) -> Option<KnownNet<'a>>
    ensures { (s : State) → IsHeld known.now forest.now s
        → MatchOption result (net_part s at.now ≡ None) (IsNetKnown known.now forest.now s at.now) }
{
    // No work is done here: these say that it is an identity, and that names lead to specifications.
    let _ = at.numbers();
    known.are_named();
    let state = forest.net(at)?;
    known.net(state.spec, state.net)
}

/// A net stands at an identity that is at its end. It takes no memory.
pub fn net_at_output(known: &Known, forest: &Forest, at: &Ident) -> bool
    ensures { (s : State) → IsHeld known.now forest.now s → result ≡ at_output s at.now }
{
    match net_here(known, forest, at) {
        Some(here) => is_at_output(here.net, here.state),
        None => false,
    }
}
