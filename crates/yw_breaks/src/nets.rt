// The net of a case, and its tasks; and what is tried before its case must be quiet.
ghost use Rattle.std.specs.Prelude.{◌≡◌, ◌<◌, None, IfOk, IfSome, MatchOption, length, slice_get};
ghost use Rattle.yw_breaks.specs.Finds.{FindsNet};
ghost use Rattle.yw_breaks.specs.Nets.{IsTaskNamed, IsWithinHere};
ghost use Rattle.yw_breaks.specs.Tables.{net_front};
ghost use Rattle.yw_library.specs.Held.{IsHeld};
ghost use Rattle.yw_known.specs.Here.{IsNetHere};
ghost use Rattle.yw_state.specs.Nets.{task_number};
ghost use Rattle.yw_state.specs.State.{State, net_part};

use crate::asked::NetAsked;
use crate::persons::roles_of;
use yw_base::{Ident, Name};
use yw_known::{Known, NetHere, task_called};
use yw_spec::Net;
use yw_state::Rule;
use yw_tree::Forest;

/// The net of the case, item or run at an identity, and that its specification is within, whatever the state.
fn net_there<'a>(known: &'a Known, forest: &'a Forest, at: &Ident) -> Option<NetHere<'a>>
    ensures here { (s : State) → IsHeld known.now forest.now s
        → MatchOption result (net_part s at.now ≡ None) (IsNetHere known.now forest.now s at.now) }
    ensures within { IfSome result IsWithinHere }
{
    let _ = at.numbers();
    known.are_named();
    let state = forest.net(at)?;
    let found = known.net(state.spec, state.net)?;
    Some(NetHere {
        state,
        net: found.net,
        up: found.up,
        spec: found.spec,
    })
}

/// The net that a command of a person names, with the person's roles; its specification is within, whatever the state. An `Err` has the first rule
/// that an entry or an addition breaks, of those that are tried before the case must be quiet: `UnknownPerson` where nobody has this name, and else
/// `UnknownCase` where no net stands at the identity. It takes no memory.
pub fn net_front<'a>(
    known: &'a Known,
    forest: &'a Forest,
    who: &Name,
    at: &Ident,
) -> Result<NetAsked<'a>, Rule>
    ensures finds { FindsNet known.now forest.now (λ s. net_front s who.now at.now) who.now at.now result }
    ensures within { IfOk result (λ asked. IsWithinHere asked.here) }
{
    let Some(roles) = roles_of(known, who) else {
        return Err(Rule::UnknownPerson);
    };
    match net_there(known, forest, at) {
        Some(here) => Ok(NetAsked { roles, here }),
        None => Err(Rule::UnknownCase),
    }
}

/// The number of the task with this name in a net.
pub fn task_named(net: &Net, name: &Name) -> Option<usize>
    ensures none { result ≡ None → task_number net.now name.now ≡ None }
    ensures some { IfSome result (IsTaskNamed net.now name.now) }
{
    task_called(net, name)
}
