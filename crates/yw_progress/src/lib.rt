//! How many items of a task are done, and what an event changes of it: where it completes an item, one more. The law is the contract of a function
//! that does nothing.
#![tactic(auto)]

ghost use Rattle.std.specs.Prelude.{◌≡◌, false, is_some, true};
ghost use Rattle.yw_progress.specs.Progress.{CountsBehind, goes};
ghost use Rattle.yw_state.specs.Allowed.{Allowed};
ghost use Rattle.yw_state.specs.Events.{after};
ghost use Rattle.yw_state.specs.Identity.{Ident};
ghost use Rattle.yw_state.specs.State.{State, net_part};
ghost use Rattle.yw_state.specs.Texts.{Said};
ghost use Rattle.yw_state.specs.Well.{IsWell};
ghost use Rattle.yw_state.specs.declared.event.Event.{Event};

use yw_state::laws::reads::Reads;

/// In any state that is well, an event that is allowed leaves as many items done of each task of each net, but for one more of the task whose item it
/// completes, where that is done, and for tasks that have no item any more as one of their net exits. Of a net that begins or ends nothing is said, nor
/// of what an event of a rule tree or of an exlet warms.
pub fn counts_behind<R: Reads>()
    ensures { (s : State) (e : Event) (said : Said) (i : Ident) → IsWell R.reader s → Allowed s e said
        → is_some (net_part (after s e said) i) ≡ true → goes e i ≡ false → CountsBehind s (after s e said) e i }
{}
