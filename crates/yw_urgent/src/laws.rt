//! What is so of what is urgent. The law is the contract of a function that does nothing.
ghost use Rattle.std.specs.Prelude.{◌≡◌};
ghost use Rattle.yw_state.specs.Identity.{Ident};
ghost use Rattle.yw_state.specs.State.{State};
ghost use Rattle.yw_state.specs.Well.{IsWell};
ghost use Rattle.yw_state.specs.declared.event.Event.{Event};
ghost use Rattle.yw_urgent.specs.Urgent.{IsUrgent};

use yw_state::laws::reads::Reads;

/// In a state that is well, of what is urgent at an identity one event comes, and no other.
pub fn one_event_comes<R: Reads>()
    ensures { (s : State) (j : Ident) (e f : Event) → IsWell R.reader s → IsUrgent s j e → IsUrgent s j f → e ≡ f }
{}
