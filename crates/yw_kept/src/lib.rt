//! What isn't removed stays: the partner of the law of `yw_state` that what is removed is gone. The law is the contract of a function that does nothing.
#![tactic(auto)]

ghost use Rattle.std.specs.Prelude.{◌≡◌, true, false};
ghost use Rattle.yw_kept.specs.Kept.{is_done_at, may_remove};
ghost use Rattle.yw_state.specs.Events.{after};
ghost use Rattle.yw_state.specs.Gone.{removes};
ghost use Rattle.yw_state.specs.Identity.{Ident};
ghost use Rattle.yw_state.specs.Map.{get};
ghost use Rattle.yw_state.specs.State.{State};
ghost use Rattle.yw_state.specs.Texts.{Said};
ghost use Rattle.yw_state.specs.declared.event.Event.{Event};

/// Behind an event that may remove something, each identity has what it had, but for those that are removed and those at which the event is done: the net
/// that is left, the item whose net is at its end, the run, and the item or the case that a primitive of the run suspends, continues, restarts or completes.
pub fn others_stay()
    ensures { (s : State) (e : Event) (said : Said) (k : Ident) → may_remove e ≡ true → removes s e k ≡ false → is_done_at e k ≡ false → get (after s e said).sites k ≡ get s.sites k }
{}
