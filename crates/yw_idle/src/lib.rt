//! When a case is quiet, in any state that is well: nothing is urgent, and each identity is idle or held. Where an event may leave something urgent.
//! Each law is the contract of a function that does nothing.
#![tactic(auto)]

ghost use Rattle.std.specs.Prelude.{◌≡◌, ℕ, false, true};
ghost use Rattle.std.specs.List.{list_any};
ghost use Rattle.yw_state.specs.Allowed.{Allowed};
ghost use Rattle.yw_state.specs.Automatic.{IsQuiet};
ghost use Rattle.yw_state.specs.Events.{after};
ghost use Rattle.yw_state.specs.Identity.{Ident, same};
ghost use Rattle.yw_state.specs.State.{State, Site};
ghost use Rattle.yw_state.specs.Texts.{Said};
ghost use Rattle.yw_state.specs.Well.{IsWell, Stands};
ghost use Rattle.yw_state.specs.Words.{held};
ghost use Rattle.yw_state.specs.declared.event.Event.{Event};
ghost use Rattle.yw_idle.specs.Idle.{NoneUrgent, RestsAll, StaysIdle, is_urgent_at};
ghost use Rattle.yw_idle.specs.Warms.{continues, is_rule, warms};

use yw_state::laws::reads::Reads;

/// A case is quiet where nothing in it is urgent, and each identity that stands in it is idle or held.
pub fn rests_is_quiet()
    ensures { (s : State) (n : ℕ) → NoneUrgent s n → RestsAll s n → IsQuiet s n }
{
    yw_still::still_is_quiet();
}

/// In a state that is well, an event that is allowed leaves nothing urgent at an identity where nothing was, but where it changes what stands, and
/// directly above that.
pub fn urgent_follows<R: Reads>()
    ensures { (s : State) (e : Event) (said : Said) (j : Ident) → IsWell R.reader s → Allowed s e said
        → is_urgent_at (after s e said) j ≡ true → list_any (same j) (warms e) ≡ false → is_urgent_at s j ≡ true }
{}

/// In a state that is well, an event that is allowed and adds no rule leaves idle what is idle, but where it changes what stands, and directly above
/// that; what stands there stood before.
pub fn idle_follows<R: Reads>()
    ensures { (s : State) (e : Event) (said : Said) (j : Ident) (x : Site) → IsWell R.reader s → Allowed s e said → is_rule e ≡ false
        → Stands (after s e said) j x → list_any (same j) (warms e) ≡ false → StaysIdle s (after s e said) j }
{}

/// In a state that is well, an event that is allowed leaves held what is held and isn't under what it continues.
pub fn held_follows<R: Reads>()
    ensures { (s : State) (e : Event) (said : Said) (j : Ident) (x y : Site) → IsWell R.reader s → Allowed s e said → Stands s j x
        → Stands (after s e said) j y → continues e j ≡ false → held s j ≡ true → held (after s e said) j ≡ true }
{}
