// A task exits: its items go, what they made is assigned, its removal set is emptied, and tokens come.
ghost use Rattle.std.specs.Prelude.{ℕ, List};
ghost use Rattle.yw_sound.specs.Sound.{ReadsSound};
ghost use Rattle.yw_spec.specs.declared.spec.Place.{Place};
ghost use Rattle.yw_state.specs.Allowed.{Allowed};
ghost use Rattle.yw_state.specs.Events.{after};
ghost use Rattle.yw_state.specs.Identity.{Ident};
ghost use Rattle.yw_state.specs.State.{State};
ghost use Rattle.yw_state.specs.Texts.{Said};
ghost use Rattle.yw_state.specs.Well.{IsWell};
ghost use Rattle.yw_state.specs.declared.event.Event.TheVariants as events;

use yw_state::laws::reads::Reads;

/// A state that is well stays so when a task is left, where specifications are sound.
pub fn exit_keeps_well<R: Reads>()
    ensures { ReadsSound R.reader → (s : State) (i : Ident) (t : List ℕ) (places : List Place) (said : Said) → IsWell R.reader s → Allowed s (events.Exit i t places) said → IsWell R.reader (after s (events.Exit i t places) said) }
{}
