// Items of a task come.
ghost use Rattle.std.specs.Prelude.{ℕ, List};
ghost use Rattle.yw_base.specs.declared.value.Value.{Value};
ghost use Rattle.yw_sound.specs.Sound.{ReadsSound};
ghost use Rattle.yw_spec.specs.declared.spec.Place.{Place};
ghost use Rattle.yw_state.specs.Allowed.{Allowed};
ghost use Rattle.yw_state.specs.Events.{after};
ghost use Rattle.yw_state.specs.Identity.{Ident};
ghost use Rattle.yw_state.specs.State.{State};
ghost use Rattle.yw_state.specs.Texts.{Said};
ghost use Rattle.yw_state.specs.Well.{IsWell};
ghost use Rattle.yw_state.specs.declared.event.Event.TheVariants as events;

use yw_state::laws::reads::Reads;

/// A state that is well stays so when a task is entered, where specifications are sound.
pub fn enter_keeps_well<R: Reads>()
    ensures { ReadsSound R.reader → (s : State) (i : Ident) (t : List ℕ) (places : List Place) (first count : ℕ) (said : Said) → IsWell R.reader s → Allowed s (events.Enter i t places first count) said → IsWell R.reader (after s (events.Enter i t places first count) said) }
{}

/// A state that is well stays so when a person adds an item, where specifications are sound.
pub fn add_keeps_well<R: Reads>()
    ensures { ReadsSound R.reader → (s : State) (i : Ident) (t : List ℕ) (value : Value) (n : ℕ) (said : Said) → IsWell R.reader s → Allowed s (events.Add i t value n) said → IsWell R.reader (after s (events.Add i t value n) said) }
{}
