// A net begins at an item, or is at its end and goes with all under it; or an item is done without one.
ghost use Rattle.std.specs.Prelude.{ℕ, List};
ghost use Rattle.yw_sound.specs.Sound.{ReadsSound};
ghost use Rattle.yw_state.specs.Allowed.{Allowed};
ghost use Rattle.yw_state.specs.Events.{after};
ghost use Rattle.yw_state.specs.Identity.{Ident};
ghost use Rattle.yw_state.specs.State.{State};
ghost use Rattle.yw_state.specs.Texts.{Said};
ghost use Rattle.yw_state.specs.Well.{IsWell};
ghost use Rattle.yw_state.specs.declared.event.Event.TheVariants as events;

use yw_state::laws::reads::Reads;

/// A state that is well stays so when the child net of an item begins, where specifications are sound.
pub fn start_sub_keeps_well<R: Reads>()
    ensures { ReadsSound R.reader → (s : State) (j : Ident) (said : Said) → IsWell R.reader s → Allowed s (events.StartSub j) said → IsWell R.reader (after s (events.StartSub j) said) }
{}

/// A state that is well stays so when a worklet begins in place of an item's own work, where specifications are sound.
pub fn substitute_keeps_well<R: Reads>()
    ensures { ReadsSound R.reader → (s : State) (j : Ident) (worklet : List ℕ) (said : Said) → IsWell R.reader s → Allowed s (events.Substitute j worklet) said → IsWell R.reader (after s (events.Substitute j worklet) said) }
{}

/// A state that is well stays so when a child net hands its values back to its item, where specifications are sound.
pub fn complete_sub_keeps_well<R: Reads>()
    ensures { ReadsSound R.reader → (s : State) (j : Ident) (said : Said) → IsWell R.reader s → Allowed s (events.CompleteSub j) said → IsWell R.reader (after s (events.CompleteSub j) said) }
{}

/// A state that is well stays so when an empty task's item is done, where specifications are sound.
pub fn complete_empty_keeps_well<R: Reads>()
    ensures { ReadsSound R.reader → (s : State) (j : Ident) (said : Said) → IsWell R.reader s → Allowed s (events.CompleteEmpty j) said → IsWell R.reader (after s (events.CompleteEmpty j) said) }
{}

/// A state that is well stays so when a worklet hands its values back to the item for which it stands.
pub fn complete_worklet_keeps_well<R: Reads>()
    ensures { (s : State) (j : Ident) (said : Said) → IsWell R.reader s → Allowed s (events.CompleteWorklet j) said → IsWell R.reader (after s (events.CompleteWorklet j) said) }
{}
