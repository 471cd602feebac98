// A run of an exlet begins, or goes on.
ghost use Rattle.std.specs.Prelude.{ℕ};
ghost use Rattle.yw_sound.specs.Sound.{ReadsSound};
ghost use Rattle.yw_state.specs.Allowed.{Allowed};
ghost use Rattle.yw_state.specs.Events.{after};
ghost use Rattle.yw_state.specs.Identity.{Ident};
ghost use Rattle.yw_state.specs.State.{State};
ghost use Rattle.yw_state.specs.Texts.{Said};
ghost use Rattle.yw_state.specs.Well.{IsWell};
ghost use Rattle.yw_state.specs.declared.event.Event.TheVariants as events;
ghost use Rattle.yw_state.specs.declared.tree.Primitive.{Primitive};
ghost use Rattle.yw_state.specs.declared.tree.TreeKind.{TreeKind};

use yw_state::laws::reads::Reads;

/// A state that is well stays so when an exlet begins for a check that is due, where specifications are sound.
pub fn except_keeps_well<R: Reads>()
    ensures { ReadsSound R.reader → (s : State) (j : Ident) (check : TreeKind) (node n : ℕ) (said : Said) → IsWell R.reader s → Allowed s (events.Except j check node n) said → IsWell R.reader (after s (events.Except j check node n) said) }
{}

/// A state that is well stays so when an exlet begins for what happened outside, where specifications are sound.
pub fn raise_keeps_well<R: Reads>()
    ensures { ReadsSound R.reader → (s : State) (j : Ident) (kind : TreeKind) (node n : ℕ) (said : Said) → IsWell R.reader s → Allowed s (events.Raise j kind node n) said → IsWell R.reader (after s (events.Raise j kind node n) said) }
{}

/// A state that is well stays so when a run takes its first primitive, whichever it is, where specifications are sound.
pub fn prim_keeps_well<R: Reads>()
    ensures { ReadsSound R.reader → (s : State) (r : Ident) (p : Primitive) (said : Said) → IsWell R.reader s → Allowed s (events.Prim r p) said → IsWell R.reader (after s (events.Prim r p) said) }
{}

/// A state that is well stays so when a compensation is at its end and its run goes on, or goes with it where nothing is left to do.
pub fn compensated_keeps_well<R: Reads>()
    ensures { (s : State) (r : Ident) (said : Said) → IsWell R.reader s → Allowed s (events.Compensated r) said → IsWell R.reader (after s (events.Compensated r) said) }
{}
