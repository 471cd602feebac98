//! Which events keep the invariant.
ghost use Rattle.std.specs.Prelude.{ℕ, Bool, List};
ghost use Rattle.yw_state.specs.Allowed.{Allowed};
ghost use Rattle.yw_state.specs.Events.{after};
ghost use Rattle.yw_state.specs.Identity.{Ident};
ghost use Rattle.yw_state.specs.State.{State, opening};
ghost use Rattle.yw_state.specs.Texts.{Said, Says};
ghost use Rattle.yw_state.specs.Values.{Row};
ghost use Rattle.yw_state.specs.Well.{IsWell};
ghost use Rattle.yw_state.specs.declared.event.Event.TheVariants as events;
ghost use Rattle.yw_state.specs.declared.tree.Conclusion.{Conclusion};
ghost use Rattle.yw_state.specs.declared.tree.TreeKind.{TreeKind};
ghost use Rattle.yw_state.specs.declared.tree.TreePlace.{TreePlace};

use crate::laws::reads::Reads;

/// The state before anything was done is well, whatever texts say.
pub fn opening_is_well<R: Reads>()
    ensures { IsWell R.reader opening }
{}

/// A state that is well stays so when a person's roles are set.
pub fn person_keeps_well<R: Reads>()
    ensures { (s : State) (name : List ℕ) (roles : List (List ℕ)) (said : Said) → IsWell R.reader s → Allowed s (events.Person name roles) said → IsWell R.reader (after s (events.Person name roles) said) }
{}

/// A state that is well stays so when a specification is loaded under a name that is new: all that stands is of
/// specifications that were loaded before, and these answer as they did.
pub fn load_keeps_well<R: Reads>()
    ensures { (s : State) (name : List ℕ) (text : List ℕ) (said : Said) → IsWell R.reader s → Says R.reader s (events.Load name text) said → Allowed s (events.Load name text) said → IsWell R.reader (after s (events.Load name text) said) }
{}

/// A state that is well stays so when a rule is attached to a tree: the trees of all other places stay as they are.
pub fn add_rule_keeps_well<R: Reads>()
    ensures { (s : State) (p : TreePlace) (at : ℕ) (side : Bool) (when : List ℕ) (conclusion : Conclusion) (number : ℕ) (said : Said) → IsWell R.reader s → Says R.reader s (events.AddRule p at side when conclusion number) said → Allowed s (events.AddRule p at side when conclusion number) said → IsWell R.reader (after s (events.AddRule p at side when conclusion number) said) }
{}

/// A state that is well stays so when a case or an item is suspended.
pub fn suspend_keeps_well<R: Reads>()
    ensures { (s : State) (j : Ident) (said : Said) → IsWell R.reader s → Allowed s (events.Suspend j) said → IsWell R.reader (after s (events.Suspend j) said) }
{}

/// A state that is well stays so when a case or an item is suspended no longer.
pub fn continue_keeps_well<R: Reads>()
    ensures { (s : State) (j : Ident) (said : Said) → IsWell R.reader s → Allowed s (events.Continue j) said → IsWell R.reader (after s (events.Continue j) said) }
{}

/// A state that is well stays so when a check is due no longer.
pub fn pass_keeps_well<R: Reads>()
    ensures { (s : State) (j : Ident) (check : TreeKind) (said : Said) → IsWell R.reader s → Allowed s (events.Pass j check) said → IsWell R.reader (after s (events.Pass j check) said) }
{}

/// A state that is well stays so when nothing is done.
pub fn advance_keeps_well<R: Reads>()
    ensures { (s : State) (n : ℕ) (said : Said) → IsWell R.reader s → Allowed s (events.Advance n) said → IsWell R.reader (after s (events.Advance n) said) }
{}

/// A state that is well stays so when a case is cancelled.
pub fn cancel_keeps_well<R: Reads>()
    ensures { (s : State) (n : ℕ) (said : Said) → IsWell R.reader s → Allowed s (events.Cancel n) said → IsWell R.reader (after s (events.Cancel n) said) }
{}

/// A state that is well stays so when a case is finished.
pub fn finish_keeps_well<R: Reads>()
    ensures { (s : State) (n : ℕ) (said : Said) → IsWell R.reader s → Allowed s (events.Finish n) said → IsWell R.reader (after s (events.Finish n) said) }
{}

/// A state that is well stays so when a person begins an item.
pub fn start_keeps_well<R: Reads>()
    ensures { (s : State) (j : Ident) (who : List ℕ) (said : Said) → IsWell R.reader s → Allowed s (events.Start j who) said → IsWell R.reader (after s (events.Start j who) said) }
{}

/// A state that is well stays so when an item has made its values.
pub fn complete_keeps_well<R: Reads>()
    ensures { (s : State) (j : Ident) (out : Row) (said : Said) → IsWell R.reader s → Allowed s (events.Complete j out) said → IsWell R.reader (after s (events.Complete j out) said) }
{}

/// A state that is well stays so when a case is launched.
pub fn launch_keeps_well<R: Reads>()
    ensures { (s : State) (n : ℕ) (name : List ℕ) (vals : Row) (said : Said) → IsWell R.reader s → Allowed s (events.Launch n name vals) said → IsWell R.reader (after s (events.Launch n name vals) said) }
{}
