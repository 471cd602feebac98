// What is still is quiet, and stays still.
ghost use Rattle.std.specs.Prelude.{◌≡◌, ◌≢◌, ℕ, Some};
ghost use Rattle.yw_state.specs.Allowed.{Allowed};
ghost use Rattle.yw_state.specs.Automatic.{IsQuiet, case_of};
ghost use Rattle.yw_state.specs.Events.{after};
ghost use Rattle.yw_state.specs.Identity.{Ident};
ghost use Rattle.yw_base.specs.Identity.{case_number};
ghost use Rattle.yw_state.specs.State.{State, Site};
ghost use Rattle.yw_state.specs.Texts.{Said};
ghost use Rattle.yw_state.specs.Well.{IsWell, Stands};
ghost use Rattle.yw_state.specs.declared.event.Event.{Event};
ghost use Rattle.yw_still.specs.Looked.{LooksSame};
ghost use Rattle.yw_still.specs.Still.{CaseIsStill, IsStill};

use yw_state::laws::reads::Reads;

/// A case is quiet where each identity that stands in it is still.
pub fn still_is_quiet()
    ensures { (s : State) (n : ℕ) → CaseIsStill s n → IsQuiet s n }
{}

/// What is still stays still where the same is looked at.
pub fn still_stays()
    ensures { (s t : State) (j : Ident) → LooksSame s t j → IsStill s j → IsStill t j }
{}

/// In a state that is well, an event that is allowed leaves still what is still in other cases than its own.
pub fn still_elsewhere<R: Reads>()
    ensures { (s : State) (e : Event) (said : Said) (n : ℕ) (j : Ident) (x : Site) → IsWell R.reader s → Allowed s e said → case_of e ≡ Some n → Stands s j x → case_number j ≢ n → IsStill s j → IsStill (after s e said) j }
{}
