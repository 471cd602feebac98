//! Specifications in which each name and each number leads to what is there (`IsWithin`), and what that gives: the one condition on nets and
//! specifications of what reads and walks them. Each law is the contract of a function that does nothing.
#![tactic(auto)]

ghost use Rattle.std.specs.Prelude.{Contains, length, ◌<◌, ◌≡◌, ℕ, List, Some, true};
ghost use Rattle.yw_spec.specs.Net.{places_after, places_before};
ghost use Rattle.yw_spec.specs.declared.spec.Net.{Net};
ghost use Rattle.yw_spec.specs.declared.spec.Place.{Place};
ghost use Rattle.yw_spec.specs.declared.spec.Spec.{Spec};
ghost use Rattle.yw_state.specs.Allowed.{place_numbers};
ghost use Rattle.yw_state.specs.State.{State};
ghost use Rattle.yw_state.specs.Well.{IsWell};
ghost use Rattle.yw_within.specs.Within.{HoldsWithin, NetIsWithin, ReadsWithin, are_places};

use yw_state::laws::reads::Reads;

/// Numbers of places of a net that is within are those of places with names.
pub fn places_are_named()
    ensures { (spec : Spec) (net : Net) (cs : List ℕ) → NetIsWithin spec net → are_places net cs ≡ true → (ps : List Place) × (place_numbers net ps ≡ Some cs) }
{}

/// What is loaded in a state that is well is within, where texts say no other specifications.
pub fn well_holds_within<R: Reads>()
    ensures { ReadsWithin R.reader → (s : State) → IsWell R.reader s → HoldsWithin s }
{}

/// The flows to and from each task of a net that is within are of places of it.
pub fn flows_have_places()
    ensures before { (spec : Spec) (net : Net) (t c : ℕ) → NetIsWithin spec net → Contains (places_before net t) c → c < length net.places }
    ensures after { (spec : Spec) (net : Net) (t c : ℕ) → NetIsWithin spec net → Contains (places_after net t) c → c < length net.places }
{}
