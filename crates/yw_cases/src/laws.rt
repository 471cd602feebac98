//! What is so of the parts of the opening state. The law is the contract of a function that does nothing.
ghost use Rattle.std.specs.Prelude.{◌≡◌};
ghost use Rattle.yw_cases.specs.State.{MayStand, standing_of};
ghost use Rattle.yw_library.specs.Parts.{IsOpening};
ghost use Rattle.yw_library.specs.declared.parts.Parts.{Parts};
ghost use Rattle.yw_standing.specs.State.{state_of};
ghost use Rattle.yw_state.specs.State.{opening};

/// They stand for the opening state, which is well.
pub fn opening_may_stand()
    ensures state { (p : Parts) → IsOpening p → state_of (standing_of p) ≡ opening }
    ensures stands { (p : Parts) → IsOpening p → MayStand (standing_of p) }
{}
