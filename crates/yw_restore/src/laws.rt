//! Of which state something is kept. The law is the contract of a function that does nothing.
ghost use Rattle.std.specs.Prelude.{◌≡◌, filter_map};
ghost use Rattle.yw_library.specs.Held.{IsHeld};
ghost use Rattle.yw_library.specs.Parts.{state_of};
ghost use Rattle.yw_restore.specs.Standing.{IsOf, parts_of};
ghost use Rattle.yw_restore.specs.declared.kept.Kept.{Kept};
ghost use Rattle.yw_state.specs.Map.{entries};
ghost use Rattle.yw_states.specs.States.{tree_row};
ghost use Rattle.yw_trees.specs.Placed.{rules_of};

/// What is kept is of the state for which its parts stand, if that is held, where the rows of trees are those of its rules.
pub fn parts_are_kept()
    ensures { (kept : Kept) → IsHeld kept.known.now kept.forest.now (state_of (parts_of kept))
        → filter_map tree_row (entries (rules_of kept.known.now.rules)) ≡ kept.trees.now
        → IsOf kept (state_of (parts_of kept)) }
{}
