//! What a removal set takes away.
ghost use Rattle.std.specs.Prelude.{◌≡◌, Option, Some, [], ◌∷◌, List, codes};
ghost use Rattle.yw_rows.specs.Nested.{nested_begun, nested_deep, nested_gone, nested_row};
ghost use Rattle.yw_rows.specs.Play.{RefusedAt, ended_at, shown_at};
ghost use Rattle.yw_rows.specs.Removal.{both_marked, one_left, removal_row};
ghost use Rattle.yw_state.specs.Broken.{placeless};
ghost use Rattle.yw_state.specs.declared.command.Command.TheVariants as commands;
ghost use Rattle.yw_state.specs.declared.part.Way.TheVariants.{Finished};
ghost use Rattle.yw_state.specs.declared.rule.Rule.TheVariants.{UnknownCase, UnknownItem};

/// A place of the removal set is emptied before the task's own token comes to it: one token is left, and not two.
pub fn removal()
    ensures before { shown_at removal_row 6 1 ≡ Some both_marked }
    ensures emptied { shown_at removal_row 9 1 ≡ Some one_left }
    ensures finished { ended_at removal_row 12 1 ≡ Some Finished }
{}

/// An item goes with all under it: its child net, the worklet in that, and the compensation at work in the worklet.
pub fn nested()
    ensures begun { shown_at nested_row 10 1 ≡ Some nested_begun }
    ensures deep { shown_at nested_row 13 1 ≡ Some nested_deep }
    ensures gone { shown_at nested_row 16 1 ≡ Some nested_gone }
    ensures no_net { RefusedAt nested_row 16 (commands.Enter (codes "ann") (1 ∷ 3 ∷ 4 ∷ []) (codes "y")) (placeless UnknownCase) }
    ensures no_item { RefusedAt nested_row 16 (commands.Start (codes "ann") (1 ∷ 3 ∷ 4 ∷ 5 ∷ [])) (placeless UnknownItem) }
{}
