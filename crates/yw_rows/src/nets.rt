//! Nets in nets.
ghost use Rattle.std.specs.Prelude.{◌≡◌, List, [], ◌∷◌, Option, Some, codes};
ghost use Rattle.yw_rows.specs.ChildNets.{all_ended, all_removed, nest_front, nest_removed, nest_up, second_time, three_levels, twice_row};
ghost use Rattle.yw_rows.specs.Play.{RefusedAt, ended_at, shown_at};
ghost use Rattle.yw_rows.specs.Written.{nothing_shown};
ghost use Rattle.yw_state.specs.Broken.{placeless};
ghost use Rattle.yw_state.specs.declared.command.Command.TheVariants as commands;
ghost use Rattle.yw_state.specs.declared.part.Way.TheVariants.{Cancelled};
ghost use Rattle.yw_state.specs.declared.rule.Rule.TheVariants.{UnknownCase, UnknownItem};

/// Three nets stand one in another. When the lowest is at its end each ends in its turn.
pub fn levels()
    ensures begun { shown_at nest_front 7 1 ≡ Some three_levels }
    ensures ended { shown_at nest_up 9 1 ≡ Some all_ended }
{}

/// A removal takes the item in which the other two nets stand, and a cancel the case.
pub fn taken()
    ensures gone { shown_at nest_removed 10 1 ≡ Some all_removed }
    ensures no_item { RefusedAt nest_removed 10 (commands.Start (codes "ann") (1 ∷ 3 ∷ 4 ∷ 5 ∷ [])) (placeless UnknownItem) }
    ensures no_net { RefusedAt nest_removed 10 (commands.Enter (codes "ann") (1 ∷ 3 ∷ 4 ∷ []) (codes "x")) (placeless UnknownCase) }
    ensures cancelled { ended_at nest_removed 11 1 ≡ Some Cancelled }
    ensures over { shown_at nest_removed 11 1 ≡ Some nothing_shown }
    ensures once { RefusedAt nest_removed 11 (commands.Cancel (1 ∷ [])) (placeless UnknownCase) }
{}

/// Two tasks name one net: it begins anew at the second.
pub fn twice()
    ensures second { shown_at twice_row 6 1 ≡ Some second_time }
{}
