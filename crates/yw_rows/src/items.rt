//! Items: how many there are, and what they make.
ghost use Rattle.std.specs.Prelude.{◌≡◌, ℕ, Option, None, Some, [], ◌∷◌, List, codes, false, pos, true};
ghost use Rattle.yw_base.specs.declared.value.Value.TheVariants as values;
ghost use Rattle.yw_rows.specs.Mapping.{complete_with_0, complete_with_5, mapping_left, mapping_made, mapping_over, mapping_row, mapping_stays};
ghost use Rattle.yw_rows.specs.Play.{RefusedAt, allowed_at, ended_at, shown_at};
ghost use Rattle.yw_rows.specs.Several.{add_fourth, empty_row, leave_early, none_entered, one_done, several_row, three_items, two_done, two_items};
ghost use Rattle.yw_rows.specs.Written.{given};
ghost use Rattle.yw_state.specs.Broken.{placed, placeless};
ghost use Rattle.yw_state.specs.declared.command.Command.TheVariants as commands;
ghost use Rattle.yw_state.specs.declared.event.Event.TheVariants as events;
ghost use Rattle.yw_state.specs.declared.part.Way.TheVariants.{Finished};
ghost use Rattle.yw_state.specs.declared.rule.Rule.TheVariants.{Count, Mapping, MaxReached, UnknownItem};
ghost use Rattle.yw_spec.specs.declared.spec.Place.TheVariants.{Named};

/// Two items come at entry, and a third is added; a fourth isn't, for there may be three. The task doesn't exit with one item
/// completed, and exits with two, whereupon the third is gone.
pub fn several()
    ensures entered { shown_at several_row 4 1 ≡ Some two_items }
    ensures added { shown_at several_row 5 1 ≡ Some three_items }
    ensures fourth { allowed_at several_row 5 add_fourth ≡ Some false }
    ensures most { RefusedAt several_row 5 (commands.Add (codes "ann") (1 ∷ []) (codes "m") (Some (values.Text (codes "s")))) (placeless MaxReached) }
    ensures one { shown_at several_row 7 1 ≡ Some one_done }
    ensures early { allowed_at several_row 7 leave_early ≡ Some false }
    ensures two { shown_at several_row 9 1 ≡ Some two_done }
    ensures gone { RefusedAt several_row 9 (commands.Start (codes "ann") (1 ∷ 4 ∷ [])) (placeless UnknownItem) }
{}

/// Over an empty list the task isn't entered, and no number is drawn: the next case has the number 2.
pub fn empty_list()
    ensures refused { RefusedAt empty_row 3 (commands.Enter (codes "ann") (1 ∷ []) (codes "m")) (placeless Count) }
    ensures none { allowed_at empty_row 3 (events.Enter (1 ∷ []) (codes "m") (Named (codes "i") ∷ []) 2 0) ≡ Some false }
    ensures shown { shown_at empty_row 3 1 ≡ Some none_entered }
    ensures next { allowed_at empty_row 3 (events.Launch 2 (codes "r8") (values.Texts [] ∷ [])) ≡ Some true }
{}

/// An item that made 0 isn't completed where the assignment divides by it, and stays as it was; with 5 it is, and its variable is 20.
pub fn mapping()
    ensures zero { allowed_at mapping_row 5 complete_with_0 ≡ Some false }
    ensures refused { RefusedAt mapping_row 5 (commands.Complete (codes "ann") (1 ∷ 2 ∷ []) (given (codes "den") (values.Int (pos 0)) ∷ [])) (placed Mapping (codes "x")) }
    ensures stays { shown_at mapping_row 5 1 ≡ Some mapping_stays }
    ensures five { allowed_at mapping_row 5 complete_with_5 ≡ Some true }
    ensures made { shown_at mapping_left 6 1 ≡ Some mapping_made }
    ensures finished { ended_at mapping_over 7 1 ≡ Some Finished }
{}
