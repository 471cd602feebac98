//! Assignments as a task exits.
ghost use Rattle.std.specs.Prelude.{◌≡◌, List, [], ◌∷◌, Option, Some, codes, false, pos, true};
ghost use Rattle.yw_base.specs.declared.value.Value.TheVariants as values;
ghost use Rattle.yw_rows.specs.Assignments.{defined_left, defined_row, enter_ins, exit_m, goes_on_counts, greatest, in_item_order, ins_row, last_first, suspended_counts, suspended_done, three_kept, two_kept, undefined_left, undefined_row};
ghost use Rattle.yw_rows.specs.Play.{ComputesAt, RefusedAt, allowed_at, shown_at};
ghost use Rattle.yw_rows.specs.Written.{given};
ghost use Rattle.yw_state.specs.Broken.{placed};
ghost use Rattle.yw_state.specs.declared.command.Command.TheVariants as commands;
ghost use Rattle.yw_state.specs.declared.rule.Rule.TheVariants.{Mapping};

/// Each assignment is made over the values before, so two variables are exchanged; one that is undefined leaves its variable; and a
/// branch that is undefined isn't taken.
pub fn exchanged()
    ensures undefined { shown_at undefined_row 6 1 ≡ Some undefined_left }
    ensures defined { shown_at defined_row 7 1 ≡ Some defined_left }
{}

/// A task isn't entered where what an item is given is undefined.
pub fn given_nothing()
    ensures not_entered { allowed_at ins_row 3 enter_ins ≡ Some false }
    ensures mapping { RefusedAt ins_row 3 (commands.Enter (codes "ann") (1 ∷ []) (codes "t")) (placed Mapping (codes "p")) }
{}

/// The values of several items come in order of the items, and not in that in which they were made.
pub fn in_order()
    ensures kept { shown_at last_first 9 1 ≡ Some in_item_order }
{}

/// An item that is completed and suspended doesn't count towards the exit, but its value is kept.
pub fn suspended()
    ensures not_yet { allowed_at suspended_done 10 exit_m ≡ Some false }
    ensures three { shown_at suspended_counts 11 1 ≡ Some three_kept }
    ensures two { shown_at goes_on_counts 11 1 ≡ Some two_kept }
{}

/// An item isn't completed where the sum over it and those before it is too great.
pub fn too_great()
    ensures mapping { ComputesAt greatest 8 (commands.Complete (codes "ann") (1 ∷ 2 ∷ []) (given (codes "v") (values.Int (pos 1)) ∷ [])) (Some (placed Mapping (codes "total"))) }
{}
