//! Tokens on their way through a net.
ghost use Rattle.std.specs.Prelude.{◌≡◌, List, [], ◌∷◌, Option, Some, codes, false, true};
ghost use Rattle.yw_rows.specs.Choices.{default_branch, join_both, or_split_row, two_branches, two_joined};
ghost use Rattle.yw_rows.specs.OrJoin.{join_early, join_late, or_emptied, or_joined, or_row, or_waiting};
ghost use Rattle.yw_rows.specs.Play.{RefusedAt, allowed_at, ended_at, shown_at};
ghost use Rattle.yw_rows.specs.Seq.{seq_between, seq_launched, seq_row, seq_started};
ghost use Rattle.yw_rows.specs.Waiting.{AllowedThen, ForbiddenThen, WaitsNotThen, WaitsThen};
ghost use Rattle.yw_rows.specs.Written.{nothing_shown};
ghost use Rattle.yw_rows.specs.XorJoin.{from_both, from_input, from_none, left_first, left_second, xor_from_first, xor_from_second, xor_front};
ghost use Rattle.yw_state.specs.Broken.{placeless};
ghost use Rattle.yw_state.specs.declared.command.Command.TheVariants as commands;
ghost use Rattle.yw_state.specs.declared.part.Way.TheVariants.{Finished};
ghost use Rattle.yw_state.specs.declared.rule.Rule.TheVariants.{OrWaits, UnknownItem};

/// A case of two tasks in a row: what stands after the launch, after the start of the first task, between the two, and at the end.
pub fn seq()
    ensures launched { shown_at seq_row 3 1 ≡ Some seq_launched }
    ensures started { shown_at seq_row 5 1 ≡ Some seq_started }
    ensures between { shown_at seq_row 6 1 ≡ Some seq_between }
    ensures over { shown_at seq_row 9 1 ≡ Some nothing_shown }
    ensures finished { ended_at seq_row 9 1 ≡ Some Finished }
{}

/// An XOR-join takes from one of two marked places, and leaves the other; it takes from no more, and from no place that isn't marked.
pub fn xor_join()
    ensures first { shown_at xor_from_first 7 1 ≡ Some left_second }
    ensures second { shown_at xor_from_second 7 1 ≡ Some left_first }
    ensures both { allowed_at xor_front 6 from_both ≡ Some false }
    ensures none { allowed_at xor_front 6 from_none ≡ Some false }
    ensures input { allowed_at xor_front 6 from_input ≡ Some false }
{}

/// An OR-join isn't entered from its marked place while an item may still bring a token to the other. That is the first rule that the line breaks.
pub fn or_join_waits()
    ensures before { shown_at or_row 10 1 ≡ Some or_waiting }
    ensures waits { WaitsThen or_row 10 (1 ∷ []) (codes "j") }
    ensures forbidden { ForbiddenThen or_row 10 join_early }
    ensures tokens { allowed_at or_row 10 join_early ≡ Some true }
    ensures refused { RefusedAt or_row 10 (commands.Enter (codes "ann") (1 ∷ []) (codes "j")) (placeless OrWaits) }
{}

/// A third task takes that item away, and puts a second token on the marked place: now the join is entered, and leaves one token.
pub fn or_join_goes_on()
    ensures emptied { shown_at or_row 13 1 ≡ Some or_emptied }
    ensures gone { RefusedAt or_row 13 (commands.Start (codes "ann") (1 ∷ 4 ∷ [])) (placeless UnknownItem) }
    ensures waits_not { WaitsNotThen or_row 13 (1 ∷ []) (codes "j") }
    ensures allowed { AllowedThen or_row 13 join_late }
    ensures joined { shown_at or_row 14 1 ≡ Some or_joined }
{}

/// An OR-split takes all branches that are true, and the default where none is. An OR-join waits for the second of two, and then takes both.
pub fn or_split()
    ensures two { shown_at or_split_row 6 1 ≡ Some two_branches }
    ensures waits { WaitsThen or_split_row 9 (1 ∷ []) (codes "j") }
    ensures both { AllowedThen or_split_row 12 join_both }
    ensures joined { shown_at or_split_row 13 1 ≡ Some two_joined }
    ensures default { shown_at or_split_row 17 6 ≡ Some default_branch }
{}
