//! The limits of numbers, tokens and depth.
ghost use Rattle.std.specs.Prelude.{◌≡◌, List, [], ◌∷◌, Option, Some, codes, false, true};
ghost use Rattle.yw_rows.specs.Exlets.{pre_entered};
ghost use Rattle.yw_rows.specs.Limits.{deepest, exit_a, exit_to_c, last_number, no_number, not_deep, removal_done, seq_done, too_deep, with_tokens};
ghost use Rattle.yw_rows.specs.Play.{Then, are_allowed};
ghost use Rattle.yw_rows.specs.Seq.{seq_row};
ghost use Rattle.yw_state.specs.After.{with_next};
ghost use Rattle.yw_state.specs.Allowed.{allows};
ghost use Rattle.yw_state.specs.Events.{after};
ghost use Rattle.yw_state.specs.State.{tokens_on};
ghost use Rattle.yw_state.specs.Texts.{nothing};
ghost use Rattle.yw_state.specs.declared.event.Event.TheVariants as events;
ghost use Rattle.yw_state.specs.declared.tree.TreeKind.TheVariants as kinds;

/// The last number is 2^48 - 1. Where none is left a check before or behind an item is passed, for its run would have none.
pub fn numbers()
    ensures last { Then seq_row 2 (λ s. allows (with_next s last_number) (events.Launch last_number (codes "seq") []) nothing ≡ true) }
    ensures none { Then seq_row 2 (λ s. allows (with_next s no_number) (events.Launch no_number (codes "seq") []) nothing ≡ false) }
    ensures run { Then pre_entered 5 (λ s. allows (with_next s last_number) (events.Except (1 ∷ 2 ∷ []) kinds.Pre 1 last_number) nothing ≡ true) }
    ensures not_passed { Then pre_entered 5 (λ s. allows (with_next s last_number) (events.Pass (1 ∷ 2 ∷ []) kinds.Pre) nothing ≡ false) }
    ensures no_run { Then pre_entered 5 (λ s. allows (with_next s no_number) (events.Except (1 ∷ 2 ∷ []) kinds.Pre 1 no_number) nothing ≡ false) }
    ensures passed { Then pre_entered 5 (λ s. allows (with_next s no_number) (events.Pass (1 ∷ 2 ∷ []) kinds.Pre) nothing ≡ true) }
{}

/// A place has 1,000,000 tokens at most. One that the task itself empties has room.
pub fn tokens()
    ensures room { Then seq_done 6 (λ s. allows (with_tokens s (0 ∷ 0 ∷ 999999 ∷ [])) exit_a nothing ≡ true) }
    ensures full { Then seq_done 6 (λ s. allows (with_tokens s (0 ∷ 0 ∷ 1000000 ∷ [])) exit_a nothing ≡ false) }
    ensures emptied { Then removal_done 9 (λ s. allows (with_tokens s (0 ∷ 0 ∷ 1000000 ∷ 0 ∷ [])) exit_to_c nothing ≡ true) }
    ensures one { Then removal_done 9 (λ s. tokens_on (after (with_tokens s (0 ∷ 0 ∷ 1000000 ∷ 0 ∷ [])) exit_to_c nothing) (1 ∷ []) 2 ≡ 1) }
{}

/// A specification may stand for the item of its own task, 30 times one in another; the item of 32 numbers is passed, and no earlier one.
pub fn depth()
    ensures deepest { are_allowed deepest 4 ≡ true }
    ensures deeper { are_allowed too_deep 4 ≡ false }
    ensures less { are_allowed not_deep 4 ≡ false }
{}
