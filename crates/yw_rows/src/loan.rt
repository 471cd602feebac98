//! The loan case: a child net, a worklet in it, two votes, and a payment that is held back while a compensation is at work.
ghost use Rattle.std.specs.Prelude.{◌≡◌, List, [], ◌∷◌, Option, Some, codes, false};
ghost use Rattle.yw_rows.specs.Choices.{lost_by_vote, lost_loan, lost_vote, small_loan, small_started};
ghost use Rattle.yw_rows.specs.Loan.{loan_9, loan_12, loan_13, loan_15, loan_18, loan_20, loan_22, loan_23, loan_25, loan_row};
ghost use Rattle.yw_rows.specs.Play.{ComputesAt, allowed_at, ended_at, shown_at};
ghost use Rattle.yw_rows.specs.Written.{nothing_shown};
ghost use Rattle.yw_state.specs.Broken.{placeless};
ghost use Rattle.yw_state.specs.declared.command.Command.TheVariants as commands;
ghost use Rattle.yw_state.specs.declared.event.Event.TheVariants as events;
ghost use Rattle.yw_state.specs.declared.part.Way.TheVariants.{Finished};
ghost use Rattle.yw_state.specs.declared.rule.Rule.TheVariants.{Held};

/// All events of the 27 commands are allowed in their turn. What stands in the case after command 9, the launch; 12, when a worklet
/// stands for the assessment; 13, in the worklet; 15, when it has ended; 18, when two persons vote; 20, when the board's net has
/// ended; 22, when the payment is late, and a compensation has begun; 23, in the compensation; 25, when it has ended; and 27.
pub fn loan()
    ensures launched { shown_at loan_row 9 1 ≡ Some loan_9 }
    ensures substituted { shown_at loan_row 12 1 ≡ Some loan_12 }
    ensures visited { shown_at loan_row 13 1 ≡ Some loan_13 }
    ensures assessed { shown_at loan_row 15 1 ≡ Some loan_15 }
    ensures voting { shown_at loan_row 18 1 ≡ Some loan_18 }
    ensures voted { shown_at loan_row 20 1 ≡ Some loan_20 }
    ensures late { shown_at loan_row 22 1 ≡ Some loan_22 }
    ensures calling { shown_at loan_row 23 1 ≡ Some loan_23 }
    ensures called { shown_at loan_row 25 1 ≡ Some loan_25 }
    ensures over { shown_at loan_row 27 1 ≡ Some nothing_shown }
    ensures finished { ended_at loan_row 27 1 ≡ Some Finished }
{}

/// While its compensation is at work the payment isn't started, for it is held; work in the compensation isn't held.
pub fn held()
    ensures at_22 { allowed_at loan_row 22 (events.Start (1 ∷ 8 ∷ []) (codes "ann")) ≡ Some false }
    ensures at_24 { allowed_at loan_row 24 (events.Start (1 ∷ 8 ∷ []) (codes "ann")) ≡ Some false }
    ensures by_22 { ComputesAt loan_row 22 (commands.Start (codes "ann") (1 ∷ 8 ∷ [])) (Some (placeless Held)) }
    ensures by_23 { ComputesAt loan_row 23 (commands.Start (codes "ann") (1 ∷ 8 ∷ [])) (Some (placeless Held)) }
    ensures by_24 { ComputesAt loan_row 24 (commands.Start (codes "ann") (1 ∷ 8 ∷ [])) (Some (placeless Held)) }
{}

/// Over a small amount no worklet is chosen, and a person starts the assessment.
pub fn small()
    ensures started { shown_at small_loan 13 1 ≡ Some small_started }
{}

/// With one vote of two the other branch is taken, which leads to a task that nobody does, and from there to the end.
pub fn lost()
    ensures refused { shown_at lost_vote 20 1 ≡ Some lost_by_vote }
    ensures finished { ended_at lost_loan 21 1 ≡ Some Finished }
{}
