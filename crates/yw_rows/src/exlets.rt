//! Checks, exlets, and what comes of itself.
ghost use Rattle.std.specs.Prelude.{◌≡◌, List, [], ◌∷◌, Option, None, Some, codes, false, true};
ghost use Rattle.yw_rows.specs.Ends.{case_post, case_post_run, finish, great, item_post, judged_great, leave, post_due, post_running, removed_great, small};
ghost use Rattle.yw_rows.specs.Exlets.{case_removed, completed_by_exlet, item_removed, nothing_left, pre_due, pre_entered, pre_excepted, pre_going_on, pre_held, pre_running, pre_started, pre_suspended, ready_again, restarted, time_completed, time_left, twice_continued, twice_suspended};
ghost use Rattle.yw_rows.specs.Loan.{loan_row};
ghost use Rattle.yw_rows.specs.Play.{ComputesAt, RefusedAt, allowed_at, are_allowed, automatic_at, ended_at, shown_at, urgent_at};
ghost use Rattle.yw_rows.specs.Seq.{seq_between};
ghost use Rattle.yw_rows.specs.Urgent.{choice_due, chosen, enter_apply, enter_assess, enter_k, enter_pay, enter_refuse, enter_review, enter_vote, to_choose};
ghost use Rattle.yw_rows.specs.Written.{nothing_shown};
ghost use Rattle.yw_state.specs.Broken.{placeless};
ghost use Rattle.yw_state.specs.declared.command.Command.TheVariants as commands;
ghost use Rattle.yw_state.specs.declared.part.Way.TheVariants.{Finished, Removed};
ghost use Rattle.yw_state.specs.declared.rule.Rule.TheVariants.{Held, Mark};

/// While the choice of a worklet is due the case is urgent, and no other task of it is entered; once the choice is made it is clear.
pub fn urgent()
    ensures due { shown_at to_choose 10 1 ≡ Some choice_due }
    ensures urgent { urgent_at to_choose 10 1 ≡ Some true }
    ensures waits { allowed_at to_choose 10 enter_k ≡ Some false }
    ensures clear { urgent_at chosen 11 1 ≡ Some false }
    ensures goes_on { allowed_at chosen 11 enter_k ≡ Some true }
{}

/// The server enters a composite task, an empty one, and one for which worklets are chosen; a person enters any other.
pub fn automatic()
    ensures composite { automatic_at loan_row 9 enter_review ≡ Some true }
    ensures empty { automatic_at loan_row 9 enter_refuse ≡ Some true }
    ensures with_rule { automatic_at loan_row 12 enter_assess ≡ Some true }
    ensures manual { automatic_at loan_row 9 enter_apply ≡ Some false }
    ensures other_tree { automatic_at loan_row 9 enter_pay ≡ Some false }
    ensures no_rule { automatic_at loan_row 12 enter_vote ≡ Some false }
{}

/// A check before an item suspends the case: it is due as the item comes, then its run is at work, and then the item is held until
/// the case goes on.
pub fn before()
    ensures due { shown_at pre_entered 5 1 ≡ Some pre_due }
    ensures urgent { urgent_at pre_entered 5 1 ≡ Some true }
    ensures running { shown_at pre_excepted 6 1 ≡ Some pre_running }
    ensures still_urgent { urgent_at pre_excepted 6 1 ≡ Some true }
    ensures suspended { shown_at pre_suspended 7 1 ≡ Some pre_held }
    ensures clear { urgent_at pre_suspended 7 1 ≡ Some false }
    ensures held { ComputesAt pre_suspended 7 (commands.Start (codes "ann") (1 ∷ 2 ∷ [])) (Some (placeless Held)) }
    ensures started { shown_at pre_going_on 9 1 ≡ Some pre_started }
    ensures once { RefusedAt pre_going_on 9 (commands.Continue (1 ∷ [])) (placeless Mark) }
{}

/// An item is completed by an exlet where a time has passed, and its task exits.
pub fn completed()
    ensures completed { shown_at time_completed 6 1 ≡ Some completed_by_exlet }
    ensures left { shown_at time_left 7 1 ≡ Some seq_between }
{}

/// An exlet removes the case.
pub fn removed()
    ensures removed { ended_at case_removed 6 1 ≡ Some Removed }
    ensures over { shown_at case_removed 6 1 ≡ Some nothing_shown }
{}

/// To suspend what is suspended changes nothing, nor to let go on what isn't; an item that begins anew is ready, and its person is
/// forgotten, so that another may start it.
pub fn restarted()
    ensures twice { shown_at restarted 7 1 ≡ Some twice_suspended }
    ensures let_go { shown_at restarted 8 1 ≡ Some twice_continued }
    ensures anew { shown_at restarted 9 1 ≡ Some ready_again }
    ensures another { are_allowed restarted 10 ≡ true }
{}

/// An exlet removes the item, which leaves its case without a token.
pub fn item_removed()
    ensures gone { shown_at item_removed 7 1 ≡ Some nothing_left }
{}

/// The check behind a case is due as its output is marked, and the case isn't at its end before the run is.
pub fn behind_case()
    ensures due { shown_at case_post 10 1 ≡ Some post_due }
    ensures not_yet { allowed_at case_post 10 finish ≡ Some false }
    ensures running { shown_at case_post_run 11 1 ≡ Some post_running }
    ensures nor_yet { allowed_at case_post_run 11 finish ≡ Some false }
    ensures finished { ended_at case_post_run 13 1 ≡ Some Finished }
{}

/// The check behind an item looks at what it made: where that is great the item is removed, and else its task exits.
pub fn behind_item()
    ensures due { shown_at great 7 1 ≡ Some judged_great }
    ensures stays { allowed_at great 7 leave ≡ Some false }
    ensures removed { shown_at great 8 1 ≡ Some removed_great }
    ensures passed { ended_at small 7 1 ≡ Some Finished }
{}
