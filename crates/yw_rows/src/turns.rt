//! The order of checks, and compensations on a case.
ghost use Rattle.std.specs.Prelude.{◌≡◌, List, [], ◌∷◌, Option, Some, codes, false, true};
ghost use Rattle.yw_rows.specs.Compensations.{comp_begun, comp_behind, comp_ended, comp_over, comp_row, comp_suspended, due_and_busy, enter_t, enter_visit, over, post_begins, run_goes_on};
ghost use Rattle.yw_rows.specs.Play.{allowed_at, ended_at, shown_at, urgent_at};
ghost use Rattle.yw_rows.specs.Turns.{choose, done_by_exlet, one_due, post_is_due, turns_anew, turns_chosen, turns_completed, turns_ended, turns_entered, turns_pre, two_due, worklet_works};
ghost use Rattle.yw_state.specs.declared.part.Way.TheVariants.{Finished};

/// The check before an item comes before the choice of its worklet, and the check behind it when its worklet has ended.
pub fn checks()
    ensures two { shown_at turns_entered 9 1 ≡ Some two_due }
    ensures not_yet { allowed_at turns_entered 9 choose ≡ Some false }
    ensures one { shown_at turns_pre 10 1 ≡ Some one_due }
    ensures works { shown_at turns_chosen 12 1 ≡ Some worklet_works }
    ensures ended { shown_at turns_ended 14 1 ≡ Some post_is_due }
{}

/// When an item begins anew its worklet is gone, and the choice alone is due; when an exlet completes it nothing is due.
pub fn anew()
    ensures anew { shown_at turns_anew 13 1 ≡ Some one_due }
    ensures completed { shown_at turns_completed 13 1 ≡ Some done_by_exlet }
{}

/// A compensation of a case has the case's values. While the case is suspended work in the compensation isn't held.
pub fn of_case()
    ensures begun { shown_at comp_row 8 1 ≡ Some comp_begun }
    ensures held { allowed_at comp_suspended 9 enter_t ≡ Some false }
    ensures not_held { allowed_at comp_suspended 9 enter_visit ≡ Some true }
    ensures before { allowed_at comp_row 8 enter_t ≡ Some true }
{}

/// While a compensation is at work on a case the check behind the case is due without being urgent, and the case isn't at its end.
pub fn behind()
    ensures due { shown_at comp_behind 11 1 ≡ Some due_and_busy }
    ensures not_urgent { urgent_at comp_behind 11 1 ≡ Some false }
    ensures not_begun { allowed_at comp_behind 11 post_begins ≡ Some false }
    ensures not_over { allowed_at comp_behind 11 over ≡ Some false }
    ensures goes_on { shown_at comp_over 14 1 ≡ Some run_goes_on }
    ensures urgent { urgent_at comp_over 14 1 ≡ Some true }
    ensures finished { ended_at comp_ended 16 1 ≡ Some Finished }
{}
