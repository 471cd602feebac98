//! Checks and exlets at composite tasks, at cases as they begin, and at items that are added.
ghost use Rattle.std.specs.Prelude.{◌≡◌, Some, false, true};
ghost use Rattle.yw_rows.specs.Composites.{added_due, added_row, both_due, case_due, case_pre, composite_anew, composite_begun, composite_completed, composite_done, composite_due, composite_ended, composite_entered, composite_post, composite_ready, composite_suspended, composite_works, enter_a, start_sub, start_x};
ghost use Rattle.yw_rows.specs.Play.{allowed_at, shown_at};

/// The child net begins once the check before the item has passed, and when it has ended the check behind it is due.
pub fn checks()
    ensures due { shown_at composite_entered 7 1 ≡ Some composite_due }
    ensures not_yet { allowed_at composite_entered 7 start_sub ≡ Some false }
    ensures works { shown_at composite_begun 9 1 ≡ Some composite_works }
    ensures ended { shown_at composite_ended 11 1 ≡ Some composite_post }
{}

/// An exlet lets the item begin anew or count as completed: its child net is gone, and nothing is due.
pub fn exlets()
    ensures anew { shown_at composite_anew 10 1 ≡ Some composite_ready }
    ensures begins { allowed_at composite_anew 10 start_sub ≡ Some true }
    ensures completed { shown_at composite_completed 10 1 ≡ Some composite_done }
{}

/// An item that is suspended holds the work in its child net.
pub fn held()
    ensures before { allowed_at composite_begun 9 start_x ≡ Some true }
    ensures held { allowed_at composite_suspended 10 start_x ≡ Some false }
{}

/// A case has its check as it begins, and no task of it is entered before.
pub fn case()
    ensures due { shown_at case_pre 4 1 ≡ Some case_due }
    ensures waits { allowed_at case_pre 4 enter_a ≡ Some false }
{}

/// Each of several items has its check, and so has one that is added.
pub fn several()
    ensures both { shown_at added_row 5 1 ≡ Some both_due }
    ensures added { shown_at added_row 8 1 ≡ Some added_due }
{}
