//! That a task which may be entered by a choice of its join, or left, gives the event that comes of itself. Each law is the contract of a function
//! that does nothing.
ghost use Rattle.std.specs.Prelude.{◌≡◌, ℕ, Some, true, false};
ghost use Rattle.yw_enabled.specs.Entered.{EntersFrom};
ghost use Rattle.yw_enabled.specs.Steps.{EnterComes, ExitComes};
ghost use Rattle.yw_mark.specs.Taking.{taken_places};
ghost use Rattle.yw_mark.specs.declared.join.Taken.{Taken};
ghost use Rattle.yw_state.specs.Identity.{Ident};
ghost use Rattle.yw_base.specs.Identity.{case_number};
ghost use Rattle.yw_state.specs.Judged.{is_manual};
ghost use Rattle.yw_state.specs.State.{State, TaskAt};
ghost use Rattle.yw_still.specs.Still.{is_leaving, task_numbered};
ghost use Rattle.yw_within.specs.Within.{HoldsWithin};

/// A task that persons don't enter and that may be entered by this choice of its join is entered of itself: from the places of the choice, with
/// an item for each row that the entry makes, numbered from the counter on.
pub fn entry_comes()
    ensures { (s : State) (i : Ident) (t : ℕ) (x : TaskAt) (taken : Taken) → HoldsWithin s → task_numbered s i t ≡ Some x → is_manual s x ≡ false
        → EntersFrom s i x (taken_places x.within.part.tokens x.task.before taken) → EnterComes s (case_number i) i t taken }
{}

/// A task that may be left is left of itself: to the places of its split.
pub fn exit_comes()
    ensures { (s : State) (i : Ident) (t : ℕ) (x : TaskAt) → HoldsWithin s → task_numbered s i t ≡ Some x → is_leaving s i x ≡ true
        → ExitComes s (case_number i) i t }
{}
