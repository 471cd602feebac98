// A test that passes at an identity or a task gives an event that comes of itself.
ghost use Rattle.std.specs.Prelude.{◌≡◌, ℕ, Some, IsTrue};
ghost use Rattle.yw_state.specs.Identity.{Ident};
ghost use Rattle.yw_base.specs.Identity.{case_number};
ghost use Rattle.yw_state.specs.Joins.{NoWait};
ghost use Rattle.yw_state.specs.State.{State, TaskAt};
ghost use Rattle.yw_state.specs.Well.{IsWell};
ghost use Rattle.yw_state.specs.Words.{urgent};
ghost use Rattle.yw_still.specs.Still.{SomethingComes, case_ends, check_waits, compensation_ends, is_entering, is_leaving, item_goes_on, run_is_at_work, task_numbered};
ghost use Rattle.yw_within.specs.Within.{HoldsWithin};

use yw_state::laws::reads::Reads;

/// A task is entered that may be, by no person, and whose OR-join, if it has one, doesn't wait: from the places that its join takes, whichever
/// join it is. What is loaded is within.
pub fn entry_comes()
    ensures { (s : State) (i : Ident) (k : ℕ) (x : TaskAt) → HoldsWithin s → task_numbered s i k ≡ Some x → IsTrue (is_entering s i x) → NoWait s i x → SomethingComes s (case_number i) }
{}

/// A task is left that may be: to the places that its split chooses, whichever split it is. What is loaded is within.
pub fn exit_comes()
    ensures { (s : State) (i : Ident) (k : ℕ) (x : TaskAt) → HoldsWithin s → task_numbered s i k ≡ Some x → IsTrue (is_leaving s i x) → SomethingComes s (case_number i) }
{}

/// An item goes on that may without a person: its child net begins, its child net or its worklet is at its end, or it is an empty task's.
pub fn item_comes()
    ensures { (s : State) (j : Ident) → IsTrue (item_goes_on s j) → SomethingComes s (case_number j) }
{}

/// A case is finished that is at its end.
pub fn case_end_comes()
    ensures { (s : State) (j : Ident) → IsTrue (case_ends s j) → SomethingComes s (case_number j) }
{}

/// A compensation goes that is at its end.
pub fn compensation_end_comes()
    ensures { (s : State) (j : Ident) → IsTrue (compensation_ends s j) → SomethingComes s (case_number j) }
{}

/// In a state that is well, a check that is due where nothing is at work passes, begins an exlet, or chooses a worklet.
pub fn check_comes<R: Reads>()
    ensures { (s : State) (j : Ident) → IsWell R.reader s → IsTrue (check_waits s j) → SomethingComes s (case_number j) }
{}

/// In a state that is well, a run that doesn't wait takes a primitive.
pub fn primitive_comes<R: Reads>()
    ensures { (s : State) (j : Ident) → IsWell R.reader s → IsTrue (run_is_at_work s j) → SomethingComes s (case_number j) }
{}

/// In a state that is well, something comes of itself in an urgent case: it isn't quiet.
pub fn urgent_moves<R: Reads>()
    ensures { (s : State) (n : ℕ) → IsWell R.reader s → IsTrue (urgent s n) → SomethingComes s n }
{}
