//! What the rows show is what a query is told.
ghost use Rattle.std.specs.Prelude.{◌≡◌, ℕ, List, Some};
ghost use Rattle.yw_rows.specs.Play.{Entry, begun, shown_at};
ghost use Rattle.yw_state.specs.Answers.{IsShown};
ghost use Rattle.yw_state.specs.State.{State};
ghost use Rattle.yw_state.specs.declared.answer.Shown.{Shown};

/// What is shown of a case after some entries of a row is what a query is told of it then: exactly its tokens, in order.
pub fn shown_is_told()
    ensures { (row : List Entry) (k n : ℕ) (x : Shown) (s : State) → begun row k ≡ Some s → shown_at row k n ≡ Some x → IsShown s n x }
{}
