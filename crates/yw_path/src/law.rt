//! That what is kept of paths says when an OR-join waits.
ghost use Rattle.std.specs.Prelude.{◌↔◌, List, ℕ, Bool};
ghost use Rattle.yw_mark.specs.Tokens.{HasMarks};
ghost use Rattle.yw_path.specs.Waiting.{HasActive, MayFill};
ghost use Rattle.yw_state.specs.Identity.{Ident};
ghost use Rattle.yw_state.specs.Joins.{Waits};
ghost use Rattle.yw_state.specs.State.{State, TaskAt};

/// An OR-join waits exactly where one of its input places is empty and a token may still come to it.
pub fn waits_while_tokens_may_come()
    ensures { (s : State) (i : Ident) (x : TaskAt) (marks : List ℕ) (actives : List Bool) → HasMarks s i marks → HasActive s i x.within.net actives
        → Waits s i x ↔ MayFill x.within.net x.task marks actives }
{}
