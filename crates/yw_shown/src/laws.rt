//! A walk over the entries of a case shows all that stands in it. Each law is the contract of a function that does nothing.
ghost use Rattle.std.specs.Prelude.{◌≡◌, ◌+◌, ◌<◌, ℕ, [], List, None, get_or, length, take};
ghost use Rattle.yw_shown.specs.Shows.{AddsEntry, Entry, ShowsEntries, no_rows};
ghost use Rattle.yw_state.specs.Answers.{IsShown, of_case};
ghost use Rattle.yw_state.specs.State.{State};
ghost use Rattle.yw_state.specs.declared.answer.Shown.{Shown};
ghost use Rattle.yw_tree.specs.Cases.{case_at};
ghost use Rattle.yw_tree.specs.Forest.{IsForest, sites_of};
ghost use Rattle.yw_tree.specs.declared.Forest.{Forest};

/// Nothing is shown of no entry.
pub fn none_is_shown()
    ensures { (s : State) → ShowsEntries s [] no_rows }
{}

/// What the next entry of a case adds is shown with those before it.
pub fn next_is_shown()
    ensures { (s : State) (n i : ℕ) (e : Entry) (old new : Shown) → i < length (of_case s n) → e ≡ get_or (of_case s n) i e
        → ShowsEntries s (take i (of_case s n)) old → AddsEntry s e old new → ShowsEntries s (take (i + 1) (of_case s n)) new }
{}

/// What is shown of all its entries is what a query is told of a case.
pub fn all_is_shown()
    ensures { (s : State) (n : ℕ) (x : Shown) → ShowsEntries s (of_case s n) x → IsShown s n x }
{}

/// Where there is no case of a number, nothing is shown.
pub fn no_case_is_shown()
    ensures { (names : ℕ → List ℕ) (f : Forest) (s : State) (n : ℕ) → IsForest f → s.sites ≡ sites_of names f → case_at n f.cases ≡ None
        → IsShown s n no_rows }
{}
