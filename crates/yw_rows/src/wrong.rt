//! Events with one thing in them that isn't so: none of them is allowed, where the event of the row is.
ghost use Rattle.std.specs.Prelude.{◌≡◌, List, [], ◌∷◌, Option, None, Some, codes, false, pos, true};
ghost use Rattle.yw_base.specs.declared.value.Value.TheVariants as values;
ghost use Rattle.yw_expr.specs.Tree.{constant};
ghost use Rattle.yw_rows.specs.Loan.{deep, loan_row};
ghost use Rattle.yw_rows.specs.Mapping.{mapping_row};
ghost use Rattle.yw_rows.specs.Play.{Then, allowed_at};
ghost use Rattle.yw_rows.specs.Seq.{seq, seq_row};
ghost use Rattle.yw_rows.specs.Several.{several_row};
ghost use Rattle.yw_rows.specs.Written.{tree_place};
ghost use Rattle.yw_spec.specs.declared.spec.Place.TheVariants.{Between, Named};
ghost use Rattle.yw_state.specs.Allowed.{allows};
ghost use Rattle.yw_state.specs.Texts.{a_spec, a_test, nothing};
ghost use Rattle.yw_state.specs.declared.event.Event.TheVariants as events;
ghost use Rattle.yw_state.specs.declared.tree.Conclusion.TheVariants.{Worklet};
ghost use Rattle.yw_state.specs.declared.tree.Primitive.TheVariants as primitives;
ghost use Rattle.yw_state.specs.declared.tree.TreeKind.TheVariants as kinds;

/// A role twice; a specification under another name, one that is loaded, and a load of nothing.
pub fn before_cases()
    ensures twice { allowed_at seq_row 0 (events.Person (codes "ann") (codes "clerk" ∷ codes "clerk" ∷ [])) ≡ Some false }
    ensures loads { Then seq_row 1 (λ s. allows s (events.Load (codes "seq") []) (a_spec seq) ≡ true) }
    ensures name { Then seq_row 1 (λ s. allows s (events.Load (codes "sequel") []) (a_spec seq) ≡ false) }
    ensures again { Then seq_row 2 (λ s. allows s (events.Load (codes "seq") []) (a_spec seq) ≡ false) }
    ensures nothing { Then seq_row 1 (λ s. allows s (events.Load (codes "seq") []) nothing ≡ false) }
{}

/// A rule with another number, at a node that isn't there, at the side where node 0 is false, with a worklet that isn't loaded, or at
/// a tree that a task doesn't have.
pub fn rule()
    ensures ok { Then loan_row 6 (λ s. allows s (events.AddRule (tree_place (codes "loan") (Some (codes "board")) (Some (codes "assess")) kinds.Select) 0 true [] (Worklet (codes "deep")) 1) (a_test (constant (values.Bool true))) ≡ true) }
    ensures number { Then loan_row 6 (λ s. allows s (events.AddRule (tree_place (codes "loan") (Some (codes "board")) (Some (codes "assess")) kinds.Select) 0 true [] (Worklet (codes "deep")) 2) (a_test (constant (values.Bool true))) ≡ false) }
    ensures node { Then loan_row 6 (λ s. allows s (events.AddRule (tree_place (codes "loan") (Some (codes "board")) (Some (codes "assess")) kinds.Select) 1 true [] (Worklet (codes "deep")) 1) (a_test (constant (values.Bool true))) ≡ false) }
    ensures side { Then loan_row 6 (λ s. allows s (events.AddRule (tree_place (codes "loan") (Some (codes "board")) (Some (codes "assess")) kinds.Select) 0 false [] (Worklet (codes "deep")) 1) (a_test (constant (values.Bool true))) ≡ false) }
    ensures worklet { Then loan_row 6 (λ s. allows s (events.AddRule (tree_place (codes "loan") (Some (codes "board")) (Some (codes "assess")) kinds.Select) 0 true [] (Worklet (codes "dip")) 1) (a_test (constant (values.Bool true))) ≡ false) }
    ensures kind { Then loan_row 6 (λ s. allows s (events.AddRule (tree_place (codes "loan") (Some (codes "main")) (Some (codes "review")) kinds.Select) 0 true [] (Worklet (codes "deep")) 1) (a_test (constant (values.Bool true))) ≡ false) }
{}

/// A launch with another number, with a value of a variable into which none comes, with one of another sort, or with one too few.
pub fn launch()
    ensures ok { allowed_at loan_row 8 (events.Launch 1 (codes "loan") (values.Int (pos 0) ∷ values.Texts [] ∷ values.Int (pos 0) ∷ [])) ≡ Some true }
    ensures number { allowed_at loan_row 8 (events.Launch 2 (codes "loan") (values.Int (pos 0) ∷ values.Texts [] ∷ values.Int (pos 0) ∷ [])) ≡ Some false }
    ensures local { allowed_at loan_row 8 (events.Launch 1 (codes "loan") (values.Int (pos 5) ∷ values.Texts [] ∷ values.Int (pos 0) ∷ [])) ≡ Some false }
    ensures sort { allowed_at loan_row 8 (events.Launch 1 (codes "loan") (values.Int (pos 0) ∷ values.Ints [] ∷ values.Int (pos 0) ∷ [])) ≡ Some false }
    ensures few { allowed_at loan_row 8 (events.Launch 1 (codes "loan") (values.Int (pos 0) ∷ values.Texts [] ∷ [])) ≡ Some false }
{}

/// An entry with another first number, with another count, from a place that isn't one of the net, or of a task that is active.
pub fn enter()
    ensures ok { allowed_at several_row 3 (events.Enter (1 ∷ []) (codes "m") (Named (codes "i") ∷ []) 2 2) ≡ Some true }
    ensures number { allowed_at several_row 3 (events.Enter (1 ∷ []) (codes "m") (Named (codes "i") ∷ []) 3 2) ≡ Some false }
    ensures count { allowed_at several_row 3 (events.Enter (1 ∷ []) (codes "m") (Named (codes "i") ∷ []) 2 1) ≡ Some false }
    ensures place { allowed_at several_row 3 (events.Enter (1 ∷ []) (codes "m") (Named (codes "x") ∷ []) 2 2) ≡ Some false }
    ensures active { allowed_at several_row 4 (events.Enter (1 ∷ []) (codes "m") (Named (codes "i") ∷ []) 4 2) ≡ Some false }
{}

/// A start of an item that is begun; a completion of one that isn't, with a value of another sort, or with one too many; an item added
/// with a value of another sort or another number.
pub fn items()
    ensures start { allowed_at seq_row 5 (events.Start (1 ∷ 2 ∷ []) (codes "ann")) ≡ Some false }
    ensures early { allowed_at seq_row 4 (events.Complete (1 ∷ 2 ∷ []) []) ≡ Some false }
    ensures sort { allowed_at mapping_row 5 (events.Complete (1 ∷ 2 ∷ []) (values.Bool true ∷ [])) ≡ Some false }
    ensures many { allowed_at mapping_row 5 (events.Complete (1 ∷ 2 ∷ []) (values.Int (pos 5) ∷ values.Int (pos 5) ∷ [])) ≡ Some false }
    ensures added { allowed_at several_row 4 (events.Add (1 ∷ []) (codes "m") (values.Text (codes "r")) 4) ≡ Some true }
    ensures element { allowed_at several_row 4 (events.Add (1 ∷ []) (codes "m") (values.Int (pos 1)) 4) ≡ Some false }
    ensures number { allowed_at several_row 4 (events.Add (1 ∷ []) (codes "m") (values.Text (codes "r")) 5) ≡ Some false }
{}

/// An exit before its items are completed, and one to the place of the other branch: two votes of two lead to the payment.
pub fn exit()
    ensures early { allowed_at seq_row 5 (events.Exit (1 ∷ []) (codes "a") (Between (codes "a") (codes "b") ∷ [])) ≡ Some false }
    ensures other { allowed_at several_row 8 (events.Exit (1 ∷ []) (codes "m") (Named (codes "o") ∷ [])) ≡ Some false }
    ensures finish { allowed_at seq_row 6 (events.Finish 1) ≡ Some false }
    ensures cancel { allowed_at seq_row 6 (events.Cancel 2) ≡ Some false }
{}

/// A raise of a check that isn't raised, of another node or with another number; a primitive that isn't the first; a compensation that
/// isn't at its end; and none of these where there is no run.
pub fn runs()
    ensures ok { allowed_at loan_row 21 (events.Raise (1 ∷ 8 ∷ []) kinds.Timeout 1 9) ≡ Some true }
    ensures kind { allowed_at loan_row 21 (events.Raise (1 ∷ 8 ∷ []) kinds.Abort 1 9) ≡ Some false }
    ensures node { allowed_at loan_row 21 (events.Raise (1 ∷ 8 ∷ []) kinds.Timeout 2 9) ≡ Some false }
    ensures number { allowed_at loan_row 21 (events.Raise (1 ∷ 8 ∷ []) kinds.Timeout 1 10) ≡ Some false }
    ensures select { allowed_at loan_row 12 (events.Raise (1 ∷ 3 ∷ 4 ∷ []) kinds.Select 1 5) ≡ Some false }
    ensures waiting { allowed_at loan_row 22 (events.Prim (1 ∷ 8 ∷ 9 ∷ []) primitives.ContinueItem) ≡ Some false }
    ensures not_ended { allowed_at loan_row 22 (events.Compensated (1 ∷ 8 ∷ 9 ∷ [])) ≡ Some false }
    ensures no_run { allowed_at loan_row 21 (events.Prim (1 ∷ 8 ∷ 9 ∷ []) primitives.SuspendItem) ≡ Some false }
    ensures suspended { allowed_at loan_row 22 (events.Suspend (1 ∷ 8 ∷ [])) ≡ Some false }
    ensures nothing { allowed_at loan_row 22 (events.Suspend (1 ∷ 8 ∷ 9 ∷ [])) ≡ Some false }
{}
