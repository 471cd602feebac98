//! What the identities of a case's entries are in a state that has the forest's map. Each law is the contract of a function that does
//! nothing.
ghost use Rattle.std.specs.Prelude.{◌≡◌, ℕ, List, None, Some};
ghost use Rattle.yw_idents.specs.Idents.{AreAllIn, idents_of};
ghost use Rattle.yw_state.specs.Identity.{Ident};
ghost use Rattle.yw_base.specs.Identity.{case_number};
ghost use Rattle.yw_state.specs.State.{Site, State};
ghost use Rattle.yw_state.specs.Well.{Stands};
ghost use Rattle.yw_tree.specs.Cases.{case_at};
ghost use Rattle.yw_tree.specs.Entries.{case_entries};
ghost use Rattle.yw_tree.specs.Forest.{IsForest, sites_of};
ghost use Rattle.yw_tree.specs.declared.Case.{Case};
ghost use Rattle.yw_tree.specs.declared.Forest.{Forest};

/// They are those of all that stands in the case, and no others.
pub fn all_are_listed()
    ensures { (names : ℕ → List ℕ) (f : Forest) (s : State) (n : ℕ) (c : Case) → IsForest f → s.sites ≡ sites_of names f
        → case_at n f.cases ≡ Some c → AreAllIn s n (idents_of (case_entries names c)) }
{}

/// Where there is no case of a number, nothing stands in it.
pub fn nothing_stands()
    ensures { (names : ℕ → List ℕ) (f : Forest) (s : State) (n : ℕ) → IsForest f → s.sites ≡ sites_of names f
        → case_at n f.cases ≡ None → (j : Ident) (x : Site) → Stands s j x → case_number j ≡ n → ⊥ }
{}
