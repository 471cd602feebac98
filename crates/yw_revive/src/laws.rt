//! Laws of what is made of rows. Each is the contract of a function that does nothing.
ghost use Rattle.std.specs.Prelude.{◌≡◌, ◌++◌, List, length, ℕ};
ghost use Rattle.yw_revive.specs.Taken.{AreOnce, NoneOf, taken};
ghost use Rattle.yw_spec.specs.declared.spec.Place.{Place};
ghost use Rattle.yw_state.specs.Identity.{Ident};
ghost use Rattle.yw_states.specs.States.{place_rows};
ghost use Rattle.yw_states.specs.declared.cases.TokenRow.{TokenRow};

/// The counts that are taken from rows have a count for each place, and their rows, with those that are left, are
/// these rows: none is lost.
pub fn tokens_have_rows()
    ensures { (j : Ident) (ps : List Place) (rows : List TokenRow)
        → (length (taken j ps rows).0 ≡ length ps) × (place_rows j ps (taken j ps rows).0 ++ (taken j ps rows).1 ≡ rows) }
{}

/// Of the rows of a net's counts, with others after them that are of other nets, these counts are taken, and the
/// others are left.
pub fn rows_have_tokens()
    ensures { (j : Ident) (ps : List Place) (counts : List ℕ) (others : List TokenRow) → AreOnce ps → NoneOf j others
        → length counts ≡ length ps → taken j ps (place_rows j ps counts ++ others) ≡ (counts, others) }
{}
