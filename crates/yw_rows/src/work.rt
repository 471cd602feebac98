//! What a person may do.
ghost use Rattle.std.specs.Prelude.{List, [], ◌∷◌, codes};
ghost use Rattle.yw_rows.specs.Loan.{loan_row};
ghost use Rattle.yw_rows.specs.Mapping.{mapping_row};
ghost use Rattle.yw_rows.specs.OrJoin.{or_row};
ghost use Rattle.yw_rows.specs.Seq.{seq_row};
ghost use Rattle.yw_rows.specs.Several.{empty_row};
ghost use Rattle.yw_rows.specs.Urgent.{to_choose};
ghost use Rattle.yw_rows.specs.Work.{MayAt, MayNotAt};
ghost use Rattle.yw_state.specs.declared.answer.What.TheVariants.{Complete, Enter, Start};

/// The first task of two is entered, its item started and then completed, each in its turn and by a person who is known.
pub fn in_turn()
    ensures enter { MayAt seq_row 3 (codes "ann") (1 ∷ []) (codes "a") Enter }
    ensures second { MayNotAt seq_row 3 (codes "ann") (1 ∷ []) (codes "b") Enter }
    ensures unknown { MayNotAt seq_row 3 (codes "zoe") (1 ∷ []) (codes "a") Enter }
    ensures again { MayNotAt seq_row 4 (codes "ann") (1 ∷ []) (codes "a") Enter }
    ensures start { MayAt seq_row 4 (codes "ann") (1 ∷ 2 ∷ []) (codes "a") Start }
    ensures early { MayNotAt seq_row 4 (codes "ann") (1 ∷ 2 ∷ []) (codes "a") Complete }
    ensures complete { MayAt seq_row 5 (codes "ann") (1 ∷ 2 ∷ []) (codes "a") Complete }
{}

/// A person with the role may pay, and one without it mayn't; a task that the server enters is nobody's work, and an item that is held
/// isn't either.
pub fn roles()
    ensures teller { MayAt loan_row 20 (codes "ann") (1 ∷ []) (codes "pay") Enter }
    ensures officer { MayNotAt loan_row 20 (codes "bob") (1 ∷ []) (codes "pay") Enter }
    ensures by_itself { MayNotAt loan_row 12 (codes "bob") (1 ∷ 3 ∷ []) (codes "assess") Enter }
    ensures held { MayNotAt loan_row 22 (codes "ann") (1 ∷ 8 ∷ []) (codes "pay") Start }
    ensures another { MayNotAt loan_row 18 (codes "bob") (1 ∷ 3 ∷ 7 ∷ []) (codes "vote") Complete }
    ensures own { MayAt loan_row 18 (codes "bob") (1 ∷ 3 ∷ 6 ∷ []) (codes "vote") Complete }
{}

/// Work is told also where the values would break a rule, and where something is still to come of itself in the case.
pub fn told_all_the_same()
    ensures count { MayAt empty_row 3 (codes "ann") (1 ∷ []) (codes "m") Enter }
    ensures output { MayAt mapping_row 5 (codes "ann") (1 ∷ 2 ∷ []) (codes "a") Complete }
    ensures urgent { MayAt to_choose 10 (codes "ann") (1 ∷ []) (codes "k") Enter }
{}

/// An OR-join that waits is nobody's work, and is somebody's once it doesn't.
pub fn or_join()
    ensures waits { MayNotAt or_row 10 (codes "ann") (1 ∷ []) (codes "j") Enter }
    ensures goes_on { MayAt or_row 13 (codes "ann") (1 ∷ []) (codes "j") Enter }
{}
