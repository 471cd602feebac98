// When a join has its tokens.
ghost use Rattle.std.specs.Prelude.{ℕ, ◌↔◌, List, IsTrue};
ghost use Rattle.yw_base.specs.declared.gate.Gate.{Gate};
ghost use Rattle.yw_state.specs.Identity.{Ident};
ghost use Rattle.yw_state.specs.Joins.{has_tokens, joins};
ghost use Rattle.yw_state.specs.State.{State};

/// A join has the tokens that it needs exactly where it can take from some places.
pub fn tokens_are_taken()
    ensures { (g : Gate) (s : State) (i : Ident) (before : List ℕ) → IsTrue (has_tokens g s i before) ↔ ((taken : List ℕ) × IsTrue (joins g s i before taken)) }
{}
