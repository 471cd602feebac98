//! Laws of a state's bytes. Each is the contract of a function that does nothing.
ghost use Rattle.std.specs.Prelude.{◌≡◌, List, ℕ};
ghost use Rattle.yw_state.specs.State.{State};
ghost use Rattle.yw_state.specs.Texts.{IsOne};
ghost use Rattle.yw_state.specs.Well.{IsWell};
ghost use Rattle.yw_states.specs.Rising.{KeysAscend};
ghost use Rattle.yw_states.specs.States.{IsState, ReadsNamed, rows_of};

use yw_state::laws::reads::Reads;

/// Two states that are well and have the same rows are the same.
pub fn rows_decide_states<R: Reads>()
    ensures { IsOne R.reader → ReadsNamed R.reader
        → (s t : State) → IsWell R.reader s → IsWell R.reader t → rows_of s ≡ rows_of t → s ≡ t }
{}

/// Bytes are those of one state at most.
pub fn bytes_decide_states<R: Reads>()
    ensures { IsOne R.reader → ReadsNamed R.reader → (s t : State) (bytes : List ℕ)
        → IsState R.reader s bytes → IsState R.reader t bytes → s ≡ t }
{}

/// A state has one text of bytes at most.
pub fn states_decide_bytes<R: Reads>()
    ensures { (s : State) (bytes other : List ℕ)
        → IsState R.reader s bytes → IsState R.reader s other → bytes ≡ other }
{}

/// The rows of a state that is well are in order of their keys.
pub fn keys_of_rows_ascend<R: Reads>()
    ensures { (s : State) → IsWell R.reader s → KeysAscend (rows_of s) }
{}
