//! The line of an accepted command tells what was done: two entries that may answer one command in one state, and whose lines are
//! equal, are equal. So a reply says the whole entry to whoever knows the state and the command. Each law is the contract of a
//! function that does nothing.
#![tactic(auto)]

ghost use Rattle.std.specs.Prelude.{map, ◌≡◌, ℕ, Bool, List};
ghost use Rattle.yw_lines.specs.EventTexts.{step_text};
ghost use Rattle.yw_lines.specs.Replies.{done_line};
ghost use Rattle.yw_texts.specs.Texts.{reader};
ghost use Rattle.yw_sound.specs.Sound.{ReadsSound};
ghost use Rattle.yw_state.specs.Automatic.{Comes};
ghost use Rattle.yw_state.specs.Events.{LeadAll};
ghost use Rattle.yw_state.specs.State.{State, opening};
ghost use Rattle.yw_state.specs.Texts.{IsOne};
ghost use Rattle.yw_state.specs.Well.{IsWell, NumbersFit};
ghost use Rattle.yw_state.specs.declared.event.Event.{Event};
ghost use Rattle.yw_told.specs.Told.{LinesTellEntries};
ghost use Rattle.yw_within.specs.Within.{HoldsWithin, ReadsWithin};

use yw_state::laws::reads::Reads;

/// Equal lines under one number have equal texts of steps, and the same flag, whatever bytes the texts have.
pub fn lines_tell_steps()
    ensures { (n : ℕ) (es fs : List Event) (q p : Bool) → done_line n es q ≡ done_line n fs p → (map step_text es ≡ map step_text fs) × (q ≡ p) }
{}

/// In a state whose numbers fit, and whose specifications are within, the text of a step that comes of itself in a case tells the
/// event.
pub fn step_tells_event()
    ensures { (s : State) (n : ℕ) (e f : Event) → NumbersFit s → HoldsWithin s → Comes s n e → Comes s n f → step_text e ≡ step_text f → e ≡ f }
{}

/// In a state that is well the line of an accepted command tells its entry, the flag and the state after it, where specifications
/// are sound and within, and a text is read in one way.
pub fn lines_tell_entries<R: Reads>()
    ensures { ReadsSound R.reader → ReadsWithin R.reader → IsOne R.reader → (s : State) → IsWell R.reader s → LinesTellEntries R.reader s }
{}

/// In each state to which allowed events lead from the opening the line of an accepted command tells its entry, the flag and the
/// state after it. What the events load are accepted texts.
pub fn reached_lines_tell_entries()
    ensures { (es : List Event) (s : State) → LeadAll reader opening es s → LinesTellEntries reader s }
{}
