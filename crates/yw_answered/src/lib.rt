//! No line lacks an answer in a state that is well, whichever words are built. Each command breaks a first rule or none, and one that breaks
//! none has an entry: one law for all commands. A state that is well stays so over what comes of lines, so that no lines lack a run. Each law
//! is the contract of a function that does nothing.
#![tactic(auto)]

ghost use Rattle.std.specs.Prelude.{◌≡◌, ◌+◌, ◌++◌, ℕ, Bool, List, None, Some, length};
ghost use Rattle.yw_answered.specs.Answered.{CommandHasAnswer, FindsRule, LineHasAnswer, QueryHasAnswer, ReadsAll};
ghost use Rattle.yw_answered.specs.Sessions.{SameButNumbers};
ghost use Rattle.yw_model.specs.Run.{Answers, EntriesLead, HasRun, Run, Step, taken_by};
ghost use Rattle.yw_texts.specs.Lacking.{CannotLack};
ghost use Rattle.yw_texts.specs.Texts.{reader};
ghost use Rattle.yw_lines.specs.Meaning.{IsProper};
ghost use Rattle.yw_lines.specs.declared.word.Word.{Word};
ghost use Rattle.yw_sound.specs.Sound.{ReadsSound};
ghost use Rattle.yw_state.specs.Apart.{SameCases, SameElsewhere};
ghost use Rattle.yw_state.specs.Automatic.{case_of};
ghost use Rattle.yw_state.specs.Broken.{Breaks};
ghost use Rattle.yw_state.specs.Events.{LeadAll};
ghost use Rattle.yw_state.specs.Legal.{IsLegal};
ghost use Rattle.yw_state.specs.State.{State, opening};
ghost use Rattle.yw_state.specs.Texts.{IsOne};
ghost use Rattle.yw_state.specs.Well.{IsWell};
ghost use Rattle.yw_state.specs.declared.command.Command.{Command};
ghost use Rattle.yw_state.specs.declared.command.Query.{Query};
ghost use Rattle.yw_state.specs.declared.event.Event.{Event};
ghost use Rattle.yw_turns.specs.Turns.{HasEntry};
ghost use Rattle.yw_within.specs.Within.{HoldsWithin};

use yw_state::laws::reads::Reads;

/// No text lacks a reading: as a specification or its first fault, and as a condition over some names or its fault.
pub fn texts_are_read()
    ensures { ReadsAll reader }
{}

/// And none has two: what is loaded and what a condition tests are told by the text.
pub fn texts_are_read_once()
    ensures { IsOne reader }
{}

/// For each command the first rule that it breaks can't be lacking, or that it breaks none.
pub fn commands_are_judged<R: Reads>()
    ensures { (s : State) (c : Command) → FindsRule R.reader s c }
{}

/// A command that breaks no rule can't be lacking an entry, whichever it is: in a state that is well, where what is loaded is within, no text
/// lacks a reading, and the command is as a line gives it.
pub fn unbroken_has_entry<R: Reads>()
    ensures { ReadsAll R.reader → (s : State) (c : Command) → IsWell R.reader s → HoldsWithin s → IsProper c → Breaks R.reader s c None → CannotLack (HasEntry R.reader s c) }
{}

/// In a state that is well, a command that is as a line gives it has an answer.
pub fn command_has_answer()
    ensures { (s : State) (n : ℕ) (c : Command) → IsWell reader s → IsProper c → CommandHasAnswer s n c }
{}

/// In a state that is well, a query has an answer, and it has one, whatever stands: all that is told can be found and put in order.
pub fn query_has_answer()
    ensures { (s : State) (n : ℕ) (q : Query) → IsWell reader s → QueryHasAnswer s n q }
{}

/// In a state that is well, each line has an answer, whichever words are built.
pub fn line_has_answer()
    ensures { (built : List Word) (s : State) (n : ℕ) (line : List ℕ) → IsWell reader s → LineHasAnswer built s n line }
{}

/// Each state to which allowed events lead from the opening is well. What they load are accepted texts.
pub fn reached_is_well()
    ensures { (es : List Event) (t : State) → LeadAll reader opening es t → IsWell reader t }
{}

/// What is loaded in each such state is within.
pub fn reached_holds_within()
    ensures { (es : List Event) (t : State) → LeadAll reader opening es t → HoldsWithin t }
{}

/// An entry that may answer a command of a case leaves what stands in other cases and how they ended, and specifications, persons and rules.
pub fn entry_leaves_other_cases<R: Reads>()
    ensures { ReadsSound R.reader → (s t : State) (c : Command) (entry : List Event) (quiet : Bool) (n : ℕ) → IsWell R.reader s
        → (legal : IsLegal R.reader s c entry quiet t) → case_of legal.first ≡ Some n → SameElsewhere n s t }
{}

/// An entry that answers a command without a case, a person or a specification, leaves all that stands in cases, how cases ended, and the
/// number that is drawn next.
pub fn entry_without_case_leaves_cases<R: Reads>()
    ensures { (s t : State) (c : Command) (entry : List Event) (quiet : Bool)
        → (legal : IsLegal R.reader s c entry quiet t) → case_of legal.first ≡ None → SameCases s t }
{}

/// The entries that a run takes lead to its state: the events of each are allowed in their turn.
pub fn taken_lead()
    ensures { (s t : State) (n : ℕ) (lines : List (List ℕ)) (steps : List Step) → Run s n lines steps t → EntriesLead reader s (taken_by steps) t }
{}

/// Two sessions are one run but for the line numbers: where a run leads to a state and another goes on from it, numbered anew, the lines of
/// both have a run. It takes the same entries and says the same, but that replies name the lines by their numbers among all.
pub fn sessions_join()
    ensures { (s m t : State) (n k : ℕ) (lines more : List (List ℕ)) (steps later : List Step) → Run s n lines steps m → Run m k more later t
        → (others : List Step) × SameButNumbers k (n + length lines) later others × Run s n (lines ++ more) (steps ++ others) t }
{}

/// A state that is well stays so over what comes of a line.
pub fn answers_keep_well()
    ensures { (s t : State) (n : ℕ) (line : List ℕ) (step : Step) → IsWell reader s → Answers s n line step t → IsWell reader t }
{}

/// It stays so over what comes of lines.
pub fn run_keeps_well()
    ensures { (s t : State) (n : ℕ) (lines : List (List ℕ)) (steps : List Step) → IsWell reader s → Run s n lines steps t → IsWell reader t }
{}

/// In a state that is well, lines can't be lacking a run.
pub fn lines_have_run()
    ensures { (s : State) (n : ℕ) (lines : List (List ℕ)) → IsWell reader s → HasRun s n lines }
{}
