//! What comes of itself after a command's event ends: the case gets quiet, or the budget is spent. So a command whose event is allowed has an
//! entry, and the events of an entry lead to its state. Each law is the contract of a function that does nothing.
#![tactic(auto)]

ghost use Rattle.std.specs.Prelude.{◌≡◌, ◌∷◌, ℕ, Bool, List, None, Some};
ghost use Rattle.yw_texts.specs.Lacking.{CannotLack};
ghost use Rattle.yw_state.specs.Automatic.{case_of};
ghost use Rattle.yw_state.specs.Broken.{Breaks};
ghost use Rattle.yw_state.specs.Events.{LeadAll, Leads};
ghost use Rattle.yw_state.specs.Legal.{IsAsked, IsLegal};
ghost use Rattle.yw_state.specs.State.{State};
ghost use Rattle.yw_state.specs.declared.command.Command.{Command};
ghost use Rattle.yw_state.specs.declared.event.Event.{Event};
ghost use Rattle.yw_turns.specs.Turns.{HasEntry, HasTurns, RunsOut};

use yw_state::laws::reads::Reads;

/// From any state it can't be lacking that events come of themselves until the case is quiet, or until the budget is spent.
pub fn turns_end()
    ensures { (s : State) (n : ℕ) → CannotLack (HasTurns s n) }
{}

/// The event that a command asks for, and after it what comes of itself in its case until that is quiet or the budget is spent, are an entry
/// that may answer the command, where it breaks no rule.
pub fn turns_are_legal<R: Reads>()
    ensures { (s mid t : State) (c : Command) (e : Event) (n : ℕ) (events : List Event) (quiet : Bool) → Breaks R.reader s c None → IsAsked R.reader s c e → Leads R.reader s e mid → case_of e ≡ Some n → RunsOut mid n events quiet t → IsLegal R.reader s c (e ∷ events) quiet t }
{}

/// The events of an entry that may answer a command are allowed in their turn, and lead to its state.
pub fn legal_entry_leads<R: Reads>()
    ensures { (s : State) (c : Command) (entry : List Event) (quiet : Bool) (t : State) → IsLegal R.reader s c entry quiet t → LeadAll R.reader s entry t }
{}

/// A command that breaks no rule can't be lacking an entry, where an event that it asks for is allowed.
pub fn event_has_entry<R: Reads>()
    ensures { (s mid : State) (c : Command) (e : Event) → Breaks R.reader s c None → IsAsked R.reader s c e → Leads R.reader s e mid → CannotLack (HasEntry R.reader s c) }
{}
