//! How the parts of a table make the whole, and that the event which is asked for is allowed. Each law is the contract of a function that
//! does nothing: it holds of all states.
ghost use Rattle.std.specs.Prelude.{ℕ, List, None, Option};
ghost use Rattle.yw_base.specs.declared.value.Value.{Value};
ghost use Rattle.yw_breaks.specs.Events.{IsAllowed};
ghost use Rattle.yw_breaks.specs.Tables.{Joins, add_front, add_rest, complete_front, complete_most, complete_rest};
ghost use Rattle.yw_breaks.specs.Tables.{enter_front, enter_rest, start_front, start_rest};
ghost use Rattle.yw_texts.specs.Texts.{reader};
ghost use Rattle.yw_state.specs.Broken.{First};
ghost use Rattle.yw_state.specs.Identity.{Ident};
ghost use Rattle.yw_state.specs.State.{State};
ghost use Rattle.yw_state.specs.Well.{IsWell};
ghost use Rattle.yw_state.specs.declared.command.Command.TheVariants as commands;
ghost use Rattle.yw_state.specs.declared.command.Given.{Given};
ghost use Rattle.yw_state.specs.declared.event.Event.{Event};
ghost use Rattle.yw_state.specs.declared.rule.Refusal.{Refusal};
ghost use Rattle.yw_task.specs.Completes.{complete_rest as shown_rest};
ghost use Rattle.yw_within.specs.Within.{HoldsWithin};

/// The table of a start.
pub fn start_joins()
    ensures { (s : State) (who : List ℕ) (j : Ident)
        → Joins reader s (commands.Start who j) j (start_front s who j) (start_rest s who j) }
{}

/// The table of an entry.
pub fn enter_joins()
    ensures { (s : State) (who : List ℕ) (i : Ident) (t : List ℕ)
        → Joins reader s (commands.Enter who i t) i (enter_front s who i t) (enter_rest s who i t) }
{}

/// The table of an addition.
pub fn add_joins()
    ensures { (s : State) (who : List ℕ) (i : Ident) (t : List ℕ) (value : Option Value)
        → Joins reader s (commands.Add who i t value) i (add_front s who i) (add_rest s who i t value) }
{}

/// The table of a completion.
pub fn complete_joins()
    ensures { (s : State) (who : List ℕ) (j : Ident) (gs : List Given)
        → Joins reader s (commands.Complete who j gs) j (complete_front s who j gs) (complete_rest s who j gs) }
{}

/// Of a completion what the call finds that is asked last (`ask_mapping` of yw_steps) is the first that is broken behind, where `complete_most`
/// finds nothing.
pub fn complete_last()
    ensures { (s : State) (who : List ℕ) (j : Ident) (gs : List Given) (found : Option Refusal) → First (complete_most s who j gs) None
        → First (shown_rest s who j gs) found → First (complete_rest s who j gs) found }
{}

/// The event that a start asks for is allowed, where no rule is broken. The state is well.
pub fn start_is_allowed()
    ensures { (s : State) (e : Event) → IsWell reader s → (who : List ℕ) (j : Ident) → IsAllowed s (commands.Start who j) e }
{}

/// The event that a completion asks for. The state is well.
pub fn complete_is_allowed()
    ensures { (s : State) (e : Event) → IsWell reader s → (who : List ℕ) (j : Ident) (gs : List Given)
        → IsAllowed s (commands.Complete who j gs) e }
{}

/// The event that an addition asks for. The state is well, and what is loaded is within.
pub fn add_is_allowed()
    ensures { (s : State) (e : Event) → IsWell reader s → HoldsWithin s → (who : List ℕ) (i : Ident) (t : List ℕ) (value : Option Value)
        → IsAllowed s (commands.Add who i t value) e }
{}

/// The event that a launch asks for. What is loaded is within.
pub fn launch_is_allowed()
    ensures { (s : State) (e : Event) → HoldsWithin s → (name : List ℕ) (gs : List Given) → IsAllowed s (commands.Launch name gs) e }
{}

/// The event that a cancel asks for.
pub fn cancel_is_allowed()
    ensures { (s : State) (e : Event) (j : Ident) → IsAllowed s (commands.Cancel j) e }
{}

/// The event that an advance asks for.
pub fn advance_is_allowed()
    ensures { (s : State) (e : Event) (j : Ident) → IsAllowed s (commands.Advance j) e }
{}
