// The work of persons: to enter a task, to start and complete its items, and to add one.
ghost use Rattle.std.specs.Prelude.{ℕ, List, Option};
ghost use Rattle.yw_asked.specs.Asked.{HasEventUnbroken};
ghost use Rattle.yw_base.specs.declared.value.Value.{Value};
ghost use Rattle.yw_state.specs.Identity.{Ident};
ghost use Rattle.yw_state.specs.State.{State};
ghost use Rattle.yw_state.specs.Well.{IsWell};
ghost use Rattle.yw_state.specs.declared.command.Command.TheVariants as commands;
ghost use Rattle.yw_state.specs.declared.command.Given.{Given};
ghost use Rattle.yw_within.specs.Within.{HoldsWithin};

use yw_state::laws::reads::Reads;

/// A person who breaks no rule may enter the task, from some places. The state is well, and what is loaded is within.
pub fn enter_has_event<R: Reads>()
    ensures { (s : State) (who : List ℕ) (i : Ident) (t : List ℕ) → IsWell R.reader s → HoldsWithin s → HasEventUnbroken R.reader s (commands.Enter who i t) }
{}

/// A person who breaks no rule may start the item. The state is well.
pub fn start_has_event<R: Reads>()
    ensures { (s : State) (who : List ℕ) (j : Ident) → IsWell R.reader s → HasEventUnbroken R.reader s (commands.Start who j) }
{}

/// A person who breaks no rule may complete the item, with the values that the command gives. The state is well.
pub fn complete_has_event<R: Reads>()
    ensures { (s : State) (who : List ℕ) (j : Ident) (gs : List Given) → IsWell R.reader s → HasEventUnbroken R.reader s (commands.Complete who j gs) }
{}

/// A person who breaks no rule may add the item, for the element that the command gives. The state is well, and what is loaded is within.
pub fn add_has_event<R: Reads>()
    ensures { (s : State) (who : List ℕ) (i : Ident) (t : List ℕ) (value : Option Value) → IsWell R.reader s → HoldsWithin s → HasEventUnbroken R.reader s (commands.Add who i t value) }
{}
