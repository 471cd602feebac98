// What begins, ends and holds cases, and what is kept beside them.
ghost use Rattle.std.specs.Prelude.{◌≡◌, true, ℕ, List, Ok};
ghost use Rattle.yw_asked.specs.Asked.{HasEvent, HasEventUnbroken};
ghost use Rattle.yw_spec.specs.declared.spec.Spec.{Spec};
ghost use Rattle.yw_state.specs.Allowed.{are_roles};
ghost use Rattle.yw_state.specs.Identity.{Ident};
ghost use Rattle.yw_state.specs.State.{State};
ghost use Rattle.yw_state.specs.declared.command.Command.TheVariants as commands;
ghost use Rattle.yw_state.specs.declared.command.Given.{Given};
ghost use Rattle.yw_within.specs.Within.{HoldsWithin};

use yw_state::laws::reads::Reads;

/// A case may be launched where no rule is broken, with the values that the command gives. What is loaded is within.
pub fn launch_has_event<R: Reads>()
    ensures { (s : State) (name : List ℕ) (gs : List Given) → HoldsWithin s → HasEventUnbroken R.reader s (commands.Launch name gs) }
{}

/// A case may be cancelled where no rule is broken.
pub fn cancel_has_event<R: Reads>()
    ensures { (s : State) (j : Ident) → HasEventUnbroken R.reader s (commands.Cancel j) }
{}

/// A case may be gone on with where no rule is broken.
pub fn advance_has_event<R: Reads>()
    ensures { (s : State) (j : Ident) → HasEventUnbroken R.reader s (commands.Advance j) }
{}

/// A case or an item may be suspended where no rule is broken.
pub fn suspend_has_event<R: Reads>()
    ensures { (s : State) (j : Ident) → HasEventUnbroken R.reader s (commands.Suspend j) }
{}

/// A case or an item may be continued where no rule is broken.
pub fn continue_has_event<R: Reads>()
    ensures { (s : State) (j : Ident) → HasEventUnbroken R.reader s (commands.Continue j) }
{}

/// A person's roles may be set to names that are roles: at most 64, none twice.
pub fn person_has_event<R: Reads>()
    ensures { (s : State) (name : List ℕ) (roles : List (List ℕ)) → are_roles roles ≡ true → HasEvent R.reader s (commands.Person name roles) }
{}

/// A specification may be loaded that the text says, where no rule is broken.
pub fn load_has_event<R: Reads>()
    ensures { (s : State) (text : List ℕ) (spec : Spec) → R.reader.spec text (Ok spec) → HasEventUnbroken R.reader s (commands.Load text) }
{}
