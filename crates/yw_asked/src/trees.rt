// Rules, and what they are asked about from outside.
ghost use Rattle.std.specs.Prelude.{◌≡◌, true, ℕ, Bool, List, Ok, Some};
ghost use Rattle.yw_asked.specs.Asked.{HasEventUnbroken};
ghost use Rattle.yw_expr.specs.Tree.{Tree};
ghost use Rattle.yw_spec.specs.declared.spec.Spec.{Spec};
ghost use Rattle.yw_state.specs.Allowed.{is_raised};
ghost use Rattle.yw_state.specs.Identity.{Ident};
ghost use Rattle.yw_state.specs.NewRule.{tree_scope};
ghost use Rattle.yw_state.specs.State.{State, spec_called};
ghost use Rattle.yw_state.specs.declared.command.Command.TheVariants as commands;
ghost use Rattle.yw_state.specs.declared.tree.Conclusion.{Conclusion};
ghost use Rattle.yw_state.specs.declared.tree.TreeKind.{TreeKind};
ghost use Rattle.yw_state.specs.declared.tree.TreePlace.{TreePlace};

use yw_state::laws::reads::Reads;

/// What happened outside may be raised where no rule is broken, if its kind is one that can be: External, Timeout or Abort.
pub fn raise_has_event<R: Reads>()
    ensures { (s : State) (j : Ident) (kind : TreeKind) → is_raised kind ≡ true → HasEventUnbroken R.reader s (commands.Raise j kind) }
{}

/// A rule may be added to the tree at a place where no rule of commands is broken, if its text spells a condition there.
pub fn rule_has_event<R: Reads>()
    ensures { (s : State) (p : TreePlace) (at : ℕ) (side : Bool) (when : List ℕ) (conclusion : Conclusion) (spec : Spec) (test : Tree) → spec_called s p.spec ≡ Some spec → R.reader.condition when (tree_scope spec p) (Ok test) → HasEventUnbroken R.reader s (commands.Rule p.spec p.net p.task p.kind at side when conclusion) }
{}
