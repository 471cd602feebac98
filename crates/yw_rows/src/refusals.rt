//! The first rule that a line breaks. Where the case's quiet stands before it, the rules that compute are looked at.
ghost use Rattle.std.specs.Prelude.{◌≡◌, List, [], ◌∷◌, Option, None, Some, codes, false, pos, true};
ghost use Rattle.yw_base.specs.declared.value.Value.TheVariants as values;
ghost use Rattle.yw_rows.specs.Exlets.{pre_suspended};
ghost use Rattle.yw_rows.specs.Loan.{loan_row};
ghost use Rattle.yw_rows.specs.Mapping.{mapping_row};
ghost use Rattle.yw_rows.specs.Nested.{nested_row};
ghost use Rattle.yw_rows.specs.Others.{by_bob, suspended_item};
ghost use Rattle.yw_rows.specs.Play.{ComputesAt, RefusedAt};
ghost use Rattle.yw_rows.specs.Seq.{seq_row};
ghost use Rattle.yw_rows.specs.Several.{several_row};
ghost use Rattle.yw_rows.specs.Written.{given};
ghost use Rattle.yw_state.specs.Broken.{placed, placeless};
ghost use Rattle.yw_state.specs.declared.command.Command.TheVariants as commands;
ghost use Rattle.yw_state.specs.declared.rule.Rule.TheVariants as rules;
ghost use Rattle.yw_state.specs.declared.tree.Conclusion.TheVariants.{Exlet, Worklet};
ghost use Rattle.yw_state.specs.declared.tree.Primitive.TheVariants as primitives;
ghost use Rattle.yw_state.specs.declared.tree.TreeKind.TheVariants as kinds;

/// A task is entered by a person who is known and has its role, in a net that stands, if the task is in it and the server doesn't
/// enter it, if the net isn't held, the task isn't active, and its join has the tokens.
pub fn enter()
    ensures person { RefusedAt seq_row 3 (commands.Enter (codes "zoe") (1 ∷ []) (codes "a")) (placeless rules.UnknownPerson) }
    ensures case { RefusedAt seq_row 3 (commands.Enter (codes "ann") (2 ∷ []) (codes "a")) (placeless rules.UnknownCase) }
    ensures task { RefusedAt seq_row 3 (commands.Enter (codes "ann") (1 ∷ []) (codes "z")) (placeless rules.UnknownTask) }
    ensures composite { ComputesAt loan_row 9 (commands.Enter (codes "ann") (1 ∷ []) (codes "review")) (Some (placeless rules.ByItself)) }
    ensures worklet { ComputesAt loan_row 12 (commands.Enter (codes "bob") (1 ∷ 3 ∷ []) (codes "assess")) (Some (placeless rules.ByItself)) }
    ensures role { ComputesAt loan_row 9 (commands.Enter (codes "bob") (1 ∷ []) (codes "apply")) (Some (placeless rules.Role)) }
    ensures held { ComputesAt pre_suspended 7 (commands.Enter (codes "ann") (1 ∷ []) (codes "a")) (Some (placeless rules.Held)) }
    ensures active { RefusedAt seq_row 4 (commands.Enter (codes "ann") (1 ∷ []) (codes "a")) (placeless rules.Active) }
    ensures tokens { RefusedAt seq_row 3 (commands.Enter (codes "ann") (1 ∷ []) (codes "b")) (placeless rules.NotEnabled) }
    ensures none { ComputesAt seq_row 3 (commands.Enter (codes "ann") (1 ∷ []) (codes "a")) None }
{}

/// An item is started by a person who is known and has its task's role, if it is there and of an atomic task, isn't held, and is ready.
pub fn start()
    ensures item { RefusedAt seq_row 3 (commands.Start (codes "ann") (1 ∷ 2 ∷ [])) (placeless rules.UnknownItem) }
    ensures composite { ComputesAt loan_row 12 (commands.Start (codes "bob") (1 ∷ 3 ∷ [])) (Some (placeless rules.ByItself)) }
    ensures role { ComputesAt loan_row 10 (commands.Start (codes "bob") (1 ∷ 2 ∷ [])) (Some (placeless rules.Role)) }
    ensures held { ComputesAt suspended_item 5 (commands.Start (codes "ann") (1 ∷ 2 ∷ [])) (Some (placeless rules.Held)) }
    ensures stage { RefusedAt seq_row 5 (commands.Start (codes "ann") (1 ∷ 2 ∷ [])) (placeless rules.Stage) }
    ensures worklet { ComputesAt loan_row 12 (commands.Start (codes "bob") (1 ∷ 3 ∷ 4 ∷ [])) (Some (placeless rules.Stage)) }
    ensures none { ComputesAt seq_row 4 (commands.Start (codes "ann") (1 ∷ 2 ∷ [])) None }
{}

/// An item is completed by the person who started it, if no net stands at it and no exlet is at work on it, with a value of its sort
/// for each of what it makes, and no other.
pub fn complete()
    ensures worklet { ComputesAt loan_row 12 (commands.Complete (codes "bob") (1 ∷ 3 ∷ 4 ∷ []) []) (Some (placeless rules.ByItself)) }
    ensures stage { RefusedAt seq_row 4 (commands.Complete (codes "ann") (1 ∷ 2 ∷ []) []) (placeless rules.Stage) }
    ensures another { RefusedAt by_bob 6 (commands.Complete (codes "ann") (1 ∷ 2 ∷ []) []) (placeless rules.NotYours) }
    ensures busy { ComputesAt nested_row 13 (commands.Complete (codes "ann") (1 ∷ 3 ∷ 4 ∷ 5 ∷ []) []) (Some (placeless rules.Busy)) }
    ensures unknown { RefusedAt by_bob 6 (commands.Complete (codes "bob") (1 ∷ 2 ∷ []) (given (codes "k") (values.Int (pos 1)) ∷ [])) (placed rules.Output (codes "k")) }
    ensures lacking { RefusedAt mapping_row 5 (commands.Complete (codes "ann") (1 ∷ 2 ∷ []) []) (placed rules.Output (codes "den")) }
    ensures sort { RefusedAt mapping_row 5 (commands.Complete (codes "ann") (1 ∷ 2 ∷ []) (given (codes "den") (values.Bool true) ∷ given (codes "k") (values.Int (pos 1)) ∷ [])) (placed rules.Output (codes "den")) }
    ensures undefined { RefusedAt mapping_row 5 (commands.Complete (codes "ann") (1 ∷ 2 ∷ []) (given (codes "den") (values.Int (pos 0)) ∷ [])) (placed rules.Mapping (codes "x")) }
    ensures none { ComputesAt mapping_row 5 (commands.Complete (codes "ann") (1 ∷ 2 ∷ []) (given (codes "den") (values.Int (pos 5)) ∷ [])) None }
{}

/// An item is added to a task that is dynamic and active, for an element of the list's sort.
pub fn add()
    ensures not_dynamic { ComputesAt loan_row 16 (commands.Add (codes "bob") (1 ∷ 3 ∷ []) (codes "vote") (Some (values.Text (codes "eve")))) (Some (placeless rules.NotDynamic)) }
    ensures stage { RefusedAt several_row 9 (commands.Add (codes "ann") (1 ∷ []) (codes "m") (Some (values.Text (codes "s")))) (placeless rules.Stage) }
    ensures sort { RefusedAt several_row 4 (commands.Add (codes "ann") (1 ∷ []) (codes "m") (Some (values.Int (pos 5)))) (placed rules.BadData (codes "value")) }
    ensures none { ComputesAt several_row 4 (commands.Add (codes "ann") (1 ∷ []) (codes "m") (Some (values.Text (codes "r")))) None }
{}

/// What happens outside happens to a case or an item that stands, on which no exlet is at work, and for which there is a tree.
pub fn raised()
    ensures case { RefusedAt seq_row 3 (commands.Raise (2 ∷ []) kinds.External) (placeless rules.UnknownCase) }
    ensures item { RefusedAt seq_row 3 (commands.Raise (1 ∷ 2 ∷ []) kinds.External) (placeless rules.UnknownItem) }
    ensures busy { ComputesAt nested_row 13 (commands.Raise (1 ∷ 3 ∷ 4 ∷ 5 ∷ []) kinds.External) (Some (placeless rules.Busy)) }
    ensures no_tree { ComputesAt seq_row 4 (commands.Raise (1 ∷ 2 ∷ []) kinds.Timeout) (Some (placeless rules.NoTrigger)) }
    ensures none { ComputesAt nested_row 12 (commands.Raise (1 ∷ 3 ∷ 4 ∷ 5 ∷ []) kinds.External) None }
{}

/// What isn't suspended is suspended, and what is goes on.
pub fn marks()
    ensures twice { RefusedAt suspended_item 5 (commands.Suspend (1 ∷ 2 ∷ [])) (placeless rules.Mark) }
    ensures none { RefusedAt seq_row 3 (commands.Continue (1 ∷ [])) (placeless rules.Mark) }
    ensures case { RefusedAt seq_row 3 (commands.Suspend (2 ∷ [])) (placeless rules.UnknownCase) }
    ensures item { RefusedAt seq_row 3 (commands.Continue (1 ∷ 2 ∷ [])) (placeless rules.UnknownItem) }
{}

/// A case begins with values of variables into which values come, each of its sort.
pub fn launch()
    ensures spec { RefusedAt seq_row 3 (commands.Launch (codes "loan") []) (placeless rules.UnknownSpec) }
    ensures unknown { RefusedAt seq_row 3 (commands.Launch (codes "seq") (given (codes "k") (values.Int (pos 1)) ∷ [])) (placed rules.BadData (codes "k")) }
    ensures sort { RefusedAt loan_row 8 (commands.Launch (codes "loan") (given (codes "who") (values.Int (pos 1)) ∷ [])) (placed rules.BadData (codes "who")) }
    ensures local { RefusedAt loan_row 8 (commands.Launch (codes "loan") (given (codes "amount") (values.Int (pos 1)) ∷ given (codes "who") (values.Int (pos 1)) ∷ [])) (placed rules.BadData (codes "amount")) }
{}

/// A tree has its place: at a case before, after and outside it; at an atomic task of all kinds, at a composite one of all but that
/// which chooses worklets, at an empty one of none.
pub fn places()
    ensures spec { RefusedAt loan_row 8 (commands.Rule (codes "lean") None None kinds.Pre 0 true (codes "true") (Exlet [])) (placeless rules.UnknownSpec) }
    ensures case { RefusedAt loan_row 8 (commands.Rule (codes "loan") None None kinds.Timeout 0 true (codes "true") (Exlet [])) (placeless rules.UnknownPlace) }
    ensures half { RefusedAt loan_row 8 (commands.Rule (codes "loan") (Some (codes "main")) None kinds.Pre 0 true (codes "true") (Exlet [])) (placeless rules.UnknownPlace) }
    ensures composite { RefusedAt loan_row 8 (commands.Rule (codes "loan") (Some (codes "main")) (Some (codes "review")) kinds.Select 0 true (codes "true") (Exlet [])) (placeless rules.UnknownPlace) }
    ensures empty { RefusedAt loan_row 8 (commands.Rule (codes "loan") (Some (codes "main")) (Some (codes "refuse")) kinds.Pre 0 true (codes "true") (Exlet [])) (placeless rules.UnknownPlace) }
    ensures taken { RefusedAt loan_row 8 (commands.Rule (codes "loan") (Some (codes "board")) (Some (codes "assess")) kinds.Select 0 true (codes "true") (Exlet [])) (placeless rules.PlaceTaken) }
{}

/// A tree that chooses worklets concludes one that is loaded; any other 1 to 16 primitives, of items only at an item, and a removal
/// only behind all others.
pub fn conclusions()
    ensures exlet { ComputesAt loan_row 8 (commands.Rule (codes "loan") (Some (codes "board")) (Some (codes "vote")) kinds.Select 0 true (codes "true") (Exlet (primitives.RemoveItem ∷ []))) (Some (placeless rules.BadConclusion)) }
    ensures worklet { ComputesAt loan_row 8 (commands.Rule (codes "loan") (Some (codes "board")) (Some (codes "vote")) kinds.Pre 0 true (codes "true") (Worklet (codes "deep"))) (Some (placeless rules.BadConclusion)) }
    ensures not_loaded { ComputesAt loan_row 8 (commands.Rule (codes "loan") (Some (codes "board")) (Some (codes "vote")) kinds.Select 0 true (codes "true") (Worklet (codes "dip"))) (Some (placeless rules.BadConclusion)) }
    ensures nothing { ComputesAt loan_row 8 (commands.Rule (codes "loan") (Some (codes "board")) (Some (codes "vote")) kinds.Pre 0 true (codes "true") (Exlet [])) (Some (placeless rules.BadConclusion)) }
    ensures of_item { ComputesAt loan_row 8 (commands.Rule (codes "loan") None None kinds.Pre 0 true (codes "true") (Exlet (primitives.SuspendItem ∷ []))) (Some (placeless rules.BadConclusion)) }
    ensures behind { ComputesAt loan_row 8 (commands.Rule (codes "loan") None None kinds.Pre 0 true (codes "true") (Exlet (primitives.RemoveCase ∷ primitives.SuspendCase ∷ []))) (Some (placeless rules.BadConclusion)) }
    ensures unknown { ComputesAt loan_row 8 (commands.Rule (codes "loan") None None kinds.Pre 0 true (codes "true") (Exlet (primitives.Unknown (codes "stop") ∷ []))) (Some (placeless rules.BadConclusion)) }
    ensures last { ComputesAt loan_row 8 (commands.Rule (codes "loan") None None kinds.Pre 0 true (codes "true") (Exlet (primitives.Compensate (codes "remind") ∷ primitives.RemoveCase ∷ []))) None }
{}
