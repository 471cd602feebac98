//! Rule trees.
ghost use Rattle.std.specs.Prelude.{◌≡◌, Option, Some, None, [], ◌∷◌, List, codes, false, true};
ghost use Rattle.yw_rows.specs.Play.{ComputesAt, RefusedAt, are_allowed};
ghost use Rattle.yw_rows.specs.Trees.{amount, amt_row, over_300, three_rules, two_rules};
ghost use Rattle.yw_state.specs.Broken.{placeless};
ghost use Rattle.yw_state.specs.RuleTree.{concluded};
ghost use Rattle.yw_state.specs.declared.command.Command.TheVariants as commands;
ghost use Rattle.yw_state.specs.declared.rule.Rule.TheVariants.{NoExlet, PlaceTaken, UnknownPlace};
ghost use Rattle.yw_state.specs.declared.tree.TreeKind.TheVariants.{External};

/// Rule 1 is for amounts over 100, and rule 2 behind it for those over 1,000. Where rule 2 doesn't hold rule 1 is concluded.
pub fn two()
    ensures of_50 { concluded two_rules (amount 50) ≡ None }
    ensures of_200 { concluded two_rules (amount 200) ≡ Some 1 }
    ensures of_500 { concluded two_rules (amount 500) ≡ Some 1 }
    ensures of_5000 { concluded two_rules (amount 5000) ≡ Some 2 }
{}

/// Rule 3 is tried where rule 2 doesn't hold.
pub fn three()
    ensures of_50 { concluded three_rules (amount 50) ≡ None }
    ensures of_200 { concluded three_rules (amount 200) ≡ Some 1 }
    ensures of_500 { concluded three_rules (amount 500) ≡ Some 3 }
    ensures of_5000 { concluded three_rules (amount 5000) ≡ Some 2 }
{}

/// The same in four cases: what is raised in each begins the exlet that is concluded, before the third rule and after it; and
/// where nothing is concluded no exlet begins.
pub fn raised()
    ensures before { ComputesAt amt_row 8 (commands.Raise (1 ∷ []) External) (Some (placeless NoExlet)) }
    ensures all { are_allowed amt_row 15 ≡ true }
    ensures after { ComputesAt amt_row 12 (commands.Raise (1 ∷ []) External) (Some (placeless NoExlet)) }
{}

/// A rule stands only where no other does, and nowhere where node 0 is false.
pub fn refused()
    ensures taken { RefusedAt amt_row 12 (over_300 2 false) (placeless PlaceTaken) }
    ensures no_side { RefusedAt amt_row 12 (over_300 0 false) (placeless UnknownPlace) }
    ensures no_node { RefusedAt amt_row 12 (over_300 4 true) (placeless UnknownPlace) }
{}
