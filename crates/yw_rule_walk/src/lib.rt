//! The walk through a rule tree, where one rule more is attached to it. The law is the contract of a function that does nothing.
#![tactic(auto)]

ghost use Rattle.std.specs.Prelude.{◌≡◌, ◌+◌, ◌&&◌, ◌++◌, ◌∷◌, [], List, Some, length, if◌then◌else◌};
ghost use Rattle.yw_rule_walk.specs.Walk.{ends_at};
ghost use Rattle.yw_state.specs.RuleTree.{TreeRule, concluded, holds};
ghost use Rattle.yw_state.specs.Values.{Row};

/// With one rule more, a tree concludes the new rule for exactly the rows whose walk ended at its side and that meet its condition. For all others
/// it concludes what it did.
pub fn one_rule_more()
    ensures { (rs : List TreeRule) (r : TreeRule) (row : Row) → concluded (rs ++ r ∷ []) row ≡ (if ends_at rs row r.at r.side && holds r.test row then Some (length rs + 1) else concluded rs row) }
{}
