//! What is so of all rule trees. Each law is the contract of a function that does nothing.
ghost use Rattle.std.specs.Prelude.{◌≡◌, ◌+◌, ◌&&◌, ◌++◌, ◌∷◌, [], List, Some, length, map, if◌then◌else◌};
ghost use Rattle.yw_rdr.specs.Item.{values_of};
ghost use Rattle.yw_rdr.specs.Rules.{Kept, as_rule, kept_of, rules_of};
ghost use Rattle.yw_rule_walk.specs.Walk.{ends_at};
ghost use Rattle.yw_state.specs.Judged.{item_values};
ghost use Rattle.yw_state.specs.RuleTree.{TreeRule, concluded, holds};
ghost use Rattle.yw_state.specs.State.{ItemAt};
ghost use Rattle.yw_state.specs.Values.{Row};

/// What a tree concludes reads no text of a condition.
pub fn texts_are_not_read()
    ensures { (rs : List TreeRule) (row : Row) → concluded (rules_of (map kept_of rs)) row ≡ concluded rs row }
{}

/// With one rule more, a tree concludes the new rule for exactly the values whose walk ended at its side and that meet its condition. For all others
/// it concludes what it did.
pub fn rule_is_attached()
    ensures { (ks : List Kept) (k : Kept) (row : Row) → concluded (rules_of (ks ++ k ∷ [])) row
        ≡ (if ends_at (rules_of ks) row k.at k.side && holds k.test row then Some (length ks + 1) else concluded (rules_of ks) row) }
{}

/// An item's row (`ItemRow`) has the values by which the definitions ask a tree at its task.
pub fn row_is_the_items()
    ensures { (x : ItemAt) → values_of x.of_task.task x.part.stage x.part.given x.part.made ≡ item_values x }
{}
