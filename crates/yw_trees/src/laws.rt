//! What is so of trees whose places are named after what has them. Each law is the contract of a function that does
//! nothing.
ghost use Rattle.std.specs.Prelude.{◌≡◌, ◌++◌, ◌∷◌, [], List};
ghost use Rattle.yw_state.specs.Judged.{place_key, rules_at};
ghost use Rattle.yw_state.specs.Map.{insert};
ghost use Rattle.yw_state.specs.RuleTree.{TreeRule};
ghost use Rattle.yw_state.specs.State.{State};
ghost use Rattle.yw_state.specs.declared.loaded.Loaded.{Loaded};
ghost use Rattle.yw_state.specs.declared.tree.TreePlace.{TreePlace};
ghost use Rattle.yw_trees.specs.Owners.{IsNamed, Owns, SpecsApart};
ghost use Rattle.yw_trees.specs.Placed.{AreOwned, Placed, rules_for, rules_of, with_rule};
ghost use Rattle.yw_trees.specs.declared.owner.Owner.{Owner};

/// In each state with these rules what is kept by numbers is what stands at the place that is named after them
/// (`named`); and nothing stands where no tree may (`elsewhere`).
pub fn rules_are_at_places()
    ensures named { (specs : List Loaded) (trees : List Placed) (owner : Owner) (p : TreePlace) (s : State)
        → AreOwned specs trees → IsNamed specs owner p → s.rules ≡ rules_of trees
        → rules_at s p ≡ rules_for owner p.kind trees }
    ensures elsewhere { (specs : List Loaded) (trees : List Placed) (p : TreePlace) (s : State)
        → AreOwned specs trees → ((owner : Owner) → Owns specs owner p → ⊥) → s.rules ≡ rules_of trees
        → rules_at s p ≡ [] }
{}

/// One rule more by numbers is one more at the place, behind those that stand there, and nothing else (`rules`). Each
/// tree still stands where it may (`owned`).
pub fn rule_is_added()
    ensures rules { (specs : List Loaded) (trees : List Placed) (owner : Owner) (p : TreePlace) (r : TreeRule)
        → AreOwned specs trees → IsNamed specs owner p
        → rules_of (with_rule owner p r trees) ≡ insert (rules_of trees) (place_key p) (rules_for owner p.kind trees ++ r ∷ []) }
    ensures owned { (specs : List Loaded) (trees : List Placed) (owner : Owner) (p : TreePlace) (r : TreeRule)
        → AreOwned specs trees → Owns specs owner p → AreOwned specs (with_rule owner p r trees) }
{}

/// Where no tree has a rule each stands where it may (`none`), and so it stays with more specifications behind
/// (`behind`).
pub fn trees_stay_owned()
    ensures none { (specs : List Loaded) → SpecsApart specs → AreOwned specs [] }
    ensures behind { (specs last : List Loaded) (trees : List Placed)
        → SpecsApart (specs ++ last) → AreOwned specs trees → AreOwned (specs ++ last) trees }
{}
