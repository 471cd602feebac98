// What a tree concludes at a case or an item.
ghost use Rattle.std.specs.Option.{option_copied};
ghost use Rattle.std.specs.Prelude.{◌≡◌, ◌==◌, ◌≤◌, [], Some, length, option_and_then};
ghost use Rattle.yw_standing.specs.Held.{StandsHeld};
ghost use Rattle.yw_deeds.specs.Judging.{IsTreeAt, exlet_in, is_chosen, judged_by, over_case, over_item};
ghost use Rattle.yw_standing.specs.State.{state_of};
ghost use Rattle.yw_state.specs.After.{primitives_of};
ghost use Rattle.yw_state.specs.Allowed.{concludes, is_worklet};
ghost use Rattle.yw_state.specs.Identity.{case_ident, is_case_ident};
ghost use Rattle.yw_state.specs.Judged.{judged};
ghost use Rattle.yw_state.specs.Options.{is_some_and};
ghost use Rattle.yw_state.specs.State.{item_at, net_part};
ghost use Rattle.yw_state.specs.declared.tree.TreeKind.{TreeKind};
ghost use Rattle.yw_state.specs.declared.tree.TreeKind.TheVariants.{Select};

use std::alloc::Global;
use yw_base::{Ident, Name};
use yw_known::item_here;
use yw_rdr::{ItemRow, RuleTree, Zeros};
use yw_standing::Standing;
use yw_state::{Conclusion, PrimitiveList, TreeKind};

/// It is a case's.
fn is_top(at: &Ident) -> bool
    ensures { result ≡ is_case_ident at.now }
{
    at.numbers().len() == 1
}

/// The number of the rule that a tree concludes of a case.
fn judge_case(standing: &Standing, n: u64, tree: &RuleTree) -> Option<usize>
    requires { StandsHeld standing.now }
    ensures { result
        ≡ option_and_then (over_case tree.now) (net_part (state_of standing.now) (case_ident n)) }
{
    let case = standing.forest.case(n)?;
    tree.conclude(&case.net.vals)
}

/// The same, of an item.
fn judge_item(alloc: Global, standing: &Standing, j: &Ident, tree: &RuleTree) -> Option<usize>
    requires { StandsHeld standing.now }
    ensures { result
        ≡ option_and_then (over_item tree.now) (item_at (state_of standing.now) j.now) }
{
    let here = item_here(&standing.known, &standing.forest, j)?;
    let zeros = Zeros::new(alloc);
    let row = ItemRow {
        task: here.task,
        stage: here.item.stage,
        given: &here.item.given,
        made: &here.item.made,
        zeros: &zeros,
    };
    tree.conclude(&row)
}

/// The same, of what stands at an identity.
fn judge_by(alloc: Global, standing: &Standing, at: &Ident, tree: &RuleTree) -> Option<usize>
    requires { StandsHeld standing.now }
    ensures { result ≡ judged_by (state_of standing.now) at.now tree.now }
{
    if is_top(at) {
        return judge_case(standing, at.case_number(), tree);
    }
    judge_item(alloc, standing, at, tree)
}

/// The number of the rule by which the case or item at an identity is judged, by its tree of a kind; `None` where no
/// rule is concluded, as where there is no tree. It takes no memory.
pub fn judge(
    alloc: Global,
    standing: &Standing,
    at: &Ident,
    _kind: TreeKind,
    tree: Option<&RuleTree>,
) -> Option<usize>
    requires held { StandsHeld standing.now }
    requires tree { IsTreeAt (state_of standing.now) at.now _kind (option_copied tree) }
    ensures { result ≡ judged (state_of standing.now) at.now _kind }
{
    match tree {
        Some(links) => judge_by(alloc, standing, at, links),
        None => None,
    }
}

/// It is this node.
fn is_node(found: Option<usize>, node: u32) -> bool
    ensures { result ≡ is_some_and found (λ k. k == node) }
{
    match found {
        Some(k) => k == node as usize,
        None => false,
    }
}

/// Whether the case or item at an identity is judged by the rule of this number. It takes no memory.
pub fn concludes(
    alloc: Global,
    standing: &Standing,
    at: &Ident,
    kind: TreeKind,
    node: u32,
    tree: Option<&RuleTree>,
) -> bool
    requires held { StandsHeld standing.now }
    requires tree { IsTreeAt (state_of standing.now) at.now kind (option_copied tree) }
    ensures { result ≡ concludes (state_of standing.now) at.now kind node }
{
    is_node(judge(alloc, standing, at, kind, tree), node)
}

/// What is concluded is this worklet.
fn is_worklet(name: &Name, conclusion: &Conclusion) -> bool
    ensures { result ≡ is_worklet name.now conclusion.now }
{
    match conclusion {
        Conclusion::Worklet(other) => other.as_str() == name.as_str(),
        Conclusion::Exlet(_exlet) => false,
    }
}

/// A tree chooses this worklet for an item.
fn is_chosen_by(
    alloc: Global,
    standing: &Standing,
    j: &Ident,
    worklet: &Name,
    tree: &RuleTree,
) -> bool
    requires held { StandsHeld standing.now }
    requires tree { IsTreeAt (state_of standing.now) j.now Select (Some tree.now) }
    ensures { result ≡ is_chosen (state_of standing.now) j.now worklet.now }
{
    match judge_by(alloc, standing, j, tree) {
        Some(node) => is_worklet(worklet, tree.conclusion(node)),
        None => false,
    }
}

/// Whether the tree that chooses worklets concludes this one for an item. It takes no memory.
pub fn is_chosen(
    alloc: Global,
    standing: &Standing,
    j: &Ident,
    worklet: &Name,
    tree: Option<&RuleTree>,
) -> bool
    requires held { StandsHeld standing.now }
    requires tree { IsTreeAt (state_of standing.now) j.now Select (option_copied tree) }
    ensures { result ≡ is_chosen (state_of standing.now) j.now worklet.now }
{
    match tree {
        Some(links) => is_chosen_by(alloc, standing, j, worklet, links),
        None => false,
    }
}

/// The primitives that are concluded; of a worklet `none`.
fn primitives_of<'a>(conclusion: &'a Conclusion, none: &'a PrimitiveList) -> &'a PrimitiveList
    requires { none.now ≡ [] }
    ensures { result.now ≡ primitives_of conclusion.now }
{
    match conclusion {
        Conclusion::Exlet(exlet) => exlet,
        Conclusion::Worklet(_name) => none,
    }
}

/// The exlet that the rule of this number concludes.
pub fn exlet_of<'a>(tree: &'a RuleTree, node: u32, none: &'a PrimitiveList) -> &'a PrimitiveList
    requires some { 1 ≤ node }
    requires most { node ≤ length tree.now }
    requires none { none.now ≡ [] }
    ensures { result.now ≡ exlet_in tree.now node }
{
    primitives_of(tree.conclusion(node as usize), none)
}
