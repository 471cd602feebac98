//! What goes from a forest, with all under it.
ghost use Rattle.std.specs.Prelude.{◌≡◌, ◌≤◌, ◌<◌, ℕ, List, length, is_some, IfSome, IsSome, None, false};
ghost use Rattle.std.specs.Bool.{OnTrue, OnFalse};
ghost use Rattle.yw_state.specs.Identity.{case_ident, is_case_ident};
ghost use Rattle.yw_base.specs.Identity.{case_number, parent};
ghost use Rattle.yw_state.specs.Map.{get};
ghost use Rattle.yw_tree.specs.Becomes.{Drops, DropsTask};
ghost use Rattle.yw_tree.specs.Cases.{case_at};
ghost use Rattle.yw_tree.specs.Forest.{IsForest, sites_of};
ghost use Rattle.yw_tree.specs.Places.{has_run, item_stands, net_at, placed_case, run_at_case, run_at_item, run_of, something_stands};
ghost use Rattle.yw_tree.specs.Spots.{part_at};
ghost use Rattle.yw_tree.specs.declared.NetState.{out-NetState};
ghost use Rattle.yw_tree.specs.declared.Node.{out-Node};

use crate::find::has_run;
use crate::nets::{clear_task, remove_item};
use crate::numbers::{case_number, is_case, parent};
use crate::parts::{item_by, net_by};
use crate::{Case, Forest, Node};
use yw_base::Ident;

/// Takes a case away. `false` says that none stood there.
fn cut_case(forest: &mut Forest, n: u64) -> bool
    requires { IsForest forest.old }
    ensures stood { result ≡ is_some (case_at n forest.old.cases) }
    ensures sites { Drops forest.old forest.new (case_ident n) }
    ensures stays { OnFalse result (forest.new ≡ forest.old) }
    ensures kept { IsForest forest.new }
{
    forest.cases.remove(n).is_some()
}

/// Takes the run of a case away, where it has this identity.
fn end_run_of_case(case: &mut Case, id: &[u64]) -> bool
    ensures stood { result ≡ has_run id.now case.old.run }
    ensures gone { OnTrue result (case.new ≡ record case.old { run = None }) }
    ensures stays { OnFalse result (case.new ≡ case.old) }
{
    if !has_run(&case.run, id) {
        return false;
    }
    case.run = None;
    true
}

/// Takes the run of an item away, where it has this identity.
fn end_run_of_item(node: &mut Node, id: &[u64]) -> bool
    ensures stood { result ≡ has_run id.now (out-Node node.old).run }
    ensures gone { OnTrue result (out-Node node.new ≡ record (out-Node node.old) { run = None }) }
    ensures stays { OnFalse result (node.new ≡ node.old) }
{
    if !has_run(&node.run, id) {
        return false;
    }
    node.run = None;
    true
}

/// Takes the run at an identity away that stands at a case.
fn cut_run_of_case(forest: &mut Forest, id: &[u64]) -> bool
    requires boxed { IsForest forest.old }
    requires long { 1 ≤ length id.now }
    ensures stood { result ≡ is_some (run_at_case forest.old id.now) }
    ensures sites { run_of forest.old id.now ≡ run_at_case forest.old id.now → OnTrue result (Drops forest.old forest.new id.now) }
    ensures kept { run_of forest.old id.now ≡ run_at_case forest.old id.now → IsForest forest.new }
    ensures stays { OnFalse result (forest.new ≡ forest.old) }
{
    match forest.cases.get_mut(case_number(id)) {
        Some(case) => end_run_of_case(case, id),
        None => false,
    }
}

/// Takes the run at an identity away that stands at an item.
fn cut_run_of_item(forest: &mut Forest, id: &[u64]) -> bool
    requires boxed { IsForest forest.old }
    requires long { 1 ≤ length id.now }
    requires below { is_case_ident id.now ≡ false }
    ensures stood { result ≡ is_some (run_at_item forest.old id.now) }
    ensures sites { run_of forest.old id.now ≡ run_at_item forest.old id.now → OnTrue result (Drops forest.old forest.new id.now) }
    ensures kept { run_of forest.old id.now ≡ run_at_item forest.old id.now → IsForest forest.new }
    ensures stays { OnFalse result (forest.new ≡ forest.old) }
{
    match item_by(forest, parent(id)) {
        Some(node) => end_run_of_item(node, id),
        None => false,
    }
}

/// Takes the run at an identity away. `false` says that none stood there.
fn cut_run(forest: &mut Forest, id: &[u64]) -> bool
    requires boxed { IsForest forest.old }
    requires long { 1 ≤ length id.now }
    requires below { is_case_ident id.now ≡ false }
    ensures stood { result ≡ is_some (run_of forest.old id.now) }
    ensures sites { OnTrue result (Drops forest.old forest.new id.now) }
    ensures stays { OnFalse result (forest.new ≡ forest.old) }
    ensures kept { IsForest forest.new }
{
    if is_case(parent(id)) {
        return cut_run_of_case(forest, id);
    }
    cut_run_of_item(forest, id)
}

/// Takes the item at an identity away. `false` says that none stood there.
fn cut_item(forest: &mut Forest, id: &[u64]) -> bool
    requires boxed { IsForest forest.old }
    requires long { 1 ≤ length id.now }
    requires below { is_case_ident id.now ≡ false }
    ensures stood { result ≡ is_some (item_stands forest.old id.now) }
    ensures sites { OnTrue result (Drops forest.old forest.new id.now) }
    ensures stays { OnFalse result (forest.new ≡ forest.old) }
    ensures kept { IsForest forest.new }
{
    match net_by(forest, parent(id)) {
        Some(net) => remove_item(net, id),
        None => false,
    }
}

/// Takes what stands at an identity away, with all under it.
fn cut_by(forest: &mut Forest, id: &[u64]) -> bool
    requires boxed { IsForest forest.old }
    requires long { 1 ≤ length id.now }
    ensures stood { result ≡ something_stands forest.old id.now }
    ensures sites { OnTrue result (Drops forest.old forest.new id.now) }
    ensures stays { OnFalse result (forest.new ≡ forest.old) }
    ensures kept { IsForest forest.new }
{
    if is_case(id) {
        return cut_case(forest, case_number(id));
    }
    if cut_run(forest, id) {
        return true;
    }
    cut_item(forest, id)
}

impl Forest {
    /// Takes the case, the item or the run at an identity away, with all under it: in the map, what is dropped under
    /// that identity. `false` says that none stood there, and then all is as it was, and nothing stood under it. It takes no
    /// memory.
    pub fn cut(&mut self, id: &Ident) -> bool
        requires { IsForest self.old }
        ensures found { result ≡ is_some (part_at self.old id.now) }
        ensures stood { (names : ℕ → List ℕ) → result ≡ is_some (get (sites_of names self.old) id.now) }
        ensures sites { Drops self.old self.new id.now }
        ensures stays { OnFalse result (self.new ≡ self.old) }
        ensures kept { IsForest self.new }
    {
        cut_by(self, id.numbers())
    }

    /// Takes all items of a task in the net at an identity away, with all under them. It takes no memory.
    pub fn cut_task(&mut self, id: &Ident, t: usize)
        requires boxed { IsForest self.old }
        requires stands { IsSome (net_at self.old id.now) }
        requires t_in { IfSome (net_at self.old id.now) (λ net. t < length (out-NetState net).items.items) }
        ensures sites { DropsTask self.old self.new id.now t }
        ensures kept { IsForest self.new }
    {
        if let Some(net) = self.net_mut(id) {
            clear_task(net, t);
        }
    }
}
