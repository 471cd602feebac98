//! What is laid bare: an item or a run stays, and its net goes with all under it.
ghost use Rattle.std.specs.Prelude.{◌≡◌, ◌≤◌, IsSome, IsSomeAnd, None, false, length};
ghost use Rattle.yw_state.specs.Identity.{is_case_ident};
ghost use Rattle.yw_base.specs.Identity.{parent};
ghost use Rattle.yw_tree.specs.Becomes.{Bares, BaresBut};
ghost use Rattle.yw_tree.specs.Coming.{HasNoNet};
ghost use Rattle.yw_tree.specs.Forest.{IsForest, item_of};
ghost use Rattle.yw_tree.specs.Places.{run_of};
ghost use Rattle.yw_tree.specs.declared.Node.{out-Node};
ghost use Rattle.yw_tree.specs.declared.Run.{out-Run};

use crate::numbers::parent;
use crate::parts::item_by;
use crate::{Forest, Node, Run};
use yw_base::Ident;

fn end_net_and_run(node: &mut Node)
    ensures { out-Node node.new ≡ record (out-Node node.old) { net = None; run = None } }
{
    node.net = None;
    node.run = None;
}

fn end_net(node: &mut Node)
    ensures { out-Node node.new ≡ record (out-Node node.old) { net = None } }
{
    node.net = None;
}

fn end_run_net(run: &mut Run)
    ensures { out-Run run.new ≡ record (out-Run run.old) { net = None } }
{
    run.net = None;
}

/// The net of the item at which the run at an identity hangs goes, and the run stays.
fn bare_but(forest: &mut Forest, id: &[u64])
    requires boxed { IsForest forest.old }
    requires long { 1 ≤ length id.now }
    requires below { is_case_ident id.now ≡ false }
    requires at_item { is_case_ident (parent id.now) ≡ false }
    requires stands { IsSome (item_of forest.old (parent id.now)) }
    requires alone { IsSomeAnd (run_of forest.old id.now) HasNoNet }
    ensures sites { BaresBut forest.old forest.new (parent id.now) id.now }
    ensures kept { IsForest forest.new }
{
    if let Some(node) = item_by(forest, parent(id)) {
        end_net(node);
    }
}

impl Forest {
    /// The net and the run of the item at an identity go, with all under them, and the item stays. It takes no memory.
    pub fn bare_item(&mut self, id: &Ident)
        requires boxed { IsForest self.old }
        requires stands { IsSome (item_of self.old id.now) }
        ensures sites { Bares self.old self.new id.now }
        ensures kept { IsForest self.new }
    {
        if let Some(node) = self.item_mut(id) {
            end_net_and_run(node);
        }
    }

    /// The net of the run at an identity goes, with all under it, and the run stays. It takes no memory.
    pub fn bare_run(&mut self, id: &Ident)
        requires boxed { IsForest self.old }
        requires stands { IsSome (run_of self.old id.now) }
        ensures sites { Bares self.old self.new id.now }
        ensures kept { IsForest self.new }
    {
        if let Some(target) = self.run_mut(id) {
            end_run_net(target);
        }
    }

    /// The net of the item at which the run at an identity hangs goes, with all under it. The item and the run stay; the run has
    /// no net. It takes no memory.
    pub fn bare_but_run(&mut self, id: &Ident)
        requires boxed { IsForest self.old }
        requires at_item { is_case_ident (parent id.now) ≡ false }
        requires alone { IsSomeAnd (run_of self.old id.now) HasNoNet }
        ensures sites { BaresBut self.old self.new (parent id.now) id.now }
        ensures kept { IsForest self.new }
    {
        bare_but(self, id.numbers());
    }
}
