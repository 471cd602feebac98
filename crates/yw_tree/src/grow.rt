//! What comes to a forest.
ghost use Rattle.std.specs.Prelude.{◌≡◌, [], OnOk, OnErr, IsSome, None, Some, true, false};
ghost use Rattle.yw_base.specs.Identity.{is_identity, case_number};
ghost use Rattle.yw_state.specs.Identity.{is_case_ident};
ghost use Rattle.yw_tree.specs.Becomes.{Gets, GetsCase, GetsNet};
ghost use Rattle.yw_tree.specs.Boxed.{IsBoxedCase, IsBoxedNet};
ghost use Rattle.yw_tree.specs.Cases.{case_at};
ghost use Rattle.yw_tree.specs.Coming.{ItemMayCome, RunMayCome};
ghost use Rattle.yw_tree.specs.Entries.{case_site, item_site, nodes, run_site};
ghost use Rattle.yw_tree.specs.Forest.{IsForest, item_of};
ghost use Rattle.yw_tree.specs.Places.{net_of_run, run_of};
ghost use Rattle.yw_tree.specs.Ways.{net_of_item};
ghost use Rattle.yw_tree.specs.declared.Node.{out-Node};
ghost use Rattle.yw_tree.specs.declared.Run.{out-Run};

use crate::nets::add_item;
use crate::numbers::{case_number, is_case};
use crate::parts::item_by;
use crate::{Case, Forest, NetState, Node, Run};
use std::alloc::AllocError;
use yw_base::Ident;

fn set_item_net(node: &mut Node, net: Box<NetState>)
    ensures { out-Node node.new ≡ record (out-Node node.old) { net = Some net } }
{
    node.net = Some(net);
}

fn set_run_net(run: &mut Run, net: Box<NetState>)
    ensures { out-Run run.new ≡ record (out-Run run.old) { net = Some net } }
{
    run.net = Some(net);
}

fn set_case_run(case: &mut Case, run: Box<Run>)
    ensures { case.new ≡ record case.old { run = Some run } }
{
    case.run = Some(run);
}

fn set_item_run(node: &mut Node, run: Box<Run>)
    ensures { out-Node node.new ≡ record (out-Node node.old) { run = Some run } }
{
    node.run = Some(run);
}

/// A run comes to the case at an identity.
fn add_case_run(forest: &mut Forest, id: &[u64], run: Box<Run>)
    requires boxed { IsForest forest.old }
    requires identity { is_identity id.now ≡ true }
    requires top { is_case_ident id.now ≡ true }
    requires stands { IsSome (case_at (case_number id.now) forest.old.cases) }
    requires comes { RunMayCome forest.old id.now run.value }
    ensures sites { Gets forest.old forest.new (out-Run run.value).id (λ names. run_site names run.value) }
    ensures kept { IsForest forest.new }
{
    if let Some(case) = forest.cases.get_mut(case_number(id)) {
        set_case_run(case, run);
    }
}

/// A run comes to the item at an identity.
fn add_item_run(forest: &mut Forest, id: &[u64], run: Box<Run>)
    requires boxed { IsForest forest.old }
    requires identity { is_identity id.now ≡ true }
    requires below { is_case_ident id.now ≡ false }
    requires stands { IsSome (item_of forest.old id.now) }
    requires comes { RunMayCome forest.old id.now run.value }
    ensures sites { Gets forest.old forest.new (out-Run run.value).id (λ names. run_site names run.value) }
    ensures kept { IsForest forest.new }
{
    if let Some(node) = item_by(forest, id) {
        set_item_run(node, run);
    }
}

/// A run comes to the case or item at an identity.
fn add_run_by(forest: &mut Forest, id: &[u64], run: Box<Run>)
    requires boxed { IsForest forest.old }
    requires identity { is_identity id.now ≡ true }
    requires comes { RunMayCome forest.old id.now run.value }
    ensures sites { Gets forest.old forest.new (out-Run run.value).id (λ names. run_site names run.value) }
    ensures kept { IsForest forest.new }
{
    if is_case(id) {
        add_case_run(forest, id, run);
    } else {
        add_item_run(forest, id, run);
    }
}

/// A net without items comes to the item at an identity, which has none.
fn attach_to_item(forest: &mut Forest, id: &[u64], net: Box<NetState>)
    requires boxed { IsForest forest.old }
    requires identity { is_identity id.now ≡ true }
    requires well { IsBoxedNet net.value }
    requires empty { nodes net.value ≡ [] }
    requires stands { IsSome (item_of forest.old id.now) }
    requires vacant { net_of_item (item_of forest.old id.now) ≡ None }
    ensures sites { GetsNet forest.old forest.new id.now net.value }
    ensures kept { IsForest forest.new }
{
    if let Some(item) = item_by(forest, id) {
        set_item_net(item, net);
    }
}

impl Forest {
    /// One case more, with all that stands in it, in order of its number. An `Err` says that no memory was left, and then
    /// all is as it was.
    pub fn add_case(&mut self, case: Case) -> Result<(), AllocError>
        requires boxed { IsForest self.old }
        requires well { IsBoxedCase case }
        requires alone { is_case_ident case.id ≡ true }
        requires fresh { case_at (case_number case.id) self.old.cases ≡ None }
        ensures ok { OnOk result (GetsCase self.old self.new case) }
        // A case in which nothing stands yet is one value more of the map.
        ensures begins { OnOk result (nodes case.net ≡ [] → case.run ≡ None → Gets self.old self.new case.id (λ names. case_site names case)) }
        ensures kept { IsForest self.new }
        ensures err { OnErr result (self.new ≡ self.old) }
    {
        let number = case_number(case.id.numbers());
        self.cases.insert(number, case)
    }

    /// A net without items comes to the item at an identity, which has none. It takes no memory.
    pub fn attach_item_net(&mut self, id: &Ident, net: Box<NetState>)
        requires boxed { IsForest self.old }
        requires well { IsBoxedNet net.value }
        requires empty { nodes net.value ≡ [] }
        requires stands { IsSome (item_of self.old id.now) }
        requires vacant { net_of_item (item_of self.old id.now) ≡ None }
        ensures sites { GetsNet self.old self.new id.now net.value }
        ensures kept { IsForest self.new }
    {
        attach_to_item(self, id.numbers(), net);
    }

    /// A net without items comes to the run at an identity, which has none. It takes no memory.
    pub fn attach_run_net(&mut self, id: &Ident, net: Box<NetState>)
        requires boxed { IsForest self.old }
        requires well { IsBoxedNet net.value }
        requires empty { nodes net.value ≡ [] }
        requires stands { IsSome (run_of self.old id.now) }
        requires vacant { net_of_run (run_of self.old id.now) ≡ None }
        ensures sites { GetsNet self.old self.new id.now net.value }
        ensures kept { IsForest self.new }
    {
        if let Some(target) = self.run_mut(id) {
            set_run_net(target, net);
        }
    }

    /// One item more in the net at an identity, at the end of its task's list. It has no net and no run, and its identity comes
    /// after all that stands directly there. An `Err` says that no memory was left, and then the forest isn't used again.
    pub fn add_item(&mut self, id: &Ident, node: Node) -> Result<(), AllocError>
        requires boxed { IsForest self.old }
        requires comes { ItemMayCome self.old id.now node }
        ensures sites { OnOk result (Gets self.old self.new (out-Node node).id (λ names. item_site names node)) }
        ensures kept { OnOk result (IsForest self.new) }
    {
        let Some(net) = self.net_mut(id) else {
            unreachable!()
        };
        add_item(net, node)
    }

    /// A run without a net comes to the case or item at an identity, at which none hangs. It takes no memory.
    pub fn add_run(&mut self, id: &Ident, run: Box<Run>)
        requires boxed { IsForest self.old }
        requires comes { RunMayCome self.old id.now run.value }
        ensures sites { Gets self.old self.new (out-Run run.value).id (λ names. run_site names run.value) }
        ensures kept { IsForest self.new }
    {
        add_run_by(self, id.numbers(), run);
    }
}
