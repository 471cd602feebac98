// A forest that grows by rows whose identities ascend: each comes after all that stands.
ghost use Rattle.std.specs.Prelude.{◌≡◌, ◌↔◌, [], true, None, Box, option_map, IfOk, IsSome, IsSomeAnd, IsTrue, OnErr, OnOk};
ghost use Rattle.std.specs.Option.{option_copied};
ghost use Rattle.yw_revive.specs.Grown.{AllBefore, AttachesNet, Grows, IsBareNet, IsItemGrown, IsRunGrown, is_free};
ghost use Rattle.yw_state.specs.Identity.{is_case_ident};
ghost use Rattle.yw_tree.specs.Boxed.{Held, IsBoxedCase};
ghost use Rattle.yw_tree.specs.Coming.{HasTask};
ghost use Rattle.yw_tree.specs.Entries.{case_site, nodes};
ghost use Rattle.yw_tree.specs.Forest.{IsForest, item_of};
ghost use Rattle.yw_tree.specs.Places.{net_of_run, run_of};
ghost use Rattle.yw_tree.specs.Spots.{part_at, part_of};
ghost use Rattle.yw_tree.specs.Ways.{net_of_item};
ghost use Rattle.yw_tree.specs.declared.Node.{out-Node};
ghost use Rattle.yw_tree.specs.declared.Run.{out-Run};

use std::alloc::{AllocError, Global};
use yw_base::Ident;
use yw_tree::{Case, Forest, NetState, Node, Run, Spot};

/// A case comes in which nothing stands yet. An `Err` says that no memory was left, and changes nothing.
pub fn grow_case(forest: &mut Forest, case: Case) -> Result<(), AllocError>
    requires boxed { IsForest forest.old }
    requires last { AllBefore forest.old case.id }
    requires alone { is_case_ident case.id ≡ true }
    requires well { IsBoxedCase case }
    requires empty { nodes case.net ≡ [] }
    requires idle { case.run ≡ None }
    ensures ok { OnOk result (Grows forest.old case.id (λ names. case_site names case) forest.new) }
    ensures err { OnErr result (forest.new ≡ forest.old) }
{
    forest.add_case(case)
}

// The net has this task.
fn has_task(net: Option<&NetState>, t: usize) -> bool
    ensures { IsTrue result ↔ IsSomeAnd (option_copied net.entry) (HasTask t) }
{
    match net {
        Some(net) => t < net.items.len(),
        None => false,
    }
}

// The net comes to the item, if there is one.
fn attach_to_item(forest: &mut Forest, id: &Ident, net: Option<Box<NetState>>)
    requires boxed { IsForest forest.old }
    requires bare { Held IsBareNet net }
    requires stands { IsSome (item_of forest.old id.now) }
    requires vacant { net_of_item (item_of forest.old id.now) ≡ None }
    ensures sites { AttachesNet forest.old id.now net forest.new }
    ensures kept { IsForest forest.new }
{
    if let Some(net) = net {
        forest.attach_item_net(id, net);
    }
}

/// An item comes, with this net if one is given, in which nothing stands yet, and without a run. `false` says that
/// no net stands above it that has its task, and nothing has changed. After an `Err`, which says that no memory was
/// left, the forest isn't used again.
pub fn grow_item(
    alloc: Global,
    forest: &mut Forest,
    node: Node,
    net: Option<Box<NetState>>,
) -> Result<bool, AllocError>
    requires boxed { IsForest forest.old }
    requires last { AllBefore forest.old (out-Node node).id }
    requires without_net { (out-Node node).net ≡ None }
    requires without_run { (out-Node node).run ≡ None }
    requires bare { Held IsBareNet net }
    ensures { IfOk result (λ grown. IsItemGrown forest.old node net grown forest.new) }
{
    let Some(above) = node.id.parent(alloc)? else {
        return Ok(false);
    };
    if !has_task(forest.net(&above), node.task) {
        return Ok(false);
    }
    let id = node.id.copy(alloc)?;
    let _ = id.numbers();
    forest.add_item(&above, node)?;
    attach_to_item(forest, &id, net);
    Ok(true)
}

// A run may hang at what stands here: a case or an item at which none hangs.
fn is_free(spot: Option<Spot<'_>>) -> bool
    ensures { result ≡ is_free (option_map part_of spot.entry) }
{
    match spot {
        Some(Spot::Case(case)) => case.run.is_none(),
        Some(Spot::Item(node)) => node.run.is_none(),
        Some(Spot::Run(_)) => false,
        None => false,
    }
}

// The net comes to the run, if there is one.
fn attach_to_run(forest: &mut Forest, id: &Ident, net: Option<Box<NetState>>)
    requires boxed { IsForest forest.old }
    requires bare { Held IsBareNet net }
    requires stands { IsSome (run_of forest.old id.now) }
    requires vacant { net_of_run (run_of forest.old id.now) ≡ None }
    ensures sites { AttachesNet forest.old id.now net forest.new }
    ensures kept { IsForest forest.new }
{
    if let Some(net) = net {
        forest.attach_run_net(id, net);
    }
}

/// A run comes, with this net if one is given, in which nothing stands yet. `false` says that above it no case or
/// item stands at which no run hangs, and nothing has changed. An `Err` says that no memory was left, and changes
/// nothing.
pub fn grow_run(
    alloc: Global,
    forest: &mut Forest,
    run: Run,
    net: Option<Box<NetState>>,
) -> Result<bool, AllocError>
    requires boxed { IsForest forest.old }
    requires last { AllBefore forest.old (out-Run run).id }
    requires without_net { (out-Run run).net ≡ None }
    requires bare { Held IsBareNet net }
    ensures ok { IfOk result (λ grown. IsRunGrown forest.old run net grown forest.new) }
    ensures err { OnErr result (forest.new ≡ forest.old) }
{
    let Some(above) = run.id.parent(alloc)? else {
        return Ok(false);
    };
    if !is_free(forest.find(&above)) {
        return Ok(false);
    }
    let id = run.id.copy(alloc)?;
    let _ = id.numbers();
    let run = Box::new(alloc, run)?;
    forest.add_run(&above, run);
    attach_to_run(forest, &id, net);
    Ok(true)
}
