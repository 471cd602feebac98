//! Items of a net that go and that come, and the nets of cases and items.
ghost use Rattle.std.specs.Prelude.{◌≡◌, ◌<◌, ◌≤◌, length, is_some, IfSome, None, OnOk};
ghost use Rattle.std.specs.Bool.{OnTrue, OnFalse};
ghost use Rattle.std.specs.Borrow.{sem};
ghost use Rattle.std.specs.Option.{option_copied_mut};
ghost use Rattle.yw_tree.specs.Boxed.{IsBoxedNet};
ghost use Rattle.yw_tree.specs.Forest.{item_of, top_of};
ghost use Rattle.yw_tree.specs.Lending.{LendsItemNet, LendsTop};
ghost use Rattle.yw_tree.specs.Shows.{AddsItem, EmptiesList, IsLast, KeepsOwn, LosesItem, LosesTask, NoneMore, TakesOut};
ghost use Rattle.yw_tree.specs.Ways.{net_of_item, place_of};
ghost use Rattle.yw_tree.specs.declared.NetState.{out-NetState};
ghost use Rattle.yw_tree.specs.declared.Node.{out-Node};

use crate::descend::{net_mut, place};
use crate::parts::item_by;
use crate::{Forest, NetState, Node};
use std::alloc::AllocError;
use yw_base::Ident;

/// Takes all items of a task away, with all under them. The net's own part and the items of other tasks stay.
pub fn clear_task(net: &mut NetState, t: usize)
    requires boxed { IsBoxedNet net.old }
    requires t_in { t < length (out-NetState net.old).items.items }
    ensures boxed { IsBoxedNet net.new }
    ensures children { NoneMore net.old net.new }
    ensures shows { LosesTask net.old net.new t }
    ensures empties { EmptiesList net.old net.new t }
{
    net.items[t].clear();
}

/// The net of the item at an identity, for writing.
pub fn item_net_by<'a>(forest: &'a mut Forest, id: &[u64]) -> Option<&'a mut NetState>
    requires { 1 ≤ length id.now }
    ensures* writes_back { sem 𝓛 (LendsItemNet forest.entry id.entry.now result) }
    ensures value { option_copied_mut result ≡ net_of_item (item_of forest.old id.now) }
{
    let node = item_by(forest, id)?;
    net_mut(node)
}

/// The net of a case, for writing.
pub fn top_mut(forest: &mut Forest, n: u64) -> Option<&mut NetState>
    ensures* writes_back { sem 𝓛 (LendsTop forest.entry n result) }
    ensures value { option_copied_mut result ≡ top_of forest.old n }
{
    let case = forest.cases.get_mut(n)?;
    Some(&mut case.net)
}

/// Takes the item of a net that leads to an identity away, with all under it. `false` says that none does. The net's own part and
/// all other items stay.
pub fn remove_item(net: &mut NetState, id: &[u64]) -> bool
    requires boxed { IsBoxedNet net.old }
    ensures boxed { IsBoxedNet net.new }
    ensures children { NoneMore net.old net.new }
    ensures shows { OnTrue result (LosesItem net.old net.new id.now) }
    ensures stays { OnFalse result (net.new ≡ net.old) }
    ensures stood { result ≡ is_some (place_of id.now net.old) }
    ensures keeps { KeepsOwn net.old net.new }
    ensures takes { IfSome (place_of id.now net.old) (TakesOut net.old net.new) }
{
    match place(net, id) {
        Some((t, i)) => {
            let _gone = net.items[t].remove(i);
            true
        }
        None => false,
    }
}

/// One item more, which has no net and no run, at the end of its task's list. An `Err` says that no memory was left, and
/// then the net isn't used again.
pub fn add_item(net: &mut NetState, node: Node) -> Result<(), AllocError>
    requires boxed { IsBoxedNet net.old }
    requires task_in { (out-Node node).task < length (out-NetState net.old).items.items }
    requires without_net { (out-Node node).net ≡ None }
    requires without_run { (out-Node node).run ≡ None }
    requires last { IsLast net.old node }
    ensures { OnOk result (AddsItem net.old net.new node) }
{
    let t = node.task;
    net.items[t].push(node)?;
    Ok(())
}
