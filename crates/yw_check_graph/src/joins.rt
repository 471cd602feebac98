// A net with an OR-join has no directed cycle.
ghost use Rattle.std.specs.Prelude.{◌≡◌, ◌↔◌, All, None, IfOk, IsTrue};
ghost use Rattle.yw_accept.specs.Facts.{NetIsNamed, NetLeads};
ghost use Rattle.yw_accept.specs.Graph.{OrJoinFits, OrJoinsFit};
ghost use Rattle.yw_accept.specs.Names.{FlowsFit, NamesFit};
ghost use Rattle.yw_accept.specs.Nodes.{HasFlow};
ghost use Rattle.yw_accept.specs.Order.{InOrder};
ghost use Rattle.yw_check_graph.specs.Graph.{FindsOrJoin};
ghost use Rattle.yw_reach.specs.Walks.{CycleAlong};

use crate::graph::{flows_of, nodes_of};
use std::alloc::{AllocError, Global};
use yw_accept::{Broken, index_of};
use yw_base::Gate;
use yw_reach::is_cyclic;
use yw_read::{RawNet, RawSpec, RawTask};

fn has_cycle(alloc: Global, net: &RawNet) -> Result<bool, AllocError>
    requires named { NetIsNamed net.now }
    requires leads { NetLeads net.now }
    ensures { IfOk result (λ found. IsTrue found ↔ CycleAlong (HasFlow net.now)) }
{
    let names = nodes_of(alloc, net)?;
    let index = index_of(alloc, &names)?;
    let flows = flows_of(alloc, &index, &names, net.flows.as_slice())?;
    let found = is_cyclic(alloc, names.len(), &flows)?;
    Ok(found)
}

/// The first task that has an OR-join, or `None` where none has.
fn or_join(tasks: &[RawTask]) -> Option<&RawTask>
    ensures { FindsOrJoin tasks.now result }
{
    for task in tasks {
        if task.join == Gate::Or {
            return Some(task);
        }
    }
    None
}

fn joins_of(alloc: Global, net: &RawNet) -> Result<Option<Broken>, AllocError>
    requires named { NetIsNamed net.now }
    requires leads { NetLeads net.now }
    ensures { IfOk result (InOrder (OrJoinFits net.now) net.now.task) }
{
    match or_join(net.task.as_slice()) {
        None => Ok(None),
        Some(task) => {
            if !has_cycle(alloc, net)? {
                return Ok(None);
            }
            let broken = Broken::in_net(alloc, 8, &net.name, &task.name)?;
            Ok(Some(broken))
        }
    }
}

fn joins_in(alloc: Global, nets: &[RawNet]) -> Result<Option<Broken>, AllocError>
    requires named { All NetIsNamed nets.now }
    requires lead { All NetLeads nets.now }
    ensures { IfOk result (InOrder (λ net. InOrder (OrJoinFits net) net.task) nets.now) }
{
    for net in nets {
        match joins_of(alloc, net)? {
            None => {}
            Some(broken) => return Ok(Some(broken)),
        }
    }
    Ok(None)
}

/// The eighth check: a net with an OR-join has no directed cycle, since an OR-join waits for what may still
/// come on a path to it. The first task with an OR-join of a net that has a cycle is at fault. It takes time
/// linear in the text; the only error is want of memory. Our own.
#[tactic(auto, unfolding(yw_accept::specs::Graph::OrJoinsFit))]
pub fn or_joins_fit(alloc: Global, raw: &RawSpec) -> Result<Option<Broken>, AllocError>
    requires names { NamesFit raw.now None }
    requires flows { FlowsFit raw.now None }
    ensures { IfOk result (OrJoinsFit raw.now) }
{
    let found = joins_in(alloc, raw.net.as_slice())?;
    Ok(found)
}
