// The second check: between which nodes flows go. An `Err` says that no memory was left.
ghost use Rattle.std.specs.Prelude.{[], None, All, IfOk};
ghost use Rattle.yw_accept.specs.Facts.{NetIsNamed};
ghost use Rattle.yw_accept.specs.Names.{FlowFits, FlowsFit, NamesFit};
ghost use Rattle.yw_accept.specs.Order.{InOrder, InTurn};
ghost use Rattle.yw_check_names.specs.NetNodes.{AreNodes};
ghost use Rattle.yw_check_names.specs.Seen.{Tries, TriesAll};
ghost use Rattle.yw_check_names.specs.Flows.{KnowsFlows, NotesFlow};

use crate::net_nodes::{NetNodes, arrow};
use crate::seen::{NameSet, add};
use std::alloc::{AllocError, Global};
use std::collections::BTreeSet;
use yw_accept::Broken;
use yw_read::{RawFlow, RawNet, RawSpec};

/// Notes a flow among those seen. It answers whether the flow may stand in the net and wasn't seen before.
fn note_flow(
    alloc: Global,
    net: &RawNet,
    nodes: &NetNodes,
    seen: &mut NameSet,
    flow: &RawFlow,
) -> Result<bool, AllocError>
    requires named { NetIsNamed net.now }
    requires nodes { AreNodes net.now nodes.now }
    ensures { IfOk result (NotesFlow net.now seen.old seen.new flow.now) }
{
    if !nodes.may_lead(net, flow) {
        return Ok(false);
    }
    let text = arrow(alloc, flow)?;
    let is_new = add(seen, text)?;
    Ok(is_new)
}

/// A flow beside those seen.
fn try_flow(
    alloc: Global,
    net: &RawNet,
    nodes: &NetNodes,
    seen: &mut NameSet,
    flow: &RawFlow,
) -> Result<Option<Broken>, AllocError>
    requires named { NetIsNamed net.now }
    requires nodes { AreNodes net.now nodes.now }
    ensures { IfOk result (Tries KnowsFlows (FlowFits net.now) seen.old seen.new flow.now) }
{
    if note_flow(alloc, net, nodes, seen, flow)? {
        return Ok(None);
    }
    let broken = Broken::in_net(alloc, 2, &net.name, &flow.from)?;
    Ok(Some(broken))
}

/// Flows beside those seen.
fn try_flows(
    alloc: Global,
    net: &RawNet,
    nodes: &NetNodes,
    seen: &mut NameSet,
    flows: &[RawFlow],
) -> Result<Option<Broken>, AllocError>
    requires named { NetIsNamed net.now }
    requires nodes { AreNodes net.now nodes.now }
    ensures { IfOk result (TriesAll KnowsFlows (FlowFits net.now) seen.old seen.new flows.now) }
{
    for flow in flows {
        if let Some(broken) = try_flow(alloc, net, nodes, seen, flow)? {
            return Ok(Some(broken));
        }
    }
    Ok(None)
}

/// The flows of a net.
fn check_net(alloc: Global, net: &RawNet) -> Result<Option<Broken>, AllocError>
    requires { NetIsNamed net.now }
    ensures { IfOk result (InTurn (FlowFits net.now) [] net.now.flows) }
{
    let nodes = NetNodes::of(alloc, net)?;
    let mut seen = BTreeSet::new(alloc);
    let found = try_flows(alloc, net, &nodes, &mut seen, net.flows.as_slice())?;
    Ok(found)
}

/// The flows of nets.
fn check_nets(alloc: Global, nets: &[RawNet]) -> Result<Option<Broken>, AllocError>
    requires { All NetIsNamed nets.now }
    ensures { IfOk result (InOrder (λ net. InTurn (FlowFits net) [] net.flows) nets.now) }
{
    for net in nets {
        if let Some(broken) = check_net(alloc, net)? {
            return Ok(Some(broken));
        }
    }
    Ok(None)
}

/// The second check: a flow goes from a condition other than the output to a task, from a task to a condition other
/// than the input, or from a task to a task; and no flow comes twice in a net.
///
/// It gives the first flow at fault, net by net in document order and each net's flows in theirs: the net and the
/// node that the flow leaves, `?` where that isn't a name. Of two equal flows the later one is at fault. It is `None`
/// exactly where none is.
///
/// The first check has to have found nothing: among names the text `from->to` tells flows apart. An `Err` says that
/// no memory was left. The check and its order are our own. It takes time n log n for n nodes and flows.
#[tactic(auto, unfolding(yw_accept::specs::Names::FlowsFit))]
pub fn flows_fit(alloc: Global, raw: &RawSpec) -> Result<Option<Broken>, AllocError>
    requires names { NamesFit raw.now None }
    ensures { IfOk result (FlowsFit raw.now) }
{
    let found = check_nets(alloc, raw.net.as_slice())?;
    Ok(found)
}
