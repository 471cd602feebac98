// Every node is on a directed path from input to output.
ghost use Rattle.std.specs.Prelude.{◌≡◌, ◌<◌, All, List, None, Some, IfOk, length};
ghost use Rattle.yw_accept.specs.Facts.{NetIsNamed, NetLeads};
ghost use Rattle.yw_accept.specs.Faults.{in_net};
ghost use Rattle.yw_accept.specs.Graph.{NodeIsOnPath, PathsFit};
ghost use Rattle.yw_accept.specs.Names.{FlowsFit, NamesFit};
ghost use Rattle.yw_accept.specs.Nodes.{nodes};
ghost use Rattle.yw_accept.specs.Order.{InOrder};
ghost use Rattle.yw_check_graph.specs.Graph.{FindsOffPath, name_at};

use crate::graph::{flows_of, nodes_of};
use std::alloc::{AllocError, Global};
use yw_accept::{Broken, index_of};
use yw_base::Text;
use yw_reach::first_off_path;
use yw_read::{RawNet, RawSpec};

/// The number of the first node that is on no path, or `None` where each is on one.
fn off_path(alloc: Global, net: &RawNet, names: &[Text]) -> Result<Option<usize>, AllocError>
    requires names { names.now ≡ nodes net.now }
    requires named { NetIsNamed net.now }
    requires leads { NetLeads net.now }
    ensures { IfOk result (FindsOffPath net.now) }
{
    let index = index_of(alloc, names)?;
    let flows = flows_of(alloc, &index, names, net.flows.as_slice())?;
    let found = first_off_path(alloc, names.len(), &flows, 0, 1)?;
    Ok(found)
}

fn broken_at(alloc: Global, net: &RawNet, names: &[Text], k: usize) -> Result<Broken, AllocError>
    requires { k < length names.now }
    ensures { IfOk result (λ b. b ≡ in_net 3 net.now.name (name_at names.now k)) }
{
    Broken::in_net(alloc, 3, &net.name, &names[k])
}

fn paths_of(alloc: Global, net: &RawNet) -> Result<Option<Broken>, AllocError>
    requires named { NetIsNamed net.now }
    requires leads { NetLeads net.now }
    ensures { IfOk result (InOrder (NodeIsOnPath net.now) (nodes net.now)) }
{
    let names = nodes_of(alloc, net)?;
    match off_path(alloc, net, &names)? {
        None => Ok(None),
        Some(k) => {
            let broken = broken_at(alloc, net, &names, k)?;
            Ok(Some(broken))
        }
    }
}

fn paths_in(alloc: Global, nets: &[RawNet]) -> Result<Option<Broken>, AllocError>
    requires named { All NetIsNamed nets.now }
    requires lead { All NetLeads nets.now }
    ensures { IfOk result (InOrder (λ net. InOrder (NodeIsOnPath net) (nodes net)) nets.now) }
{
    for net in nets {
        match paths_of(alloc, net)? {
            None => {}
            Some(broken) => return Ok(Some(broken)),
        }
    }
    Ok(None)
}

/// The third check: in each net every node, an input, an output, a condition or a task, is on a directed path
/// from the input to the output. This makes a net a workflow net (van der Aalst). The first node that is on
/// none is at fault. It takes time linear in the text; the only error is want of memory.
#[tactic(auto, unfolding(yw_accept::specs::Graph::PathsFit))]
pub fn paths_fit(alloc: Global, raw: &RawSpec) -> Result<Option<Broken>, AllocError>
    requires names { NamesFit raw.now None }
    requires flows { FlowsFit raw.now None }
    ensures { IfOk result (PathsFit raw.now) }
{
    let found = paths_in(alloc, raw.net.as_slice())?;
    Ok(found)
}
