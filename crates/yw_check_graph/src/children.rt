// No net uses itself, and each is reached from the top.
ghost use Rattle.std.specs.Prelude.{◌≡◌, ◌↔◌, ℕ, ◌<◌, ◌&&◌, length, get_or, not, None, IfOk, IsTrue, Contains};
ghost use Rattle.std.specs.Str.{bytes_eq};
ghost use Rattle.yw_accept.specs.Facts.{IsNamed};
ghost use Rattle.yw_accept.specs.Graph.{ChildFits, ChildrenFit, may_be_child};
ghost use Rattle.yw_accept.specs.Index.{IsIndexOf};
ghost use Rattle.yw_accept.specs.Names.{NamesFit};
ghost use Rattle.yw_accept.specs.Nodes.{is_net, net_names};
ghost use Rattle.yw_accept.specs.Order.{InOrder};
ghost use Rattle.yw_check_graph.specs.Nets.{IsFirstWithout, IsMarkedAt, IsNetGraph, IsWithinMarks, NetChildrenFit, NetIsReached, TellsBack};
ghost use Rattle.yw_reach.specs.Flows.{Cycle};
ghost use Rattle.yw_reach.specs.Marking.{Marked};
ghost use Rattle.yw_read.specs.declared.raw.RawNet.{RawNet};

use crate::nets::{NetGraph, broken_net, child_number, net_graph};
use std::alloc::{AllocError, Global};
use yw_accept::{Broken, Index, has};
use yw_base::Text;
use yw_reach::{Marks, is_cyclic, reached, reaching};
use yw_read::{RawNet, RawSpec, RawTask};

/// It names a net other than the top.
fn is_other(raw: &RawSpec, index: &Index, name: &Text) -> bool
    requires { IsIndexOf (net_names raw.now.net) index.now }
    ensures { result ≡ (is_net raw.now name.now && not (bytes_eq name.now raw.now.top)) }
{
    has(index, name.as_str()) && name.as_str() != raw.top.as_str()
}

/// It stands for a net exactly where it names one, which is another than the top.
fn may_be_child(raw: &RawSpec, index: &Index, task: &RawTask) -> bool
    requires { IsIndexOf (net_names raw.now.net) index.now }
    ensures { result ≡ may_be_child raw.now task.now.kind task.now.net }
{
    match &task.net {
        Some(net) => task.kind.is_composite() && is_other(raw, index, net),
        None => !task.kind.is_composite(),
    }
}

/// The nets that lead to the net with this number are marked. There are no marks where no net uses itself.
fn back_to(
    alloc: Global,
    raw: &RawSpec,
    graph: &NetGraph,
    cyclic: bool,
    number: usize,
) -> Result<Option<Marks>, AllocError>
    requires named { IsNamed raw.now }
    requires graph { IsNetGraph raw.now graph.now }
    requires cyclic { IsTrue cyclic ↔ Cycle graph.now.flows.items }
    requires number { number < length raw.now.net }
    ensures { IfOk result (λ back. (net : RawNet) → TellsBack raw.now (get_or raw.now.net number net) back) }
{
    if !cyclic {
        return Ok(None);
    }
    let marks = reaching(alloc, graph.count, &graph.flows, number)?;
    Ok(Some(marks))
}

fn is_marked(back: &Option<Marks>, number: Option<usize>) -> bool
    requires { IsWithinMarks back.now number }
    ensures { IsTrue result ↔ IsMarkedAt back.now number }
{
    match back {
        None => false,
        Some(marks) => match number {
            None => false,
            Some(number) => marks.get(number),
        },
    }
}

fn check_child(
    alloc: Global,
    raw: &RawSpec,
    graph: &NetGraph,
    back: &Option<Marks>,
    net: &RawNet,
    task: &RawTask,
) -> Result<Option<Broken>, AllocError>
    requires graph { IsNetGraph raw.now graph.now }
    requires net { Contains raw.now.net net.now }
    requires back { TellsBack raw.now net.now back.now }
    requires task { Contains net.now.task task.now }
    ensures { IfOk result (ChildFits raw.now net.now task.now) }
{
    if may_be_child(raw, &graph.index, task) && !is_marked(back, child_number(&graph.index, task)) {
        return Ok(None);
    }
    let broken = Broken::in_net(alloc, 6, &net.name, &task.name)?;
    Ok(Some(broken))
}

fn check_net(
    alloc: Global,
    raw: &RawSpec,
    graph: &NetGraph,
    back: &Option<Marks>,
    net: &RawNet,
) -> Result<Option<Broken>, AllocError>
    requires graph { IsNetGraph raw.now graph.now }
    requires net { Contains raw.now.net net.now }
    requires back { TellsBack raw.now net.now back.now }
    ensures { IfOk result (NetChildrenFit raw.now net.now) }
{
    for task in net.task.as_slice() {
        match check_child(alloc, raw, graph, back, net, task)? {
            None => {}
            Some(broken) => return Ok(Some(broken)),
        }
    }
    Ok(None)
}

/// The first task whose kind and net don't go together, or whose net leads back to the task's own.
fn check_tasks(alloc: Global, raw: &RawSpec, graph: &NetGraph) -> Result<Option<Broken>, AllocError>
    requires named { IsNamed raw.now }
    requires graph { IsNetGraph raw.now graph.now }
    ensures { IfOk result (InOrder (NetChildrenFit raw.now) raw.now.net) }
{
    let cyclic = is_cyclic(alloc, graph.count, &graph.flows)?;
    for (number, net) in raw.net.as_slice().iter().enumerate() {
        let back = back_to(alloc, raw, graph, cyclic, number)?;
        match check_net(alloc, raw, graph, &back, net)? {
            None => {}
            Some(broken) => return Ok(Some(broken)),
        }
    }
    Ok(None)
}

/// The first node that isn't marked.
fn first_unmarked(marks: &Marks) -> Option<usize>
    ensures { IsFirstWithout (Marked marks.now) (length marks.now) result }
{
    for node in 0..marks.len() {
        if !marks.get(node) {
            return Some(node);
        }
    }
    None
}

/// The first net that isn't reached from the top.
fn check_nets(alloc: Global, raw: &RawSpec, graph: &NetGraph) -> Result<Option<Broken>, AllocError>
    requires named { IsNamed raw.now }
    requires graph { IsNetGraph raw.now graph.now }
    ensures { IfOk result (InOrder (NetIsReached raw.now) raw.now.net) }
{
    let marks = reached(alloc, graph.count, &graph.flows, graph.top)?;
    match first_unmarked(&marks) {
        None => Ok(None),
        Some(number) => {
            let broken = broken_net(alloc, 6, raw.net.as_slice(), number)?;
            Ok(Some(broken))
        }
    }
}

/// The sixth check: a task has the key `net` exactly where its kind is sub, and names by it a net other than the
/// top; no net uses itself, also not through nets that it uses; each net is reached from the top through tasks that
/// name nets. The first task that breaks this is at fault, one that is in a net to which the net that it names leads;
/// where no task is, the first net that isn't reached.
///
/// Whether some net uses itself is one pass over the nets and the tasks that name them, so a text in which none does
/// takes time linear in the text but for looking names up, which takes the logarithm of the number of nets more.
/// Where one does, each net up to the task at fault takes a pass. The only error is want of memory. Our own.
#[tactic(auto, unfolding(yw_accept::specs::Graph::ChildrenFit))]
pub fn children_fit(alloc: Global, raw: &RawSpec) -> Result<Option<Broken>, AllocError>
    requires { NamesFit raw.now None }
    ensures { IfOk result (ChildrenFit raw.now) }
{
    let graph = net_graph(alloc, raw)?;
    match check_tasks(alloc, raw, &graph)? {
        Some(broken) => Ok(Some(broken)),
        None => {
            let found = check_nets(alloc, raw, &graph)?;
            Ok(found)
        }
    }
}
