// Nodes on paths.
ghost use Rattle.std.specs.Prelude.{◌≡◌, ℕ, ◌<◌, IfOk, All, length};
ghost use Rattle.yw_reach.specs.Flows.{IsWithin, Path, IsFirstOffPath};
ghost use Rattle.yw_reach.specs.Marking.{AreMarked, IsFirstLacking};

use crate::flow::turned_flows;
use crate::search::reached_from;
use crate::{Flow, Marks};
use std::alloc::{AllocError, Global};

/// Marks each node to which a path leads from `from`; `from` itself too, by the path of no flow. The nodes
/// are the numbers below `count`, and so are `from` and both ends of each flow.
///
/// It is the usual search: each node that is met is marked once, and the flows from it are followed once. So it
/// takes time and memory linear in nodes and flows. The only error is want of memory.
pub fn reached(
    alloc: Global,
    count: usize,
    flows: &[Flow],
    from: usize,
) -> Result<Marks, AllocError>
    requires from { from < count }
    requires flows { All (IsWithin count) flows.now }
    ensures { IfOk result (AreMarked count (λ k. Path flows.now from k)) }
{
    let mut starts = Marks::none(alloc, count)?;
    starts.mark(from);
    let marks = reached_from(alloc, count, flows, starts)?;
    Ok(marks)
}

/// Marks each node from which a path leads to `to`; `to` itself too, by the path of no flow. The nodes are
/// the numbers below `count`, and so are `to` and both ends of each flow.
///
/// It is `reached` along the flows the other way round, and takes time and memory linear in nodes and flows.
/// The only error is want of memory.
pub fn reaching(alloc: Global, count: usize, flows: &[Flow], to: usize) -> Result<Marks, AllocError>
    requires to { to < count }
    requires flows { All (IsWithin count) flows.now }
    ensures { IfOk result (AreMarked count (λ k. Path flows.now k to)) }
{
    let back = turned_flows(alloc, flows)?;
    let marks = reached(alloc, count, &back, to)?;
    Ok(marks)
}

/// The first node that lacks one of two marks.
fn first_lacking(one: &Marks, two: &Marks) -> Option<usize>
    requires { length one.now ≡ length two.now }
    ensures { IsFirstLacking (length one.now) one.now two.now result }
{
    for node in 0..one.len() {
        if !one.get(node) || !two.get(node) {
            return Some(node);
        }
    }
    None
}

/// The first node, in order of numbers, that isn't on a path from `input` to `output`; None where each is. The
/// nodes are the numbers below `count`, and so are `input`, `output` and both ends of each flow.
///
/// That every node of a net is on a path from its input to its output is what makes the net a workflow net
/// (van der Aalst, "Verification of Workflow Nets", 1997). It takes time and memory linear in nodes and flows.
/// The only error is want of memory.
pub fn first_off_path(
    alloc: Global,
    count: usize,
    flows: &[Flow],
    input: usize,
    output: usize,
) -> Result<Option<usize>, AllocError>
    requires input { input < count }
    requires output { output < count }
    requires flows { All (IsWithin count) flows.now }
    ensures { IfOk result (IsFirstOffPath count flows.now input output) }
{
    let behind = reached(alloc, count, flows, input)?;
    let before = reaching(alloc, count, flows, output)?;
    Ok(first_lacking(&behind, &before))
}
