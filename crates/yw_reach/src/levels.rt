// Nodes by how many flows lead to them.
ghost use Rattle.std.specs.Prelude.{◌≡◌, ℕ, ◌<◌, IfOk, All, length};
ghost use Rattle.yw_reach.specs.Flows.{IsWithin, HasFlow, IsBehind, Walk};
ghost use Rattle.yw_reach.specs.Marking.{AreMarked, Marked};

use crate::search::reached_from;
use crate::{Flow, Marks};
use std::alloc::{AllocError, Global};

/// The nodes to which a flow leads from a node that is marked.
fn next_level(
    alloc: Global,
    count: usize,
    flows: &[Flow],
    level: &Marks,
) -> Result<Marks, AllocError>
    requires level { length level.now ≡ count }
    requires flows { All (IsWithin count) flows.now }
    ensures { IfOk result (AreMarked count
        (λ b. (a : ℕ) × Marked level.now a × HasFlow flows.now a b)) }
{
    let mut next = Marks::none(alloc, count)?;
    for flow in flows {
        if level.get(flow.from) {
            next.mark(flow.to);
        }
    }
    Ok(next)
}

/// The nodes to which a walk of exactly `steps` flows leads from `from`.
fn level_at(
    alloc: Global,
    count: usize,
    flows: &[Flow],
    from: usize,
    steps: usize,
) -> Result<Marks, AllocError>
    requires from { from < count }
    requires flows { All (IsWithin count) flows.now }
    ensures { IfOk result (AreMarked count (λ k. Walk flows.now from k steps)) }
{
    let mut level = Marks::none(alloc, count)?;
    level.mark(from);
    'steps: for _ in 0..steps {
        level = next_level(alloc, count, flows, &level)?;
    }
    Ok(level)
}

/// Marks each node to which some walk of `steps` flows or more leads from `from`, whether the graph has
/// cycles or not. The nodes are the numbers below `count`, and so are `from` and both ends of each flow.
///
/// It goes on by whole levels, each the nodes to which a walk of exactly so many flows leads, and marks
/// what is reached from the last. So it takes time linear in nodes and flows for each of the steps, and memory
/// linear in nodes and flows. The only error is want of memory.
pub fn far(
    alloc: Global,
    count: usize,
    flows: &[Flow],
    from: usize,
    steps: usize,
) -> Result<Marks, AllocError>
    requires from { from < count }
    requires flows { All (IsWithin count) flows.now }
    ensures { IfOk result (AreMarked count (λ k. IsBehind flows.now from k steps)) }
{
    let level = level_at(alloc, count, flows, from, steps)?;
    let marks = reached_from(alloc, count, flows, level)?;
    Ok(marks)
}
