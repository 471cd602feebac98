// Whether a graph has a cycle.
ghost use Rattle.std.specs.Prelude.{◌≡◌, ◌↔◌, ◌<◌, ◌≤◌, ℕ, [], ◌∷◌, IsTrue, IfOk, OnOk, All, Contains, length, get_or};
ghost use Rattle.yw_reach.specs.Flows.{IsWithin, Cycle};
ghost use Rattle.yw_reach.specs.Trimming.{Lowers, flows_into, occurrences, weight};

use crate::Flow;
use crate::rows::{row_at, rows_of};
use std::alloc::{AllocError, Global};

/// How many flows into each node are left, and the nodes that can be taken away since none is.
#[derive(Drop)]
struct Trimming {
    incoming: Vec<usize>,
    free: Vec<usize>,
}

/// Takes away one flow into a node, of which one is left. Where it was the last, the node is free.
fn lower(trimming: &mut Trimming, node: usize) -> Result<(), AllocError>
    requires { 0 < get_or trimming.old.incoming.items node 0 }
    ensures { OnOk result (Lowers (node ∷ []) trimming.old.incoming.items trimming.old.free.items
        trimming.new.incoming.items trimming.new.free.items) }
{
    let left = trimming.incoming[node] - 1;
    trimming.incoming[node] = left;
    if left == 0 {
        trimming.free.push(node)?;
    }
    Ok(())
}

/// Takes away a flow into each node of a row.
fn lower_all(trimming: &mut Trimming, row: &[usize]) -> Result<(), AllocError>
    requires { (k : ℕ) → occurrences k row.now ≤ get_or trimming.old.incoming.items k 0 }
    ensures { OnOk result (Lowers row.now trimming.old.incoming.items trimming.old.free.items
        trimming.new.incoming.items trimming.new.free.items) }
{
    for node in row {
        lower(trimming, *node)?;
    }
    Ok(())
}

/// How many flows lead into each node.
fn incoming_of(alloc: Global, count: usize, flows: &[Flow]) -> Result<Vec<usize>, AllocError>
    requires { All (IsWithin count) flows.now }
    ensures len { IfOk result (λ v. length v.items ≡ count) }
    ensures counts { IfOk result (λ v. (k : ℕ) → get_or v.items k 0
        ≡ flows_into (λ _. 1) k flows.now) }
{
    let mut incoming = vec![in alloc; 0; count]?;
    for flow in flows {
        incoming[flow.to] += 1;
    }
    Ok(incoming)
}

/// The nodes into which no flow leads, each once.
fn free_nodes(alloc: Global, incoming: &[usize]) -> Result<Vec<usize>, AllocError>
    ensures within { IfOk result (λ v. All (λ k. k < length incoming.now) v.items) }
    ensures once { IfOk result (λ v. (k : ℕ) → k < length incoming.now
        → weight incoming.now v.items k ≡ 1) }
{
    let mut free = Vec::new(alloc);
    for (node, left) in incoming.iter().enumerate() {
        if *left == 0 {
            free.push(node)?;
        }
    }
    Ok(free)
}

/// Whether a flow into some node is left.
fn is_any_left(incoming: &[usize]) -> bool
    ensures { IsTrue result ↔ ((k : ℕ) × (0 < get_or incoming.now k 0)) }
{
    for left in incoming {
        if *left != 0 {
            return true;
        }
    }
    false
}

/// Whether the graph has a cycle, one of a single flow from a node to itself too. The nodes are the numbers
/// below `count`, and so are both ends of each flow.
///
/// Nodes into which no flow leads are taken away with the flows from them, until there is none; some are left
/// exactly where there is a cycle (Kahn, "Topological sorting of large networks", 1962). It takes time and
/// memory linear in nodes and flows. The only error is want of memory.
pub fn is_cyclic(alloc: Global, count: usize, flows: &[Flow]) -> Result<bool, AllocError>
    requires { All (IsWithin count) flows.now }
    ensures { IfOk result (λ found. IsTrue found ↔ Cycle flows.now) }
{
    let rows = rows_of(alloc, count, flows)?;
    let incoming = incoming_of(alloc, count, flows)?;
    let free = free_nodes(alloc, &incoming)?;
    let mut trimming = Trimming { incoming, free };
    'free: while let Some(node) = trimming.free.pop() {
        lower_all(&mut trimming, row_at(&rows, node))?;
    }
    Ok(is_any_left(&trimming.incoming))
}
