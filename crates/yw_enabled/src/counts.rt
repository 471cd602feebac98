// How many items of each task of a net count.
ghost use Rattle.std.specs.Prelude.{◌≡◌, IfOk, Some};
ghost use Rattle.yw_enabled.specs.Left.{TellsNet, done_count};

use crate::left::is_done;
use std::alloc::{AllocError, Global};
use yw_tree::{NetState, Node};

/// How many of these items count.
fn done_count(nodes: &[Node]) -> usize
    ensures { result ≡ done_count nodes.now }
{
    let mut done = 0;
    for node in nodes {
        if is_done(node) {
            done += 1;
        }
    }
    done
}

/// How many items of each task of a net count, so that `first_left` needn't ask them. An `Err` says that no memory was left.
pub fn done_counts(alloc: Global, state: &NetState) -> Result<Vec<usize>, AllocError>
    ensures { IfOk result (λ counts. TellsNet state.now (Some counts.items)) }
{
    let mut counts = Vec::with_capacity(alloc, state.items.len())?;
    for nodes in &state.items {
        counts.push(done_count(nodes))?;
    }
    Ok(counts)
}
