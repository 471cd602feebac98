// Nets don't nest too deep.
ghost use Rattle.std.specs.Prelude.{◌≡◌, ℕ, ◌<◌, length, None, IfOk};
ghost use Rattle.yw_accept.specs.Graph.{LevelsFit};
ghost use Rattle.yw_accept.specs.Names.{NamesFit};
ghost use Rattle.yw_check_graph.specs.Nets.{IsFirstWithout};
ghost use Rattle.yw_reach.specs.Marking.{Marked};

use crate::nets::{broken_net, net_graph};
use std::alloc::{AllocError, Global};
use yw_accept::Broken;
use yw_reach::{Marks, far};
use yw_read::RawSpec;

/// How many nets may stand on a way down from the top.
const MOST_LEVELS: usize = 8;

/// The first node that is marked.
fn first_marked(marks: &Marks) -> Option<usize>
    ensures { IsFirstWithout (λ k. Marked marks.now k → ⊥) (length marks.now) result }
{
    for node in 0..marks.len() {
        if marks.get(node) {
            return Some(node);
        }
    }
    None
}

/// The seventh check: at most 8 nets stand on a way down from the top, where a net is followed by each net that a
/// task of it names. The first net in document order that is the ninth or a later one on a way is at fault. It
/// takes time linear in the text but for looking names up, which takes the logarithm of the number of nets more;
/// the only error is want of memory. Our own.
#[tactic(auto, unfolding(yw_accept::specs::Graph::LevelsFit))]
pub fn levels_fit(alloc: Global, raw: &RawSpec) -> Result<Option<Broken>, AllocError>
    requires { NamesFit raw.now None }
    ensures { IfOk result (LevelsFit raw.now) }
{
    let graph = net_graph(alloc, raw)?;
    let deep = far(alloc, graph.count, &graph.flows, graph.top, MOST_LEVELS)?;
    match first_marked(&deep) {
        None => Ok(None),
        Some(number) => {
            let broken = broken_net(alloc, 7, raw.net.as_slice(), number)?;
            Ok(Some(broken))
        }
    }
}
