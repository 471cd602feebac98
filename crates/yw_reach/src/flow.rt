// Flows and the same flows the other way round.
ghost use Rattle.std.specs.Prelude.{◌≡◌, IfOk, map};
ghost use Rattle.yw_reach.specs.Flows.{turned};

use std::alloc::{AllocError, Global};

/// A flow from a node to a node. Nodes are numbers from 0 on.
#[derive(Clone, Copy, Debug, PartialEq, Eq)]
pub struct Flow {
    /// The node that it goes from.
    pub from: usize,
    /// The node that it goes to.
    pub to: usize,
}

/// The flow the other way round.
fn turn(flow: &Flow) -> Flow
    ensures { result ≡ turned flow.now }
{
    Flow {
        from: flow.to,
        to: flow.from,
    }
}

/// The flows the other way round.
pub fn turned_flows(alloc: Global, flows: &[Flow]) -> Result<Vec<Flow>, AllocError>
    ensures { IfOk result (λ v. v.items ≡ map turned flows.now) }
{
    flows.iter().map(turn).collect(alloc)
}
