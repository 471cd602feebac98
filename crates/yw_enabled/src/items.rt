// Whether an item goes on without a person, and whether a case is at its end.
ghost use Rattle.std.specs.Prelude.{◌≡◌};
ghost use Rattle.yw_enabled.specs.Items.{CaseEndsAs, IsAtOutputAs, StepsAs, case_at_end, is_at_output, item_step, step_of};

use yw_mark::is_marked;
use yw_spec::{Kind, Net, Task};
use yw_state::Stage;
use yw_tree::{Case, NetState, Node};

/// How an item goes on without a person. Child nets are the paper's, worklets the thesis's; an empty task is our own.
#[derive(Clone, Copy, Debug, PartialEq, Eq)]
pub enum ItemStep {
    /// The child net of its task begins.
    StartSub,
    /// Its child net is at its end, and it is completed.
    CompleteSub,
    /// It is completed, as the item of an empty task.
    CompleteEmpty,
    /// Its worklet is at its end, and it is completed.
    CompleteWorklet,
}

/// A net that stands somewhere is at its end: a token is on its output. `net` is what the specification says of it. It takes no memory.
pub fn is_at_output(net: &Net, state: &NetState) -> bool
    ensures value { result ≡ is_at_output state.now net.now }
    ensures stands { IsAtOutputAs net.now state.now result }
{
    is_marked(&state.marks, net.output)
}

/// How an item goes on.
fn step_of(stage: Stage, kind: &Kind, busy: bool, ends: bool) -> Option<ItemStep>
    ensures { result ≡ step_of stage kind.now busy ends }
{
    match (stage, kind, busy, ends) {
        (Stage::Ready, Kind::Empty, _, _) => Some(ItemStep::CompleteEmpty),
        (Stage::Ready, Kind::Sub(_), false, _) => Some(ItemStep::StartSub),
        (Stage::Executing, Kind::Sub(_), false, true) => Some(ItemStep::CompleteSub),
        (Stage::Executing, Kind::Atomic, false, true) => Some(ItemStep::CompleteWorklet),
        _ => None,
    }
}

/// How an item goes on without a person, where nothing holds work at it. `task` is its task; `ends` says whether a net stands at it that is at
/// its end. `None` says that it doesn't go on. It takes no memory.
pub fn item_step(node: &Node, task: &Task, ends: bool) -> Option<ItemStep>
    ensures value { result ≡ item_step node.now task.now ends }
    ensures goes { StepsAs node.now task.now ends result }
{
    step_of(node.stage, &task.kind, node.run.is_some(), ends)
}

/// Whether a case is at its end, where nothing holds work there: no exlet is at work on it, and its net is at its end. `net` is what the
/// specification says of that net. It takes no memory.
pub fn case_ends(case: &Case, net: &Net) -> bool
    ensures value { result ≡ case_at_end case.now net.now }
    ensures ends { CaseEndsAs case.now net.now result }
{
    !case.run.is_some() && is_at_output(net, &case.net)
}
