// Which rule a command breaks first, of those that an item shows.
ghost use Rattle.std.specs.Prelude.{◌≡◌, ◌<◌, ◌≤◌, None, Some, false, length, slice_get};
ghost use Rattle.yw_path.specs.Upstream.{IsUpstreamOf};
ghost use Rattle.yw_state.specs.Words.{is_executing, is_ready};
ghost use Rattle.yw_task.specs.Asked.{AsksComplete, AsksEnter, AsksStart, complete_fault, is_active, is_others, or_busy, start_fault};
ghost use Rattle.yw_within.specs.Within.{most_tasks};

use crate::waits::{is_active, or_waits};
use yw_base::Name;
use yw_mark::join_choice;
use yw_path::Upstream;
use yw_spec::{Net, Task};
use yw_state::{Rule, Stage};
use yw_tree::{NetState, Node};

/// Nobody has begun it.
fn is_ready(stage: Stage) -> bool
    ensures { result ≡ is_ready stage }
{
    match stage {
        Stage::Ready => true,
        Stage::Executing | Stage::Completed => false,
    }
}

/// Somebody is at work on it.
fn is_executing(stage: Stage) -> bool
    ensures { result ≡ is_executing stage }
{
    match stage {
        Stage::Executing => true,
        Stage::Ready | Stage::Completed => false,
    }
}

/// Another person has started it.
fn is_others(started: &Option<Name>, who: &Name) -> bool
    ensures { result ≡ is_others who.now started.now }
{
    match started {
        Some(name) => name.as_str() != who.as_str(),
        None => false,
    }
}

/// `Busy` where an exlet is at work on the item.
fn or_busy(node: &Node) -> Option<Rule>
    ensures { result ≡ or_busy node.now }
{
    node.run.is_some().then_some(Rule::Busy)
}

fn start_fault(node: &Node) -> Option<Rule>
    ensures { result ≡ start_fault node.now }
{
    if !is_ready(node.stage) {
        return Some(Rule::Stage);
    }
    or_busy(node)
}

pub fn complete_fault(node: &Node, who: &Name) -> Option<Rule>
    ensures { result ≡ complete_fault node.now who.now }
{
    if !is_executing(node.stage) {
        return Some(Rule::Stage);
    }
    if is_others(&node.who, who) {
        return Some(Rule::NotYours);
    }
    or_busy(node)
}

/// The first rule that a start breaks, of those that the item shows: `Stage` where it isn't ready, `Busy` where an exlet is at work on
/// it; `None` where it breaks neither. It takes no memory.
pub fn ask_start(node: &Node) -> Option<Rule>
    ensures value { result ≡ start_fault node.now }
    ensures first { AsksStart node.now result }
{
    start_fault(node)
}

/// The first rule that a person's completion breaks, of those that the item shows: `Stage` where it isn't executing, `NotYours` where
/// another person started it, `Busy` where an exlet is at work on it; `None` where it breaks none. It takes no memory.
pub fn ask_complete(node: &Node, who: &Name) -> Option<Rule>
    ensures value { result ≡ complete_fault node.now who.now }
    ensures first { AsksComplete node.now who.now result }
{
    complete_fault(node, who)
}

/// The task of a net with this number.
pub fn task_at(net: &Net, t: usize) -> &Task
    requires { t < length net.now.tasks }
    ensures { slice_get net.now.tasks t ≡ Some result.now }
{
    &net.tasks.as_slice()[t]
}

/// The first rule that entering a task breaks, of those that the net shows: `Active` where items of it stand there, `NotEnabled` where its
/// join lacks tokens, `OrWaits` where it is an OR-join that waits for a token that may still come; `None` where it breaks none. `up` is the
/// net's own. A net has at most 256 tasks, which is our own limit. It takes no memory.
pub fn ask_enter(net: &Net, state: &NetState, up: &Upstream, t: usize) -> Option<Rule>
    requires task { t < length net.now.tasks }
    requires few { length net.now.tasks ≤ most_tasks }
    requires upstream { IsUpstreamOf net.now up.now }
    ensures first { AsksEnter net.now state.now t result }
    // A task that may be entered isn't active.
    ensures idle { result ≡ None → is_active state.now t ≡ false }
{
    if is_active(state, t) {
        return Some(Rule::Active);
    }
    if join_choice(net, &state.marks, t).is_none() {
        return Some(Rule::NotEnabled);
    }
    if or_waits(net, task_at(net, t), up, state) {
        return Some(Rule::OrWaits);
    }
    None
}
