// Whether a task may be left.
ghost use Rattle.std.specs.Prelude.{◌≡◌, ◌<◌, ◌≤◌, IfOk, length, nat_le};
ghost use Rattle.std.specs.List.{list_all};
ghost use Rattle.yw_enabled.specs.Left.{FindsRoom, LeavesAs, TellsRight, are_enough, done_count, has_room, is_done, needed, told_or_asked};
ghost use Rattle.yw_tree.specs.Shows as shown;
ghost use Rattle.yw_state.specs.Words.{is_completed};
ghost use Rattle.yw_tree.specs.declared.NetState.{out-NetState};

use std::alloc::{AllocError, Global};
use yw_mark::{MOST_TOKENS, count_on, is_among};
use yw_spec::{Net, Task};
use yw_state::{Marks, Stage};
use yw_task::{Outcome, exit_outcome, items_in, task_at};
use yw_tree::{NetState, Node};

/// It has made its values.
fn is_completed(stage: Stage) -> bool
    ensures { result ≡ is_completed stage }
{
    match stage {
        Stage::Completed => true,
        Stage::Ready | Stage::Executing => false,
    }
}

/// The item counts where its task exits.
#[tactic(auto, unfolding(crate::specs::Left::is_done))]
pub(crate) fn is_done(node: &Node) -> bool
    ensures { result ≡ is_done node.now }
{
    is_completed(node.stage) && !node.run.is_some() && !node.suspended
}

/// How many of so many items have to count: all of them, or as many as the threshold, where that is less.
fn needed(task: &Task, items: usize) -> usize
    ensures value { result ≡ needed task.now items }
    ensures at_most { result ≤ items }
{
    match &task.many {
        Some(many) => items.min(many.threshold as usize),
        None => items,
    }
}

/// So many of these items count. They are asked from the last on, since most are done in their order, and only until more don't count than
/// may be left out.
fn so_many_count(nodes: &[Node], wanted: usize) -> bool
    requires { wanted ≤ length nodes.now }
    ensures { result ≡ nat_le wanted (done_count nodes.now) }
{
    let mut spare = nodes.len() - wanted;
    for i in (0..nodes.len()).rev() {
        if is_done(&nodes[i]) {
            continue;
        }
        if spare == 0 {
            return false;
        }
        spare -= 1;
    }
    true
}

/// So many of these items count. How many do is told, or else they are asked.
fn so_many_by(nodes: &[Node], wanted: usize, told: Option<usize>) -> bool
    requires { wanted ≤ length nodes.now }
    ensures { result ≡ nat_le wanted (told_or_asked told nodes.now) }
{
    match told {
        Some(done) => wanted <= done,
        None => so_many_count(nodes, wanted),
    }
}

/// There are items, and as many of them count as have to.
fn are_enough(task: &Task, nodes: &[Node], told: Option<usize>) -> bool
    ensures { result ≡ are_enough task.now nodes.now told }
{
    0 < nodes.len() && so_many_by(nodes, needed(task, nodes.len()), told)
}

/// One token more on the place is not too many, once the removal set is emptied.
fn has_room(marks: &Marks, task: &Task, c: usize) -> bool
    ensures { result ≡ has_room marks.now task.now c }
{
    is_among(task.drop_places.as_slice(), c) || count_on(marks, c) < MOST_TOKENS
}

/// There is room on each of these places.
fn have_room(marks: &Marks, task: &Task, places: &[usize]) -> bool
    ensures { result ≡ list_all (has_room marks.now task.now) places.now }
{
    places.iter().all(|c| has_room(marks, task, *c))
}

/// What the exit of a task leaves that has these items, where there is room on each place of its split; `None` where there isn't. An `Err` says
/// that no memory was left.
fn outcome_with_room(
    alloc: Global,
    task: &Task,
    state: &NetState,
    nodes: &[Node],
) -> Result<Option<Outcome>, AllocError>
    ensures { IfOk result (FindsRoom state.now task.now nodes.now) }
{
    let outcome = exit_outcome(alloc, task, nodes, &state.vals)?;
    if have_room(&state.marks, task, outcome.places.as_slice()) {
        return Ok(Some(outcome));
    }
    Ok(None)
}

/// What the exit of the task of a net with this number leaves, where the task may be left: it has items that have come far enough, and none of the
/// places of its split has too many tokens. Else `None`. How many of its items count may be told; else they are asked. An `Err` says that no memory
/// was left. None is taken, and no expression is evaluated, where too few of its items count.
///
/// That a task is left is the paper's; how far its items have to come is after it, and how many tokens a place may have is our own.
pub fn may_be_left(
    alloc: Global,
    net: &Net,
    state: &NetState,
    t: usize,
    told: Option<usize>,
) -> Result<Option<Outcome>, AllocError>
    requires { t < length net.now.tasks }
    ensures { TellsRight told (shown.items_in state.now t)
        → IfOk result (LeavesAs net.now state.now t) }
{
    let task = task_at(net, t);
    let nodes = items_in(state, t);
    if are_enough(task, nodes, told) {
        return outcome_with_room(alloc, task, state, nodes);
    }
    Ok(None)
}
