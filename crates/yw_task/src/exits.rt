// A task exits.
ghost use Rattle.std.specs.Prelude.{◌≡◌, ◌<◌, IfOk, fold, length};
ghost use Rattle.yw_expr.specs.Rows.{put_in};
ghost use Rattle.yw_state.specs.After.{one_more};
ghost use Rattle.yw_task.specs.Leaving.{Exits, IsOutcome, IsOutcomeAt, SplitsTo};
ghost use Rattle.yw_task.specs.Leaves.{Leaves};
ghost use Rattle.yw_state.specs.Passing.{split_places};
ghost use Rattle.yw_task.specs.Making.{AreFew};
ghost use Rattle.yw_tree.specs.Boxed.{IsBoxedNet};
ghost use Rattle.yw_tree.specs.declared.NetState.{out-NetState};

use crate::ask::task_at;
use crate::made::{assigned_values, put_all};
use crate::region::{clear_region, lose_items};
use crate::tokens::put_each;
use std::alloc::{AllocError, Global};
use yw_base::{Items, Row};
use yw_expr::{Changed, Put};
use yw_mark::split_places;
use yw_spec::{IndexList, Net, Task};
use yw_tree::{NetState, Node};

/// What an exit leaves. It is computed while the net is as it was, so that the exit itself computes nothing and takes no memory.
#[derive(Drop)]
pub struct Outcome {
    /// The values that the assignments put in the place of the net's own, each with the number of its variable.
    pub puts: Items<Put>,
    /// The numbers of the places to which a token comes each: those of the split, in flow order.
    pub places: IndexList,
}

/// The net has these values in the place of its own.
fn put_values(state: &mut NetState, puts: Items<Put>)
    ensures { out-NetState state.new ≡ record (out-NetState state.old) { vals = fold put_in (out-NetState state.old).vals puts } }
{
    put_all(&mut state.vals, puts);
}

/// Puts a token on each of these places.
fn produce(state: &mut NetState, places: &[usize])
    ensures tokens { AreFew (out-NetState state.old).marks places.now
        → out-NetState state.new ≡ record (out-NetState state.old) { marks = fold one_more (out-NetState state.old).marks places.now } }
    ensures boxed { IsBoxedNet state.old → IsBoxedNet state.new }
{
    put_each(&mut state.marks, places);
}

/// The items of a task go, the net has these values in the place of its own, the task's removal set is emptied, and a token comes to each of these places.
fn leave(task: &Task, state: &mut NetState, t: usize, puts: Items<Put>, places: &[usize])
    requires { IsBoxedNet state.old }
    ensures boxed { IsBoxedNet state.new }
    ensures leaves { Leaves task.now t (fold put_in (out-NetState state.old).vals puts) places.now state.old state.new }
{
    lose_items(state, t);
    put_values(state, puts);
    clear_region(task, state);
    produce(state, places);
}

/// The places of a task's split, in flow order: it is decided over the net's values once these are put in the place of its own. No value of the net is
/// copied. An `Err` says that no memory was left.
fn split_after(
    alloc: Global,
    task: &Task,
    vals: &Row,
    puts: &[Put],
) -> Result<IndexList, AllocError>
    ensures { IfOk result (λ places. places ≡ split_places task.now (fold put_in vals.now puts.now)) }
{
    let changed = Changed {
        base: vals.as_slice(),
        puts,
    };
    split_places(alloc, task, &changed)
}

/// What the exit of a task leaves that has these items, over these values of its net. Its assignments are made, each over what the items made and
/// the net's values as they are; one that is undefined leaves its variable. The split is decided over the values that they leave. No value of the
/// net is copied. An `Err` says that no memory was left. What is kept of values is our own.
pub fn exit_outcome(
    alloc: Global,
    task: &Task,
    nodes: &[Node],
    vals: &Row,
) -> Result<Outcome, AllocError>
    ensures { IfOk result (IsOutcome task.now nodes.now vals.now) }
{
    let puts = assigned_values(alloc, task, nodes, vals)?;
    let places = split_after(alloc, task, vals, puts.as_slice())?;
    Ok(Outcome { puts, places })
}

/// The task with this number exits, where that is allowed, with the outcome that was computed of it. Its items go, with all under them. The net
/// has the values that its assignments leave. The removal set is emptied, and then a token comes to each place of its split. The answer is these
/// places, in flow order. The check of a case after its net's end isn't made due here, since a net knows no case. It takes no memory. The exit is
/// the paper's; the order is our own.
pub fn exit(net: &Net, state: &mut NetState, t: usize, outcome: Outcome) -> IndexList
    requires boxed { IsBoxedNet state.old }
    requires task { t < length net.now.tasks }
    requires outcome { IsOutcomeAt net.now t state.old outcome }
    ensures boxed { IsBoxedNet state.new }
    ensures exits { Exits net.now t state.old state.new result }
    ensures split { SplitsTo net.now t state.old result }
{
    let task = task_at(net, t);
    leave(task, state, t, outcome.puts, outcome.places.as_slice());
    outcome.places
}
