// A removal set is emptied.
ghost use Rattle.std.specs.Prelude.{◌≡◌, ◌<◌, fold, length};
ghost use Rattle.yw_state.specs.After.{empty_region, no_more, without_items};
ghost use Rattle.yw_task.specs.Leaving.{EmptiesRegion};
ghost use Rattle.yw_task.specs.Turning.{Turns};
ghost use Rattle.yw_tree.specs.Boxed.{IsBoxedNet};
ghost use Rattle.yw_tree.specs.declared.NetState.{out-NetState};

use crate::ask::task_at;
use crate::tokens::wipe_each;
use yw_spec::{Net, Task};
use yw_tree::{NetState, clear_task};

/// Takes all items of a task away, with all under them. There are none where the net has no list for it.
pub fn lose_items(state: &mut NetState, t: usize)
    requires { IsBoxedNet state.old }
    ensures boxed { IsBoxedNet state.new }
    ensures turns { Turns state.old state.new (λ i s. without_items i s t) }
    ensures vals { (out-NetState state.new).vals ≡ (out-NetState state.old).vals }
{
    if t < state.items.len() {
        clear_task(state, t);
    }
}

/// Takes all items of each of these tasks away, with all under them.
fn lose_each(state: &mut NetState, tasks: &[usize])
    requires { IsBoxedNet state.old }
    ensures boxed { IsBoxedNet state.new }
    ensures turns { Turns state.old state.new (λ i s. fold (without_items i) s tasks.now) }
{
    for t in tasks {
        lose_items(state, *t);
    }
}

/// Takes all tokens from each of these places.
fn wipe(state: &mut NetState, places: &[usize])
    ensures { out-NetState state.new ≡ record (out-NetState state.old) { marks = fold no_more (out-NetState state.old).marks places.now } }
{
    wipe_each(&mut state.marks, places);
}

/// Empties the removal set of a task.
pub fn clear_region(task: &Task, state: &mut NetState)
    requires { IsBoxedNet state.old }
    ensures boxed { IsBoxedNet state.new }
    ensures turns { Turns state.old state.new (λ i s. empty_region s i task.now) }
{
    wipe(state, task.drop_places.as_slice());
    lose_each(state, task.drop_tasks.as_slice());
}

/// Empties the removal set of the task with this number: its places of tokens, and its tasks of items with all under them. It takes no
/// memory. The removal set is the paper's.
pub fn empty_region(net: &Net, state: &mut NetState, t: usize)
    requires boxed { IsBoxedNet state.old }
    requires task { t < length net.now.tasks }
    ensures boxed { IsBoxedNet state.new }
    ensures region { EmptiesRegion net.now t state.old state.new }
{
    clear_region(task_at(net, t), state);
}
