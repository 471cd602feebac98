// Tokens go from a net, and items come to it.
ghost use Rattle.std.specs.Prelude.{◌≡◌, ◌+◌, ◌<◌, ◌≤◌, ◌++◌, ◌∷◌, [], IfOk, None, OnOk, length, true};
ghost use Rattle.yw_base.specs.Identity.{is_number, most_numbers, number_end, child};
ghost use Rattle.yw_mark.specs.Taking.{taken_places};
ghost use Rattle.yw_spec.specs.Net.{places_before};
ghost use Rattle.yw_task.specs.Items.{AreBefore, GetsItems, IsReady, LosesTokens, PutsItem, row_of};
ghost use Rattle.yw_task.specs.Room.{GetsListAndItems};
ghost use Rattle.yw_tree.specs.Boxed.{IsBoxedNet};
ghost use Rattle.yw_tree.specs.Shows.{IsLast};
ghost use Rattle.yw_tree.specs.declared.NetState.{out-NetState};
ghost use Rattle.yw_tree.specs.declared.Node.{out-Node};

use crate::room::make_room;
use std::alloc::{AllocError, Global};
use yw_base::{Ident, Row};
use yw_mark::{Taken, take};
use yw_spec::Net;
use yw_state::Checks;
use yw_tree::{NetState, Node};

/// Takes a token from each of the places that a choice of a task's join stands for.
pub fn take_tokens(net: &Net, state: &mut NetState, t: usize, taken: Taken)
    requires { t < length net.now.tasks }
    ensures { LosesTokens (taken_places (out-NetState state.old).marks (places_before net.now t) taken) state.old state.new }
{
    take(net, &mut state.marks, t, taken);
}

/// An item more at the end of its task's list, as `add_item` of yw_tree adds it: which says nothing of how many lists there are then.
fn put_item(net: &mut NetState, node: Node) -> Result<(), AllocError>
    requires boxed { IsBoxedNet net.old }
    requires task_in { (out-Node node).task < length (out-NetState net.old).items.items }
    requires without_net { (out-Node node).net ≡ None }
    requires without_run { (out-Node node).run ≡ None }
    requires last { IsLast net.old node }
    ensures { OnOk result (PutsItem net.old net.new node) }
{
    let t = node.task;
    net.items[t].push(node)?;
    Ok(())
}

/// These checks are due at an item.
fn make_due(node: &mut Node, due: Checks)
    ensures { out-Node node.new ≡ record (out-Node node.old) { due = due } }
{
    node.due = due;
}

/// An item of a task that is ready and given this, with these checks due.
fn ready_item(
    alloc: Global,
    at: &Ident,
    number: u64,
    t: usize,
    given: Row,
    due: Checks,
) -> Result<Node, AllocError>
    requires room { length at.now < most_numbers }
    requires number { is_number number ≡ true }
    ensures { IfOk result (IsReady (child at.now number) t due given) }
{
    let mut node = Node::ready(alloc, at.child(alloc, number)?, t, given);
    make_due(&mut node, due);
    Ok(node)
}

/// Items of a task that has a list come to the net at `at`, ready, numbered from `first` on, each given a row.
fn put_items(
    alloc: Global,
    state: &mut NetState,
    at: &Ident,
    t: usize,
    first: u64,
    rows: Vec<Row>,
    due: Checks,
) -> Result<(), AllocError>
    requires boxed { IsBoxedNet state.old }
    requires task_in { t < length (out-NetState state.old).items.items }
    requires room { length at.now < most_numbers }
    requires some { 1 ≤ first }
    requires numbers { first + length rows.items ≤ number_end }
    requires before { AreBefore at.now first (row_of state.old t) }
    ensures { OnOk result (GetsItems at.now t due first rows.items state.old state.new) }
{
    let mut number = first;
    for given in rows {
        let node = ready_item(alloc, at, number, t, given, due)?;
        put_item(state, node)?;
        number += 1;
    }
    Ok(())
}

/// Items of a task come to the net at `at`, ready, numbered from `first` on, each given a row, in a list that comes first where the net has
/// none for the task. A list that is empty gets room for them and no more. An `Err` says that no memory was left, and then the net isn't used again.
pub fn add_items(
    alloc: Global,
    state: &mut NetState,
    at: &Ident,
    t: usize,
    first: u64,
    rows: Vec<Row>,
    due: Checks,
) -> Result<(), AllocError>
    requires boxed { IsBoxedNet state.old }
    requires room { length at.now < most_numbers }
    requires some { 1 ≤ first }
    requires numbers { first + length rows.items ≤ number_end }
    requires before { AreBefore at.now first (row_of state.old t) }
    ensures { OnOk result (GetsListAndItems at.now t due first rows.items state.old state.new) }
{
    make_room(alloc, state, t, rows.len())?;
    put_items(alloc, state, at, t, first, rows, due)
}
