// Room for the items of a task.
ghost use Rattle.std.specs.Prelude.{◌≡◌, ◌<◌, OnOk, length};
ghost use Rattle.yw_task.specs.Room.{EmptyBehind, GetsList, GetsRows, rows_in};

use std::alloc::{AllocError, Global};
use yw_tree::{NetState, Node};

/// Empty lists come behind these, until there is one with this number.
fn add_lists(alloc: Global, lists: &mut Vec<Vec<Node>>, t: usize) -> Result<(), AllocError>
    ensures { OnOk result (EmptyBehind t lists.old.items lists.new.items) }
{
    let now = lists.len();
    if now <= t {
        lists.reserve_exact((t - now).saturating_add(1))?;
    }
    'lists: while lists.len() <= t {
        lists.push(Vec::new(alloc))?;
    }
    Ok(())
}

/// The list with this number gets room for so many items, where it is empty; else it grows by itself.
fn give_room(lists: &mut Vec<Vec<Node>>, t: usize, count: usize) -> Result<(), AllocError>
    requires { t < length lists.old.items }
    ensures { OnOk result (rows_in lists.new.items ≡ rows_in lists.old.items) }
{
    if !lists[t].is_empty() {
        return Ok(());
    }
    lists[t].reserve_exact(count)?;
    Ok(())
}

/// There is a list with this number, and where it is empty it has room for so many items.
fn make_list(
    alloc: Global,
    lists: &mut Vec<Vec<Node>>,
    t: usize,
    count: usize,
) -> Result<(), AllocError>
    ensures { OnOk result (GetsRows t lists.old.items lists.new.items) }
{
    add_lists(alloc, lists, t)?;
    give_room(lists, t, count)?;
    Ok(())
}

/// The net has a list for the items of the task with this number: where it has none, empty ones come behind its own. Where the list is empty, it gets
/// room for so many items and no more. Nothing of what a map shows of the net is another. An `Err` says that no memory was left, and then the net
/// isn't used again.
pub fn make_room(
    alloc: Global,
    state: &mut NetState,
    t: usize,
    count: usize,
) -> Result<(), AllocError>
    ensures { OnOk result (GetsList t state.old state.new) }
{
    make_list(alloc, &mut state.items, t, count)
}
