// What comes of itself at one identity.
ghost use Rattle.std.specs.Prelude.{IfOk, IfSome};
ghost use Rattle.yw_state.specs.Identity as ids;
ghost use Rattle.yw_state.specs.State.{State};
ghost use Rattle.std.specs.Option.{option_copied};
ghost use Rattle.yw_library.specs.Holdings.{Holdings};
ghost use Rattle.yw_tree.specs.declared.Forest as forests;
ghost use Rattle.yw_walk.specs.Finds.{AtomicIsManual, FindsAt, FindsItemOrTasks, FindsTasks, IsItemAt, IsKnownHere, StandsAt, TellsAt, TellsChosen};

use crate::Found;
use crate::items::{finish_of, step_of};
use crate::nets::{is_at_end, net_at};
use crate::tasks::{entry_at, exit_at};
use std::alloc::{AllocError, Global};
use yw_base::Ident;
use yw_known::{ItemHere, Known, NetHere, item_here};
use yw_tree::Forest;

/// For which tasks of a net trees choose worklets. Trees are no part of what is known, so here for none; once they are, they are asked here.
fn chosen_in<'a>(_here: &NetHere<'a>) -> &'a [bool]
    ensures { (s : State) (i : ids.Ident) → AtomicIsManual s → TellsChosen s i result.now }
{
    &[]
}

/// What comes of itself of the tasks of the net at an identity: one is left, or else one is entered.
fn tasks_at(
    alloc: Global,
    here: &Option<NetHere<'_>>,
    at: &Ident,
    next: u64,
    told: Option<&[usize]>,
) -> Result<Option<Found>, AllocError>
    requires { IfSome here.now IsKnownHere }
    ensures { (known : Holdings) (f : forests.Forest) → StandsAt known f at.now here.now → TellsAt f at.now (option_copied told.entry)
        → IfOk result (FindsTasks known f at.now next) }
{
    let Some(here) = here else {
        return Ok(None);
    };
    match exit_at(alloc, here, at, told)? {
        Some(found) => Ok(Some(found)),
        None => entry_at(alloc, here, at, next, chosen_in(here)),
    }
}

/// What comes of itself of the item at an identity, or of the tasks of the net there.
fn item_or_tasks_at(
    alloc: Global,
    item: &Option<ItemHere<'_>>,
    here: &Option<NetHere<'_>>,
    id: &Ident,
    next: u64,
    told: Option<&[usize]>,
) -> Result<Option<Found>, AllocError>
    requires { IfSome here.now IsKnownHere }
    ensures { (known : Holdings) (f : forests.Forest) → IsItemAt known f id.now item.now → StandsAt known f id.now here.now
        → TellsAt f id.now (option_copied told.entry) → IfOk result (FindsItemOrTasks known f id.now next) }
{
    match step_of(alloc, item, id, is_at_end(here))? {
        Some(found) => Ok(Some(found)),
        None => tasks_at(alloc, here, id, next, told),
    }
}

/// What comes of itself at an identity, in a case in which nothing is urgent and no compensation is at its end: the case there is finished, the item
/// goes on, or a task of the net is left, or else entered. `None` where none of these comes, as where work is held. The item is found by one way
/// down, and its net with it. `next` is the number that is drawn next; how many items of each task of the net are done may be told. An `Err` says
/// that no memory was left.
pub fn event_at(
    alloc: Global,
    known: &Known,
    forest: &Forest,
    id: &Ident,
    next: u64,
    told: Option<&[usize]>,
) -> Result<Option<Found>, AllocError>
    ensures { TellsAt forest.now id.now (option_copied told.entry) → IfOk result (FindsAt known.now forest.now id.now next) }
{
    if forest.is_held(id) {
        return Ok(None);
    }
    let item = item_here(known, forest, id);
    let here = net_at(known, forest, id, &item);
    match finish_of(forest, id, is_at_end(&here)) {
        Some(found) => Ok(Some(found)),
        None => item_or_tasks_at(alloc, &item, &here, id, next, told),
    }
}
