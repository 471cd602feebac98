// What comes of itself of the tasks of a net.
ghost use Rattle.std.specs.Prelude.{◌≡◌, ◌<◌, ◌≤◌, IfOk, length};
ghost use Rattle.std.specs.Option.{option_copied};
ghost use Rattle.yw_enabled.specs.Left.{TellsNet};
ghost use Rattle.yw_walk.specs.Finds.{FindsEntered, FindsLeft, GivesRows, IsEntry, IsExit, IsKnownHere, most_items};

use crate::places::{places_of, taken_from};
use crate::{Computed, Found};
use std::alloc::{AllocError, Global};
use yw_base::{Ident, Row};
use yw_enabled::{Entering, first_entered, first_left};
use yw_known::NetHere;
use yw_mark::Taken;
use yw_spec::Task;
use yw_state::Event;
use yw_task::{Outcome, task_at};

/// The exit of a task of the net at an identity, which leaves this: a token comes to each place of its split.
fn exit_of(
    alloc: Global,
    here: &NetHere<'_>,
    at: &Ident,
    t: usize,
    outcome: Outcome,
) -> Result<Found, AllocError>
    requires { t < length here.now.net.now.tasks }
    ensures { IfOk result (IsExit here.now at.now t outcome) }
{
    let task = task_at(here.net, t);
    let event = Event::Exit {
        net: at.copy(alloc)?,
        task: task.name.copy()?,
        places: places_of(alloc, here.net, outcome.places.as_slice())?,
    };
    Ok(Found {
        event,
        computed: Computed::Exit { task: t, outcome },
    })
}

/// The exit of the first task of the net at an identity that may be left; `None` where none may. How many items of each task are done may be told. An
/// `Err` says that no memory was left.
pub fn exit_at(
    alloc: Global,
    here: &NetHere<'_>,
    at: &Ident,
    told: Option<&[usize]>,
) -> Result<Option<Found>, AllocError>
    ensures { TellsNet here.now.state.now (option_copied told.entry) → IfOk result (FindsLeft here.now at.now) }
{
    match first_left(alloc, here.net, here.state, told)? {
        Some((t, outcome)) => Ok(Some(exit_of(alloc, here, at, t, outcome)?)),
        None => Ok(None),
    }
}

/// How many items an entry makes that gives so many rows, where these are no more than its task may have.
fn entry_count(task: &Task, rows: usize) -> u32
    ensures { rows ≤ most_items task.now → result ≡ rows }
{
    match &task.many {
        Some(many) => rows.min(many.max as usize) as u32,
        None => rows.min(1) as u32,
    }
}

/// The event that enters a task of the net at an identity, by a choice of its join, and gives these rows to its items, which are numbered from
/// `next` on. An `Err` says that no memory was left. That an event names the places from which its join takes is our own.
pub fn entry_of(
    alloc: Global,
    here: &NetHere<'_>,
    at: &Ident,
    next: u64,
    t: usize,
    taken: Taken,
    rows: Vec<Row>,
) -> Result<Found, AllocError>
    requires task { t < length here.now.net.now.tasks }
    requires gives { GivesRows here.now t rows.items }
    ensures { IfOk result (IsEntry here.now at.now next t taken) }
{
    let task = task_at(here.net, t);
    let numbers = taken_from(alloc, task, &here.state.marks, taken)?;
    let event = Event::Enter {
        net: at.copy(alloc)?,
        task: task.name.copy()?,
        places: places_of(alloc, here.net, numbers.as_slice())?,
        first: next,
        count: entry_count(task, rows.len()),
    };
    Ok(Found {
        event,
        computed: Computed::Enter {
            task: t,
            taken,
            rows,
        },
    })
}

/// The entry of the first task of the net at an identity that may be entered by no person; `None` where none may. Its items are numbered
/// from `next` on, the number that is drawn next. For which tasks of the net trees choose worklets is told by `chosen`. An `Err` says that no memory
/// was left.
pub fn entry_at(
    alloc: Global,
    here: &NetHere<'_>,
    at: &Ident,
    next: u64,
    chosen: &[bool],
) -> Result<Option<Found>, AllocError>
    requires { IsKnownHere here.now }
    ensures { IfOk result (FindsEntered here.now at.now next chosen.now) }
{
    match first_entered(alloc, here.net, here.state, here.up, next, chosen)? {
        Some((t, entering)) => {
            let Entering { taken, rows } = entering;
            Ok(Some(entry_of(alloc, here, at, next, t, taken, rows)?))
        }
        None => Ok(None),
    }
}
