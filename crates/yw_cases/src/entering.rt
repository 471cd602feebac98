// A task is entered.
ghost use Rattle.std.specs.Prelude.{◌≡◌, ◌==◌, ◌&&◌, IfOk, OnOk, false, filter};
ghost use Rattle.yw_cases.specs.Entering.{FindsChoice, candidate, first_number, stands_for};
ghost use Rattle.yw_cases.specs.Places.{ArePlacesApart};
ghost use Rattle.yw_cases.specs.State.{MayStand};
ghost use Rattle.yw_cases.specs.Tried.{TellsComputed};
ghost use Rattle.yw_mark.specs.Tokens.{is_marked};
ghost use Rattle.yw_standing.specs.State.{state_of};
ghost use Rattle.yw_standing.specs.Tried.{IsDone, LeadsOn};
ghost use Rattle.yw_state.specs.Words.{held};
ghost use Rattle.yw_state.specs.declared.event.Event.TheVariants as events;
ghost use Rattle.yw_walk.specs.Computed.{IsComputedOf};

use crate::held::is_held;
use crate::places::{are_numbered, place_number};
use crate::whole::NO_CHECKS;
use std::alloc::{AllocError, Global};
use yw_base::{Gate, Ident, Name};
use yw_enabled::may_be_entered;
use yw_known::{net_here, task_called};
use yw_mark::{Taken, is_among, is_marked};
use yw_spec::{Net, Place, PlaceList, Task};
use yw_standing::{Standing, known_net};
use yw_state::Marks;
use yw_walk::Computed;

/// An entry that gives so many rows makes so many items, numbered from `first` on, which is drawn next.
fn draws_items(rows: usize, next: u64, first: u64, count: u32) -> bool
    ensures { result ≡ (first == next && rows == count) }
{
    first == next && rows == count as usize
}

/// The number of the first of these places, or 0.
fn first_number(net: &Net, places: &[Place]) -> usize
    ensures { result ≡ first_number net.now places.now }
{
    match places {
        [] => 0,
        [place, ..] => place_number(net, place).unwrap_or(0),
    }
}

/// The choice of a join that may stand for these places.
fn candidate(net: &Net, join: Gate, places: &[Place]) -> Taken
    ensures { result ≡ candidate join net.now places.now }
{
    match join {
        Gate::And => Taken::All,
        Gate::Xor => Taken::One(first_number(net, places)),
        Gate::Or => Taken::Marked,
    }
}

/// Those of the places that are marked. An `Err` says that no memory was left.
fn marked_among(alloc: Global, marks: &Marks, places: &[usize]) -> Result<Vec<usize>, AllocError>
    ensures { IfOk result (λ marked. marked.items ≡ filter (is_marked marks.now) places.now) }
{
    places
        .iter()
        .copied()
        .filter(|c| is_marked(marks, *c))
        .collect(alloc)
}

/// The choice stands for exactly these places. An `Err` says that no memory was left.
fn stands_for(
    alloc: Global,
    net: &Net,
    marks: &Marks,
    before: &[usize],
    places: &[Place],
    taken: Taken,
) -> Result<bool, AllocError>
    requires { ArePlacesApart net.now }
    ensures { IfOk result (λ is. is ≡ stands_for net.now marks.now before.now places.now taken) }
{
    match taken {
        Taken::All => Ok(are_numbered(net, places, before)),
        Taken::One(c) => {
            Ok(is_marked(marks, c) && is_among(before, c) && are_numbered(net, places, &[c]))
        }
        Taken::Marked => {
            let marked = marked_among(alloc, marks, before)?;
            Ok(are_numbered(net, places, &marked))
        }
    }
}

/// The choice of a task's join that stands for exactly these places; `None` where none does. An `Err` says that no memory was left.
fn choice_of(
    alloc: Global,
    net: &Net,
    marks: &Marks,
    task: &Task,
    places: &[Place],
) -> Result<Option<Taken>, AllocError>
    requires { ArePlacesApart net.now }
    ensures { IfOk result (FindsChoice net.now marks.now task.now places.now) }
{
    let taken = candidate(net, task.join, places);
    if stands_for(alloc, net, marks, task.before.as_slice(), places, taken)? {
        return Ok(Some(taken));
    }
    Ok(None)
}

/// Whether a task may be entered, where nothing holds work in its net; as `may_enter` says.
fn may_enter_free(
    alloc: Global,
    standing: &Standing,
    at: &Ident,
    name: &Name,
    places: &PlaceList,
    first: u64,
    count: u32,
) -> Result<Option<Computed>, AllocError>
    requires stands { MayStand standing.now }
    requires unheld { held (state_of standing.now) at.now ≡ false }
    ensures { IfOk result (TellsComputed standing.now (events.Enter at.now name.now places.now first count)) }
{
    let Some(here) = net_here(&standing.known, &standing.forest, at) else {
        return Ok(None);
    };
    let Some(t) = task_called(here.net, name) else {
        return Ok(None);
    };
    let Some(task) = here.net.tasks.get(t) else {
        return Ok(None);
    };
    let (net, state, up) = (here.net, here.state, here.up);
    let Some(entering) = may_be_entered(alloc, net, state, up, t, standing.next)? else {
        return Ok(None);
    };
    let rows = entering.rows;
    if !draws_items(rows.len(), standing.next, first, count) {
        return Ok(None);
    }
    match choice_of(alloc, here.net, &here.state.marks, task, places.as_slice())? {
        Some(taken) => Ok(Some(Computed::Enter {
            task: t,
            taken,
            rows,
        })),
        None => Ok(None),
    }
}

/// Whether a task may be entered from these places, and so many items come, numbered from `first` on, with the choice of its join and what they are
/// given. An `Err` says that no memory was left.
pub fn may_enter(
    alloc: Global,
    standing: &Standing,
    at: &Ident,
    name: &Name,
    places: &PlaceList,
    first: u64,
    count: u32,
) -> Result<Option<Computed>, AllocError>
    requires { MayStand standing.now }
    ensures { IfOk result (TellsComputed standing.now (events.Enter at.now name.now places.now first count)) }
{
    if is_held(standing, at) {
        return Ok(None);
    }
    may_enter_free(alloc, standing, at, name, places, first, count)
}

/// A task is entered, and so many items come, numbered from `first` on, as is allowed, by the choice of its join and the rows that were computed of
/// it. An `Err` says that no memory was left.
pub fn act_enter(
    alloc: Global,
    standing: &mut Standing,
    at: &Ident,
    _name: &Name,
    _places: &PlaceList,
    first: u64,
    count: u32,
    computed: Computed,
) -> Result<(), AllocError>
    requires stands { MayStand standing.old }
    requires leads { LeadsOn standing.old (events.Enter at.now _name.now _places.now first count) }
    requires computed { IsComputedOf (state_of standing.old) (events.Enter at.now _name.now _places.now first count) computed }
    ensures { OnOk result (IsDone standing.old (events.Enter at.now _name.now _places.now first count) standing.new) }
{
    let Computed::Enter { task, taken, rows } = computed else {
        unreachable!();
    };
    let Some(found) = known_net(&standing.known, &standing.forest, at) else {
        unreachable!();
    };
    let forest = &mut standing.forest;
    yw_steps::come_at(
        alloc, forest, found.net, at, task, taken, first, rows, NO_CHECKS,
    )?;
    standing.next = first + count as u64;
    Ok(())
}
