// A task exits.
ghost use Rattle.std.specs.Prelude.{IfOk};
ghost use Rattle.yw_cases.specs.State.{MayStand};
ghost use Rattle.yw_cases.specs.Tried.{TellsComputed};
ghost use Rattle.yw_standing.specs.State.{state_of};
ghost use Rattle.yw_standing.specs.Tried.{IsDone, LeadsOn};
ghost use Rattle.yw_state.specs.declared.event.Event.TheVariants as events;
ghost use Rattle.yw_walk.specs.Computed.{IsComputedOf};

use crate::held::is_held;
use crate::places::are_numbered;
use std::alloc::{AllocError, Global};
use yw_base::{Ident, Name};
use yw_enabled::may_be_left;
use yw_known::{net_here, task_called};
use yw_spec::PlaceList;
use yw_standing::{Standing, known_net};
use yw_walk::Computed;

/// Whether a task may exit so that a token comes to each of these places, with what its exit leaves. An `Err` says that no memory was left.
pub fn may_exit(
    alloc: Global,
    standing: &Standing,
    at: &Ident,
    name: &Name,
    places: &PlaceList,
) -> Result<Option<Computed>, AllocError>
    requires { MayStand standing.now }
    ensures { IfOk result (TellsComputed standing.now (events.Exit at.now name.now places.now)) }
{
    if is_held(standing, at) {
        return Ok(None);
    }
    let Some(here) = net_here(&standing.known, &standing.forest, at) else {
        return Ok(None);
    };
    let Some(t) = task_called(here.net, name) else {
        return Ok(None);
    };
    let Some(_) = here.net.tasks.get(t) else {
        return Ok(None);
    };
    let Some(outcome) = may_be_left(alloc, here.net, here.state, t, None)? else {
        return Ok(None);
    };
    if !are_numbered(here.net, places.as_slice(), outcome.places.as_slice()) {
        return Ok(None);
    }
    Ok(Some(Computed::Exit { task: t, outcome }))
}

/// A task exits, as is allowed, with the outcome that was computed of it. It takes no memory.
pub fn act_exit(
    standing: &mut Standing,
    at: &Ident,
    _name: &Name,
    _places: &PlaceList,
    computed: Computed,
)
    requires stands { MayStand standing.old }
    requires leads { LeadsOn standing.old (events.Exit at.now _name.now _places.now) }
    requires computed { IsComputedOf (state_of standing.old)
        (events.Exit at.now _name.now _places.now) computed }
    ensures { IsDone standing.old (events.Exit at.now _name.now _places.now) standing.new }
{
    let Computed::Exit { task, outcome } = computed else {
        unreachable!();
    };
    let Some(found) = known_net(&standing.known, &standing.forest, at) else {
        unreachable!();
    };
    yw_steps::exit(&mut standing.forest, found.net, at, task, outcome, false);
}
