// What comes of itself at an identity before all else, and at the end of a compensation.
ghost use Rattle.std.specs.Option.{option_copied};
ghost use Rattle.std.specs.Prelude.{IfOk};
ghost use Rattle.yw_standing.specs.Held.{StandsHeld};
ghost use Rattle.yw_standing.specs.State.{state_of};
ghost use Rattle.yw_urgent.specs.Here.{IsHere};
ghost use Rattle.yw_urgent.specs.Trees.{IsTreeNext, IsTreeOf};
ghost use Rattle.yw_urgent.specs.Urgent.{FindsCompensated, FindsUrgent, IsUrgent};

use crate::Urgent;
use crate::events::primitive_event;
use crate::here::urgent_here;
use crate::judged::judged_event;
use std::alloc::{AllocError, Global};
use yw_base::Ident;
use yw_deeds::may_compensated;
use yw_rdr::RuleTree;
use yw_standing::Standing;
use yw_state::Event;

/// The event that comes of what is urgent at an identity, as `urgent_here` finds it: the check passes, or begins its
/// exlet or its worklet, by what its tree concludes; the run takes its first primitive. `tree` is the one by which the
/// check is judged; of a run any. An `Err` says that no memory was left. Checks, exlets and worklets are the thesis's.
pub fn event_of(
    alloc: Global,
    standing: &Standing,
    at: &Ident,
    urgent: Urgent<'_>,
    tree: Option<&RuleTree>,
) -> Result<Event, AllocError>
    requires held { StandsHeld standing.now }
    requires here { IsHere (state_of standing.now) at.now urgent }
    requires tree { IsTreeOf (state_of standing.now) at.now urgent (option_copied tree) }
    ensures { IfOk result (IsUrgent (state_of standing.now) at.now) }
{
    match urgent {
        Urgent::Check(check) => judged_event(alloc, standing, at, check, tree),
        Urgent::Run(run) => primitive_event(alloc, at, run),
    }
}

/// The event that comes of what is urgent at an identity; `None` exactly where nothing is. `tree` is the one by which
/// the check is judged that comes next there; where none does, any. An `Err` says that no memory was left.
pub fn urgent_at(
    alloc: Global,
    standing: &Standing,
    at: &Ident,
    tree: Option<&RuleTree>,
) -> Result<Option<Event>, AllocError>
    requires held { StandsHeld standing.now }
    requires tree { IsTreeNext (state_of standing.now) at.now (option_copied tree) }
    ensures { IfOk result (FindsUrgent (state_of standing.now) at.now) }
{
    match urgent_here(&standing.forest, at) {
        Some(urgent) => Ok(Some(event_of(alloc, standing, at, urgent, tree)?)),
        None => Ok(None),
    }
}

/// The event that ends the compensation of the run at an identity; `None` exactly where no run waits there, its
/// compensation isn't at its end, or something is urgent in the case, which is walked to see that. An `Err` says that
/// no memory was left. Compensations are the thesis's.
pub fn compensated_at(
    alloc: Global,
    standing: &Standing,
    at: &Ident,
) -> Result<Option<Event>, AllocError>
    requires { StandsHeld standing.now }
    ensures { IfOk result (FindsCompensated (state_of standing.now) at.now) }
{
    if !may_compensated(standing, at) {
        return Ok(None);
    }
    Ok(Some(Event::Compensated {
        run: at.copy(alloc)?,
    }))
}
