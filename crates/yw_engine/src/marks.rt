// A case or an item is suspended, or goes on.
ghost use Rattle.yw_cases.specs.State.{MayStand};
ghost use Rattle.yw_engine.specs.Decides.{Decides};
ghost use Rattle.yw_state.specs.declared.command.Command.TheVariants as commands;

use crate::begin::begin;
use crate::front::placeless;
use crate::work::Work;
use crate::{Decided, EngineFault};
use yw_base::Ident;
use yw_breaks::{continue_breaks, suspend_breaks};
use yw_state::Event;

/// A case or an item is suspended.
pub fn decide_suspend(work: &mut Work, at: Ident) -> Result<Decided, EngineFault>
    requires { MayStand work.old.standing }
    ensures { Decides work.old.standing (commands.Suspend at) result work.new.standing }
{
    if let Some(rule) = suspend_breaks(work.standing.forest(), &at) {
        return Err(EngineFault::Refused(placeless(work.alloc, rule)));
    }
    let case = at.case_number();
    Ok(begin(work, Event::Suspend { at }, Some(case))?)
}

/// A case or an item that is suspended goes on.
pub fn decide_continue(work: &mut Work, at: Ident) -> Result<Decided, EngineFault>
    requires { MayStand work.old.standing }
    ensures { Decides work.old.standing (commands.Continue at) result work.new.standing }
{
    if let Some(rule) = continue_breaks(work.standing.forest(), &at) {
        return Err(EngineFault::Refused(placeless(work.alloc, rule)));
    }
    let case = at.case_number();
    Ok(begin(work, Event::Continue { at }, Some(case))?)
}
