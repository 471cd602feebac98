// A case is cancelled, or gone on with.
ghost use Rattle.yw_cases.specs.State.{MayStand};
ghost use Rattle.yw_engine.specs.Decides.{Decides};
ghost use Rattle.yw_state.specs.declared.command.Command.TheVariants as commands;

use crate::begin::begin;
use crate::front::placeless;
use crate::work::Work;
use crate::{Decided, EngineFault};
use yw_base::Ident;
use yw_breaks::{advance_breaks, cancel_breaks};
use yw_state::Event;

/// A case is cancelled.
pub fn decide_cancel(work: &mut Work, at: &Ident) -> Result<Decided, EngineFault>
    requires { MayStand work.old.standing }
    ensures { Decides work.old.standing (commands.Cancel at.now) result work.new.standing }
{
    if let Some(rule) = cancel_breaks(work.standing.forest(), at) {
        return Err(EngineFault::Refused(placeless(work.alloc, rule)));
    }
    let case = at.case_number();
    Ok(begin(work, Event::Cancel { case }, Some(case))?)
}

/// What comes of itself in a case is taken.
pub fn decide_advance(work: &mut Work, at: &Ident) -> Result<Decided, EngineFault>
    requires { MayStand work.old.standing }
    ensures { Decides work.old.standing (commands.Advance at.now) result work.new.standing }
{
    if let Some(rule) = advance_breaks(work.standing.forest(), at) {
        return Err(EngineFault::Refused(placeless(work.alloc, rule)));
    }
    let case = at.case_number();
    Ok(begin(work, Event::Advance { case }, Some(case))?)
}
