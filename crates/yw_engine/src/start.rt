// A person starts an item.
ghost use Rattle.yw_base.specs.Identity.{case_number};
ghost use Rattle.yw_cases.specs.State.{MayStand};
ghost use Rattle.yw_engine.specs.Decides.{BreaksNow, Decides, TellsRestFor};
ghost use Rattle.yw_state.specs.declared.command.Command.TheVariants as commands;

use crate::begin::begin;
use crate::front::{breaks_quiet, placeless};
use crate::work::Work;
use crate::{Decided, EngineFault};
use yw_base::{Ident, Name};
use yw_breaks::{item_front, start_rest};
use yw_state::{Event, Refusal};

/// The first rule that a start breaks.
fn start_breaks(work: &Work, who: &Name, item: &Ident, quiet: bool) -> Option<Refusal>
    requires stands { MayStand work.now.standing }
    requires rest { TellsRestFor work.now.standing who.now (case_number item.now) quiet }
    ensures { BreaksNow work.now.standing (commands.Start who.now item.now) result }
{
    let (known, forest) = (work.standing.known(), work.standing.forest());
    match item_front(known, forest, who, item) {
        Err(rule) => Some(placeless(work.alloc, rule)),
        Ok(asked) => match breaks_quiet(work.alloc, quiet) {
            Some(refusal) => Some(refusal),
            None => start_rest(work.alloc, forest, asked.roles, &asked.here),
        },
    }
}

/// A person starts an item. Whether the case is quiet has been told.
pub fn decide_start(
    work: &mut Work,
    who: Name,
    item: Ident,
    quiet: bool,
) -> Result<Decided, EngineFault>
    requires stands { MayStand work.old.standing }
    requires rest { TellsRestFor work.old.standing who (case_number item) quiet }
    ensures { Decides work.old.standing (commands.Start who item) result work.new.standing }
{
    if let Some(refusal) = start_breaks(work, &who, &item, quiet) {
        return Err(EngineFault::Refused(refusal));
    }
    let case = item.case_number();
    Ok(begin(work, Event::Start { item, who }, Some(case))?)
}
