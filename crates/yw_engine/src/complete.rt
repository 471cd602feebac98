// A person completes an item.
ghost use Rattle.std.specs.Prelude.{◌≡◌, None};
ghost use Rattle.yw_base.specs.Identity.{case_number};
ghost use Rattle.yw_breaks.specs.Tables.{complete_front};
ghost use Rattle.yw_cases.specs.State.{MayStand};
ghost use Rattle.yw_engine.specs.Decides.{Decides, Makes, TellsRest, TellsRestFor};
ghost use Rattle.yw_known.specs.Here.{SaysItem};
ghost use Rattle.yw_standing.specs.State.{state_of};
ghost use Rattle.yw_state.specs.Broken.{First};
ghost use Rattle.yw_state.specs.declared.command.Command.TheVariants as commands;

use crate::begin::begin;
use crate::front::{breaks_quiet, placeless};
use crate::work::Work;
use crate::{Decided, EngineFault};
use yw_base::{Ident, Name};
use yw_breaks::{complete_most, complete_values, item_front};
use yw_known::ItemHere;
use yw_state::{Event, GivenList};
use yw_steps::ask_mapping;

/// The event of a completion of this item, where it breaks no rule from the check on that its case is quiet; else the first that it breaks.
fn complete_here(
    work: &Work,
    here: &ItemHere<'_>,
    who: &Name,
    item: Ident,
    given: &GivenList,
    quiet: bool,
) -> Result<Event, EngineFault>
    requires stands { MayStand work.now.standing }
    requires says { SaysItem work.now.standing.known work.now.standing.forest item here.now }
    requires front { First (complete_front (state_of work.now.standing) who.now item given.now) None }
    requires rest { TellsRest work.now.standing (case_number item) quiet }
    ensures { Makes work.now.standing (commands.Complete who.now item given.now) result }
{
    if let Some(refusal) = breaks_quiet(work.alloc, quiet) {
        return Err(EngineFault::Refused(refusal));
    }
    if let Some(refusal) = complete_most(work.alloc, work.standing.forest(), here, who, given)? {
        return Err(EngineFault::Refused(refusal));
    }
    let out = complete_values(work.alloc, here, given)?;
    let (node, outer) = (here.item, &here.outer);
    match ask_mapping(work.alloc, outer.state, node, outer.net, &item, &out)? {
        Some(refusal) => Err(EngineFault::Refused(refusal)),
        None => Ok(Event::Complete { item, out }),
    }
}

/// The event of a completion, where it breaks no rule; else the first that it breaks.
fn complete_made(
    work: &Work,
    who: &Name,
    item: Ident,
    given: &GivenList,
    quiet: bool,
) -> Result<Event, EngineFault>
    requires stands { MayStand work.now.standing }
    requires rest { TellsRestFor work.now.standing who.now (case_number item) quiet }
    ensures { Makes work.now.standing (commands.Complete who.now item given.now) result }
{
    let standing = &work.standing;
    match item_front(standing.known(), standing.forest(), who, &item) {
        Ok(asked) => complete_here(work, &asked.here, who, item, given, quiet),
        Err(rule) => Err(EngineFault::Refused(placeless(work.alloc, rule))),
    }
}

/// A person completes an item, which has made the values that are given. Whether the case is quiet has been told.
pub fn decide_complete(
    work: &mut Work,
    who: Name,
    item: Ident,
    out: &GivenList,
    quiet: bool,
) -> Result<Decided, EngineFault>
    requires stands { MayStand work.old.standing }
    requires rest { TellsRestFor work.old.standing who (case_number item) quiet }
    ensures { Decides work.old.standing (commands.Complete who item out.now) result work.new.standing }
{
    let case = item.case_number();
    let event = complete_made(work, &who, item, out, quiet)?;
    Ok(begin(work, event, Some(case))?)
}
