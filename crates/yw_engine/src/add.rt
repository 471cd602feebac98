// A person adds an item to a task.
ghost use Rattle.std.specs.Prelude.{◌≡◌, None};
ghost use Rattle.yw_base.specs.Identity.{case_number};
ghost use Rattle.yw_breaks.specs.Persons.{HasRoles};
ghost use Rattle.yw_breaks.specs.Tables.{add_front};
ghost use Rattle.yw_cases.specs.State.{MayStand};
ghost use Rattle.yw_engine.specs.Decides.{Decides, MakesNumbered, TellsRest, TellsRestFor};
ghost use Rattle.yw_known.specs.Here.{SaysNet};
ghost use Rattle.yw_standing.specs.State.{state_of};
ghost use Rattle.yw_state.specs.Broken.{First};
ghost use Rattle.yw_state.specs.declared.command.Command.TheVariants as commands;

use crate::begin::{Numbered, begin_numbered};
use crate::front::{breaks_quiet, placeless};
use crate::work::Work;
use crate::{Decided, EngineFault};
use yw_base::{Ident, Name, Value};
use yw_breaks::{NetAsked, add_asked, net_front};

/// The event of an addition to this net, with the number of its task, where it breaks no rule from the check on that its case is quiet; else the first
/// that it breaks.
fn add_here(
    work: &Work,
    asked: &NetAsked<'_>,
    who: &Name,
    net: Ident,
    task: Name,
    value: Option<Value>,
    quiet: bool,
) -> Result<Numbered, EngineFault>
    requires stands { MayStand work.now.standing }
    requires roles { HasRoles work.now.standing.known who.now asked.now.roles.now }
    requires says { SaysNet work.now.standing.known work.now.standing.forest net asked.now.here }
    requires front { First (add_front (state_of work.now.standing) who.now net) None }
    requires rest { TellsRest work.now.standing (case_number net) quiet }
    ensures { MakesNumbered work.now.standing (commands.Add who.now net task value) result }
{
    if let Some(refusal) = breaks_quiet(work.alloc, quiet) {
        return Err(EngineFault::Refused(refusal));
    }
    let (forest, here, next) = (work.standing.forest(), &asked.here, work.standing.next());
    match add_asked(
        work.alloc,
        forest,
        asked.roles,
        here,
        next,
        net,
        task,
        value,
    )? {
        Ok(found) => Ok(Numbered {
            event: found.event,
            number: found.task,
        }),
        Err(refusal) => Err(EngineFault::Refused(refusal)),
    }
}

/// The event of an addition, with the number of its task, where it breaks no rule; else the first that it breaks.
fn add_made(
    work: &Work,
    who: &Name,
    net: Ident,
    task: Name,
    value: Option<Value>,
    quiet: bool,
) -> Result<Numbered, EngineFault>
    requires stands { MayStand work.now.standing }
    requires rest { TellsRestFor work.now.standing who.now (case_number net) quiet }
    ensures { MakesNumbered work.now.standing (commands.Add who.now net task value) result }
{
    let standing = &work.standing;
    match net_front(standing.known(), standing.forest(), who, &net) {
        Ok(asked) => add_here(work, &asked, who, net, task, value, quiet),
        Err(rule) => Err(EngineFault::Refused(placeless(work.alloc, rule))),
    }
}

/// A person adds an item to a task, for the element that is given, under the number that is drawn next. Whether the case is quiet has been told.
pub fn decide_add(
    work: &mut Work,
    who: &Name,
    net: Ident,
    task: Name,
    value: Option<Value>,
    quiet: bool,
) -> Result<Decided, EngineFault>
    requires stands { MayStand work.old.standing }
    requires rest { TellsRestFor work.old.standing who.now (case_number net) quiet }
    ensures { Decides work.old.standing (commands.Add who.now net task value) result work.new.standing }
{
    let case = net.case_number();
    let asked = add_made(work, who, net, task, value, quiet)?;
    Ok(begin_numbered(work, asked, Some(case))?)
}
