// A person enters a task.
ghost use Rattle.std.specs.Prelude.{None};
ghost use Rattle.yw_base.specs.Identity.{case_number};
ghost use Rattle.yw_breaks.specs.Nets.{IsWithinHere};
ghost use Rattle.yw_breaks.specs.Persons.{HasRoles};
ghost use Rattle.yw_breaks.specs.Tables.{net_front};
ghost use Rattle.yw_cases.specs.State.{MayStand};
ghost use Rattle.yw_engine.specs.Decides.{Decides, MakesEntry, TellsRest, TellsRestFor};
ghost use Rattle.yw_known.specs.Here.{SaysNet};
ghost use Rattle.yw_standing.specs.State.{state_of};
ghost use Rattle.yw_state.specs.Broken.{First};
ghost use Rattle.yw_state.specs.declared.command.Command.TheVariants as commands;

use crate::begin::begin_found;
use crate::front::{breaks_quiet, placeless};
use crate::work::Work;
use crate::{Decided, EngineFault};
use yw_base::{Ident, Name};
use yw_breaks::{EntryAsked, NetAsked, enter_asked, net_front};
use yw_walk::{Found, entry_of};

/// The event of an entry to a task of this net, where it breaks no rule from the check on that its case is quiet; else the first that it breaks. The
/// join is asked once, and what items are given is computed once: the event is made of what the rules have found.
fn enter_here(
    work: &Work,
    asked: &NetAsked<'_>,
    who: &Name,
    at: &Ident,
    task: &Name,
    quiet: bool,
) -> Result<Found, EngineFault>
    requires stands { MayStand work.now.standing }
    requires roles { HasRoles work.now.standing.known who.now asked.now.roles.now }
    requires says { SaysNet work.now.standing.known work.now.standing.forest at.now asked.now.here }
    requires within { IsWithinHere asked.now.here }
    requires front { First (net_front (state_of work.now.standing) who.now at.now) None }
    requires rest { TellsRest work.now.standing (case_number at.now) quiet }
    ensures { MakesEntry work.now.standing who.now at.now task.now result }
{
    if let Some(refusal) = breaks_quiet(work.alloc, quiet) {
        return Err(EngineFault::Refused(refusal));
    }
    let (forest, here, next) = (work.standing.forest(), &asked.here, work.standing.next());
    match enter_asked(work.alloc, forest, asked.roles, here, next, at, task)? {
        Ok(entry) => {
            let EntryAsked { task, taken, rows } = entry;
            Ok(entry_of(work.alloc, here, at, next, task, taken, rows)?)
        }
        Err(refusal) => Err(EngineFault::Refused(refusal)),
    }
}

/// The event of an entry, where it breaks no rule; else the first that it breaks.
fn enter_made(
    work: &Work,
    who: &Name,
    at: &Ident,
    task: &Name,
    quiet: bool,
) -> Result<Found, EngineFault>
    requires stands { MayStand work.now.standing }
    requires rest { TellsRestFor work.now.standing who.now (case_number at.now) quiet }
    ensures { MakesEntry work.now.standing who.now at.now task.now result }
{
    let standing = &work.standing;
    match net_front(standing.known(), standing.forest(), who, at) {
        Ok(asked) => enter_here(work, &asked, who, at, task, quiet),
        Err(rule) => Err(EngineFault::Refused(placeless(work.alloc, rule))),
    }
}

/// A person enters a task: its items come, numbered from the number on that is drawn next. Whether the case is quiet has been told.
pub fn decide_enter(
    work: &mut Work,
    who: &Name,
    net: &Ident,
    task: &Name,
    quiet: bool,
) -> Result<Decided, EngineFault>
    requires stands { MayStand work.old.standing }
    requires rest { TellsRestFor work.old.standing who.now (case_number net.now) quiet }
    ensures { Decides work.old.standing (commands.Enter who.now net.now task.now) result work.new.standing }
{
    let found = enter_made(work, who, net, task, quiet)?;
    Ok(begin_found(work, found, Some(net.case_number()))?)
}
