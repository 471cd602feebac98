// From a command to its events.
ghost use Rattle.std.specs.Prelude.{◌≡◌, IfOk};
ghost use Rattle.yw_cases.specs.State.{MayStand};
ghost use Rattle.yw_engine.specs.Decides.{Decides, TellsRestFor, TellsRestOf};
ghost use Rattle.yw_built.specs.Asked.{CanBeAsked};

use crate::add::decide_add;
use crate::complete::decide_complete;
use crate::enter::decide_enter;
use crate::launch::decide_launch;
use crate::library::{decide_load, decide_person};
use crate::marks::{decide_continue, decide_suspend};
use crate::start::decide_start;
use crate::whole::{decide_advance, decide_cancel};
use crate::work::Work;
use crate::{Decided, EngineFault};
use std::alloc::AllocError;
use yw_base::Name;
use yw_breaks::roles_of;
use yw_state::Command;

/// Whether the case of a person's command is quiet. It is looked at, unless that is known, so that it is looked at whole once: neither behind the
/// command's event again, nor by the next command, where this one is refused. Where nobody has the person's name it isn't looked at, and the answer
/// says nothing. What is held doesn't change. An `Err` says that no memory was left.
fn look_for(work: &mut Work, who: &Name, case: u64) -> Result<bool, AllocError>
    requires { MayStand work.old.standing }
    ensures rest { IfOk result (TellsRestFor work.old.standing who.now case) }
    ensures same { work.new.standing ≡ work.old.standing }
{
    let standing = &work.standing;
    if standing.is_at_rest(case) {
        return Ok(true);
    }
    let Some(_) = roles_of(standing.known(), who) else {
        return Ok(true);
    };
    work.look(case)
}

/// Whether the case is quiet of a command that wants it to be, as `look_for` says; of another command the answer says nothing.
fn look_at(work: &mut Work, command: &Command) -> Result<bool, AllocError>
    requires { MayStand work.old.standing }
    ensures rest { IfOk result (TellsRestOf work.old.standing command.now) }
    ensures same { work.new.standing ≡ work.old.standing }
{
    match command {
        Command::Enter { who, case, .. } | Command::Add { who, case, .. } => {
            look_for(work, who, case.case_number())
        }
        Command::Start { who, item } | Command::Complete { who, item, .. } => {
            look_for(work, who, item.case_number())
        }
        _ => Ok(true),
    }
}

/// The same as `decide_on`, of a case that has been looked at.
fn decide_seen(work: &mut Work, command: Command, quiet: bool) -> Result<Decided, EngineFault>
    requires stands { MayStand work.old.standing }
    requires asked { CanBeAsked command }
    requires rest { TellsRestOf work.old.standing command quiet }
    ensures { Decides work.old.standing command result work.new.standing }
{
    match command {
        Command::Person { name, roles } => decide_person(work, name, roles),
        Command::Load { toml } => decide_load(work, toml),
        Command::Launch { spec, values } => decide_launch(work, &spec, &values),
        Command::Enter { who, case, task } => decide_enter(work, &who, &case, &task, quiet),
        Command::Start { who, item } => decide_start(work, who, item, quiet),
        Command::Complete { who, item, out } => decide_complete(work, who, item, &out, quiet),
        Command::Add {
            who,
            case,
            task,
            value,
        } => decide_add(work, &who, case, task, value, quiet),
        Command::Suspend { at } => decide_suspend(work, at),
        Command::Continue { at } => decide_continue(work, at),
        Command::Cancel { case } => decide_cancel(work, &case),
        Command::Advance { case } => decide_advance(work, &case),
        _ => unreachable!(),
    }
}

/// Does what a command asks for, and what comes of itself behind it, and gives these events. What is held is then that after them.
/// What it is after `Memory` is told nowhere; `Spent` never comes.
pub fn decide_on(work: &mut Work, command: Command) -> Result<Decided, EngineFault>
    requires stands { MayStand work.old.standing }
    requires asked { CanBeAsked command }
    ensures { Decides work.old.standing command result work.new.standing }
{
    let quiet = look_at(work, &command)?;
    decide_seen(work, command, quiet)
}
