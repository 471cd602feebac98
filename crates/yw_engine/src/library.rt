// Persons, and specifications that are loaded.
ghost use Rattle.std.specs.Prelude.{◌≡◌, IfOk, OnOk, true};
ghost use Rattle.yw_cases.specs.State.{MayStand};
ghost use Rattle.yw_engine.specs.Decides.{Decides, IsApplied};
ghost use Rattle.yw_state.specs.Allowed.{are_roles};
ghost use Rattle.yw_state.specs.declared.command.Command.TheVariants as commands;
ghost use Rattle.yw_state.specs.declared.event.Event.TheVariants as events;

use crate::begin::{begin, behind};
use crate::work::Work;
use crate::{Decided, EngineFault};
use std::alloc::AllocError;
use yw_base::{Name, NameList, Text};
use yw_library::LibraryFault;
use yw_state::Event;

/// A person gets roles. It breaks no rule.
pub fn decide_person(work: &mut Work, name: Name, roles: NameList) -> Result<Decided, EngineFault>
    requires stands { MayStand work.old.standing }
    requires roles { are_roles roles ≡ true }
    ensures { Decides work.old.standing (commands.Person name roles) result work.new.standing }
{
    Ok(begin(work, Event::Person { name, roles }, None)?)
}

/// The specification that a text says is loaded.
pub fn decide_load(work: &mut Work, toml: Text) -> Result<Decided, EngineFault>
    requires { MayStand work.old.standing }
    ensures { Decides work.old.standing (commands.Load toml) result work.new.standing }
{
    match work.standing.load(toml.as_str()) {
        Ok(name) => {
            work.standing.may_stand();
            Ok(behind(work, Event::Load { name, text: toml }, None)?)
        }
        Err(LibraryFault::Refused(refusal)) => Err(EngineFault::Refused(refusal)),
        Err(LibraryFault::Memory) => Err(EngineFault::Memory),
    }
}

/// Loads the specification that a text says under this name, as an event tells it: `true` where that is allowed, and what is held is then that after
/// it; else `false`, and nothing has changed. The text is read once. An `Err` says that no memory was left; what is held then is told nowhere.
pub fn apply_load(work: &mut Work, name: &Name, text: &str) -> Result<bool, AllocError>
    ensures applied { IfOk result (λ leads. IsApplied work.old.standing (events.Load name.now text.now) leads work.new.standing) }
    ensures stands { OnOk result (MayStand work.new.standing) }
{
    let leads = work.standing.load_as(name, text)?;

    // No work is done here: this says that what is held may stand.
    work.standing.may_stand();
    Ok(leads)
}
