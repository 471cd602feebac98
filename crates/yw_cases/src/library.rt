// Persons, and specifications that are loaded.
ghost use Rattle.std.specs.Prelude.{◌≡◌, IfOk, OnOk};
ghost use Rattle.yw_cases.specs.Said.{TellsLoaded};
ghost use Rattle.yw_cases.specs.State.{MayStand};
ghost use Rattle.yw_cases.specs.Tried.{IsUnfit};
ghost use Rattle.yw_library.specs.Accepts.{IfRefused};
ghost use Rattle.yw_standing.specs.Tried.{IsDone, LeadsOn, TellsLeads};
ghost use Rattle.yw_state.specs.Allowed.{are_roles};
ghost use Rattle.yw_state.specs.declared.event.Event.TheVariants as events;

use std::alloc::AllocError;
use yw_base::{Name, NameList};
use yw_library::LibraryFault;
use yw_standing::Standing;

const MOST_ROLES: usize = 64;

/// A person may have these roles: at most 64, and none twice.
fn are_roles(roles: &NameList) -> bool
    ensures { result ≡ are_roles roles.now }
{
    roles.len() <= MOST_ROLES && roles.are_distinct()
}

/// Whether a person may have these roles. It takes no memory.
pub fn may_person(_standing: &Standing, _name: &Name, roles: &NameList) -> bool
    ensures { TellsLeads _standing.now (events.Person _name.now roles.now) result }
{
    are_roles(roles)
}

/// Loads the specification that a text says under this name, where that is allowed: `true`, and what is kept is then that after it; else `false`, and
/// nothing has changed. The text is read once. An `Err` says that no memory was left; what is kept then is told nowhere.
pub fn load_as(standing: &mut Standing, name: &Name, text: &str) -> Result<bool, AllocError>
    requires { MayStand standing.old }
    ensures { IfOk result (λ leads. TellsLoaded standing.old name.now text.now leads standing.new) }
{
    standing.known.load_as(name, text)
}

/// Loads the specification that a text says, and gives its name.
pub fn load(standing: &mut Standing, text: &str) -> Result<Name, LibraryFault>
    requires { MayStand standing.old }
    ensures ok { IfOk result (λ name. IsDone standing.old (events.Load name text.now) standing.new) }
    ensures refused { IfRefused result (λ refusal. IsUnfit standing.old text.now refusal × (standing.new ≡ standing.old)) }
{
    match standing.known.load(text) {
        Ok(name) => Ok(name),
        Err(fault) => Err(fault),
    }
}

/// Sets a person's roles, as is allowed. An `Err` says that no memory was left.
pub fn act_person(standing: &mut Standing, name: &Name, roles: &NameList) -> Result<(), AllocError>
    requires stands { MayStand standing.old }
    requires leads { LeadsOn standing.old (events.Person name.now roles.now) }
    ensures { OnOk result (IsDone standing.old (events.Person name.now roles.now) standing.new) }
{
    standing.known.person(name, roles)?;
    Ok(())
}
