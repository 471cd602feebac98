// Copies of names and of persons.
ghost use Rattle.std.specs.Prelude.{◌≡◌, IfOk};

use crate::Person;
use std::alloc::{AllocError, Global};
use yw_base::{Items, Name, NameList};

/// A copy of names, in their order. An `Err` says that no memory was left.
pub fn copy_of_names(alloc: Global, names: &[Name]) -> Result<NameList, AllocError>
    ensures { IfOk result (λ copy. copy ≡ names.now) }
{
    let mut copy = Items::new(alloc);
    for name in names {
        copy.push(name.copy()?)?;
    }
    Ok(copy)
}

/// The person with a copy of this name and of these roles. An `Err` says that no memory was left.
pub fn copy_of_person(alloc: Global, name: &Name, roles: &NameList) -> Result<Person, AllocError>
    ensures { IfOk result (λ person. person ≡ record { name = name.now; roles = roles.now }) }
{
    Ok(Person {
        name: name.copy()?,
        roles: copy_of_names(alloc, roles.as_slice())?,
    })
}
