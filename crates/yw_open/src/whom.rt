// Whom work is for.
ghost use Rattle.std.specs.Prelude.{◌≡◌, IfOk};
ghost use Rattle.yw_work.specs.Open.{by_person, by_role};

use std::alloc::AllocError;
use yw_base::Name;
use yw_work::By;

/// Who has the role, where one is needed, and else each person. An `Err` says that no memory was left.
pub fn by_role(role: &Option<Name>) -> Result<By, AllocError>
    ensures { IfOk result (λ by. by ≡ by_role role.now) }
{
    match role {
        Some(role) => Ok(By::Role(role.copy()?)),
        None => Ok(By::Anyone),
    }
}

/// Who has started an item, and each person where nobody has. An `Err` says that no memory was left.
pub fn by_person(who: &Option<Name>) -> Result<By, AllocError>
    ensures { IfOk result (λ by. by ≡ by_person who.now) }
{
    match who {
        Some(name) => Ok(By::Person(name.copy()?)),
        None => Ok(By::Anyone),
    }
}
