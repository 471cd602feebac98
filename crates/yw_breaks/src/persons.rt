// Persons and their roles.
ghost use Rattle.std.specs.Prelude.{◌≡◌};
ghost use Rattle.std.specs.List.{list_any};
ghost use Rattle.std.specs.Option.{option_copied};
ghost use Rattle.std.specs.Str.{bytes_eq};
ghost use Rattle.yw_breaks.specs.Finds.{ByHeld};
ghost use Rattle.yw_breaks.specs.Persons.{lacks_role, roles_of, worker_rule};
ghost use Rattle.yw_state.specs.Nets.{is_atomic};

use crate::hold::is_held;
use yw_base::{Ident, Name, NameList};
use yw_known::Known;
use yw_spec::{Kind, Task};
use yw_state::Rule;
use yw_tree::Forest;

/// The roles of the person with this name, or `None` where nobody has it. It takes no memory.
pub fn roles_of<'a>(known: &'a Known, who: &Name) -> Option<&'a NameList>
    ensures { option_copied result ≡ roles_of known.now who.now }
{
    known.library().roles(who)
}

/// Persons do the task's items.
pub fn is_atomic(task: &Task) -> bool
    ensures { result ≡ is_atomic task.now }
{
    match task.kind {
        Kind::Atomic => true,
        Kind::Empty | Kind::Sub(_) => false,
    }
}

/// The role is one of these.
fn is_among(roles: &[Name], role: &Name) -> bool
    ensures { result ≡ list_any (bytes_eq role.now) roles.now }
{
    roles.iter().any(|one| role.as_str() == one.as_str())
}

/// The task has a role, and it is none of these.
pub fn lacks_role(roles: &NameList, task: &Task) -> bool
    ensures { result ≡ lacks_role roles.now task.now }
{
    match &task.role {
        Some(role) => !is_among(roles.as_slice(), role),
        None => false,
    }
}

/// `ByItself` where persons don't do the task's items, `Role` where its role is none of these, `Held` where work at this identity is held.
pub fn worker_rule(forest: &Forest, roles: &NameList, task: &Task, at: &Ident) -> Option<Rule>
    ensures { ByHeld forest.now at.now (λ held. result ≡ worker_rule roles.now task.now held) }
{
    if !is_atomic(task) {
        return Some(Rule::ByItself);
    }
    if lacks_role(roles, task) {
        return Some(Rule::Role);
    }
    is_held(forest, at).then_some(Rule::Held)
}
