// Where a case is urgent.
ghost use Rattle.std.specs.Prelude.{◌≡◌, ℕ, List, IfOk};
ghost use Rattle.yw_idents.specs.Idents.{lent};
ghost use Rattle.yw_state.specs.State.{State};
ghost use Rattle.yw_tree.specs.Forest.{IsForest, sites_of};
ghost use Rattle.yw_urgent.specs.Here.{TellsAmong, TellsIn};
ghost use Rattle.yw_idle.specs.Idle.{is_urgent_at};

use crate::here::urgent_here;
use std::alloc::{AllocError, Global};
use yw_base::Ident;
use yw_idents::idents_in;
use yw_tree::Forest;

/// Something is urgent at an identity.
fn is_urgent_here(forest: &Forest, at: &Ident) -> bool
    ensures { (names : ℕ → List ℕ) (s : State) → IsForest forest.now → s.sites ≡ sites_of names forest.now
        → result ≡ is_urgent_at s at.now }
{
    match urgent_here(forest, at) {
        Some(_urgent) => true,
        None => false,
    }
}

/// The first of these identities at which something is urgent.
fn first_of(
    alloc: Global,
    forest: &Forest,
    idents: &Vec<&Ident>,
) -> Result<Option<Ident>, AllocError>
    ensures { IfOk result (TellsAmong forest.now (lent idents.now.items)) }
{
    for id in idents {
        if is_urgent_here(forest, id) {
            return Ok(Some(id.copy(alloc)?));
        }
    }
    Ok(None)
}

/// The first identity in a case at which something is urgent; `None` exactly where the case isn't urgent, as where no
/// case has the number. The case's own is looked at first, and each before those of what is below it. An `Err` says
/// that no memory was left. Which of those that are urgent comes first is our own, and in no clause.
pub fn urgent_in(alloc: Global, forest: &Forest, case: u64) -> Result<Option<Ident>, AllocError>
    ensures { IfOk result (TellsIn forest.now case) }
{
    match forest.case(case) {
        Some(found) => first_of(alloc, forest, &idents_in(alloc, found)?),
        None => Ok(None),
    }
}
