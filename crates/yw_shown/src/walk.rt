// A walk over all that stands in a case, in order.
ghost use Rattle.std.specs.Prelude.{◌≡◌, ℕ, List, IfOk, Some, map};
ghost use Rattle.yw_idents.specs.Idents.{lent};
ghost use Rattle.yw_shown.specs.Shows.{no_rows};
ghost use Rattle.yw_state.specs.Answers.{of_case};
ghost use Rattle.yw_state.specs.State.{State};
ghost use Rattle.yw_tree.specs.Cases.{case_at};
ghost use Rattle.yw_tree.specs.Forest.{IsForest, sites_of};
ghost use Rattle.yw_tree.specs.declared.Forest.{Forest};

use std::alloc::{AllocError, Global};
use yw_base::{Ident, Items};
use yw_idents::idents_in;
use yw_state::Shown;
use yw_tree::Case;

/// No row of any kind. It takes no memory.
pub fn no_rows(alloc: Global) -> Shown
    ensures { result ≡ no_rows }
{
    Shown {
        due: Items::new(alloc),
        items: Items::new(alloc),
        nets: Items::new(alloc),
        runs: Items::new(alloc),
        suspended: Items::new(alloc),
        tokens: Items::new(alloc),
    }
}

/// The identities of all that stands in a case, in order: number by number, a front first. An `Err` says that no memory was left.
pub fn ordered_idents<'a>(alloc: Global, case: &'a Case) -> Result<Vec<&'a Ident>, AllocError>
    ensures { IfOk result (λ idents. (names : ℕ → List ℕ) (f : Forest) (s : State) (n : ℕ) → IsForest f → s.sites ≡ sites_of names f
        → case_at n f.cases ≡ Some case.now → lent idents.items ≡ map (λ e. e.0) (of_case s n)) }
{
    let mut idents = idents_in(alloc, case)?;
    idents.sort()?;
    Ok(idents)
}
