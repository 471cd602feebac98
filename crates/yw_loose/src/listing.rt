// A case of which nothing is known.
ghost use Rattle.std.specs.Prelude.{◌≡◌, ℕ, List, [], OnErr, OnOk, true};
ghost use Rattle.yw_idents.specs.Idents.{lent};
ghost use Rattle.yw_loose.specs.Loose.{HasAll, HasCase, IsRested, is_known};
ghost use Rattle.yw_state.specs.State.{State};
ghost use Rattle.yw_tree.specs.Forest.{IsForest, sites_of};

use crate::Loose;
use std::alloc::{AllocError, Global};
use yw_base::Ident;
use yw_idents::idents_in;
use yw_tree::Forest;

impl Loose {
    /// Something may come of itself at each of these identities too. An `Err` says that no memory was left.
    fn add_all(&mut self, alloc: Global, idents: &Vec<&Ident>) -> Result<(), AllocError>
        ensures ok { OnOk result (HasAll self.old self.new (lent idents.now.items)) }
        ensures err { OnErr result (HasAll self.old self.new []) }
    {
        for id in idents {
            self.add(id.copy(alloc)?)?;
        }
        Ok(())
    }

    /// Something may come of itself wherever something stands in the case. An `Err` says that no memory was left.
    fn add_case(&mut self, alloc: Global, forest: &Forest, n: u64) -> Result<(), AllocError>
        ensures ok { OnOk result (HasCase self.old self.new forest.now n) }
        ensures err { OnErr result (HasAll self.old self.new []) }
    {
        match forest.case(n) {
            Some(case) => self.add_all(alloc, &idents_in(alloc, case)?),
            None => Ok(()),
        }
    }

    /// From now on it is known where something may come of itself in the case: where nothing was known, wherever something stands. An `Err` says
    /// that no memory was left.
    pub(crate) fn know(&mut self, alloc: Global, forest: &Forest, n: u64) -> Result<(), AllocError>
        ensures known { OnOk result (is_known self.new n ≡ true) }
        ensures rested { (names : ℕ → List ℕ) (s : State) → IsForest forest.now → s.sites ≡ sites_of names forest.now
            → IsRested s self.old → IsRested s self.new }
    {
        if self.known.contains(&n) {
            return Ok(());
        }
        self.add_case(alloc, forest, n)?;
        self.known.insert(n)?;
        Ok(())
    }
}
