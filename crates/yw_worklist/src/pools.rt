// At which identities there is work, by a name.
ghost use Rattle.std.specs.Prelude.{◌≡◌, ℕ, List, OnOk, false, true};
ghost use Rattle.std.specs.Str.{bytes_eq};
ghost use Rattle.yw_state.specs.Identity.{Ident};
ghost use Rattle.yw_worklist.specs.Pools.{Sets, is_in};

use indexmap::IndexMap;
use std::alloc::{AllocError, Global};
use std::collections::BTreeSet;
use yw_base::{Ident, Name};

/// At which identities there is work, by a name: of a role, or of a person. Each name is kept with at least one identity. Our own.
#[derive(Drop)]
pub(crate) struct Pools {
    pub(crate) map: IndexMap<Name, BTreeSet<Ident>>,
}

impl Pools {
    /// There is no work. It takes no memory.
    pub(crate) fn new(alloc: Global) -> Pools
        ensures { (by : List ℕ) (j : Ident) → is_in bytes_eq result.map by j ≡ false }
    {
        Pools {
            map: IndexMap::new(alloc),
        }
    }

    /// There is work at this identity for those of this name too. An `Err` says that no memory was left.
    pub(crate) fn add(&mut self, alloc: Global, by: Name, id: Ident) -> Result<(), AllocError>
        ensures { OnOk result (Sets bytes_eq self.old.map self.new.map by id true) }
    {
        let mut set = match self.map.swap_remove(&by) {
            Some(set) => set,
            None => BTreeSet::new(alloc),
        };
        set.insert(id)?;
        self.map.insert(by, set)?;
        Ok(())
    }

    /// There is no work at this identity for those of this name. An `Err` says that no memory was left.
    pub(crate) fn remove(&mut self, by: Name, id: &Ident) -> Result<(), AllocError>
        ensures { OnOk result (Sets bytes_eq self.old.map self.new.map by id.now false) }
    {
        let Some(mut set) = self.map.swap_remove(&by) else {
            return Ok(());
        };
        set.remove(id);
        if !set.is_empty() {
            self.map.insert(by, set)?;
        }
        Ok(())
    }
}
