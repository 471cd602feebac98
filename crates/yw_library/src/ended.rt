// How cases ended.
ghost use Rattle.std.specs.Prelude.{◌≡◌, [], OnErr, OnOk};
ghost use Rattle.yw_library.specs.Ended.{ended_of};
ghost use Rattle.yw_state.specs.Map.{get, insert};

use std::alloc::{AllocError, Global};
use std::collections::BTreeMap;
use std::marker::Model;
use yw_state::Way;

/// How each case ended that is over, by its number. A contract sees the entries in order of their numbers; by `ended_of` they are the map that
/// a state has.
#[derive(Drop)]
pub struct EndedTable {
    map: BTreeMap<u64, Way>,
}

impl Model for EndedTable {
    ghost use Rattle.std.specs.Prelude.{List, ℕ};
    ghost use Rattle.yw_state.specs.declared.part.Way.{Way};

    ghost Value = { List (ℕ × Way) };

    ghost view = { λ t. t.map.entries };
}

impl EndedTable {
    /// No case is over. It takes no memory.
    pub fn new(alloc: Global) -> EndedTable
        ensures { result ≡ [] }
    {
        EndedTable {
            map: BTreeMap::new(alloc),
        }
    }

    /// How the case of a number ended, or `None` where none of that number is over. It takes no memory.
    pub fn get(&self, n: u64) -> Option<Way>
        ensures { result ≡ get (ended_of self.now) n }
    {
        self.map.get(&n).copied()
    }

    /// The case of a number ended this way. An `Err` says that no memory was left, and changes nothing.
    pub fn put(&mut self, n: u64, way: Way) -> Result<(), AllocError>
        ensures ok { OnOk result (ended_of self.new ≡ insert (ended_of self.old) n way) }
        ensures err { OnErr result (self.new ≡ self.old) }
    {
        self.map.insert(n, way)?;
        Ok(())
    }
}
