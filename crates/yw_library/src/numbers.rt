// Names with the numbers of what has them.
ghost use Rattle.std.specs.Prelude.{◌≡◌, OnOk, OnErr};
ghost use Rattle.std.specs.FinMap as map;

use std::alloc::{AllocError, Global};
use std::collections::BTreeMap;
use std::marker::Model;

/// Names with numbers, found without a scan. A contract sees a finite map.
#[derive(Drop)]
pub struct Numbers {
    table: BTreeMap<String, usize>,
}

impl Model for Numbers {
    ghost use Rattle.std.specs.Prelude.{List, ℕ};
    ghost use Rattle.std.specs.Ordering.{nat_cmp};
    ghost use Rattle.std.specs.Cmp.Lexicographic.{slice_cmp};
    ghost use Rattle.std.specs.Coded.{coded_ℕ, coded_list};
    ghost use Rattle.std.specs.FinMap as map;
    ghost use Rattle.yw_library.specs.Numbers.{numbers_of};

    ghost Value = { map.FinMap (slice_cmp nat_cmp) ℕ };

    ghost coded = { map.code (coded_list coded_ℕ) coded_ℕ };

    ghost view = { λ n. numbers_of n.table.entries };
}

impl Numbers {
    /// No names. It takes no memory.
    pub fn new(alloc: Global) -> Numbers
        ensures { result ≡ map.empty }
    {
        Numbers {
            table: BTreeMap::new(alloc),
        }
    }

    /// The number of a name.
    pub fn get(&self, name: &str) -> Option<usize>
        ensures { result ≡ map.get self.now name.now }
    {
        self.table.get(name).copied()
    }

    /// The name has this number from now on. An `Err` says that no memory was left, and changes nothing.
    pub fn put(&mut self, alloc: Global, name: &str, number: usize) -> Result<(), AllocError>
        ensures ok { OnOk result (self.new ≡ map.insert self.old name.now number) }
        ensures err { OnErr result (self.new ≡ self.old) }
    {
        let key = String::from_str(alloc, name)?;
        self.table.insert(key, number)?;
        Ok(())
    }
}
