// Identities that are found by the fronts of others.
ghost use Rattle.std.specs.Prelude.{◌≡◌, OnOk, false, true};
ghost use Rattle.yw_state.specs.Identity.{Ident};
ghost use Rattle.yw_worklist.specs.Fronts.{SetsFront, has_front};

use std::alloc::{AllocError, Global};
use std::collections::BTreeSet;
use yw_base::Ident;

/// Identities by their numbers: a front of another identity is found without memory. Our own.
#[derive(Drop)]
pub(crate) struct Fronts {
    pub(crate) set: BTreeSet<Vec<u64>>,
}

impl Fronts {
    /// No identity. It takes no memory.
    pub(crate) fn new(alloc: Global) -> Fronts
        ensures { (j : Ident) → has_front result j ≡ false }
    {
        Fronts {
            set: BTreeSet::new(alloc),
        }
    }

    /// No identity is in it: `false` says nothing.
    pub(crate) fn is_empty(&self) -> bool
        ensures { result ≡ true → (j : Ident) → has_front self.now j ≡ false }
    {
        self.set.is_empty()
    }

    /// The identity of these numbers is in it. It takes no memory.
    pub(crate) fn has(&self, numbers: &[u64]) -> bool
        ensures { result ≡ has_front self.now numbers.now }
    {
        self.set.contains(numbers)
    }

    fn add(&mut self, alloc: Global, id: &Ident) -> Result<(), AllocError>
        ensures { OnOk result (SetsFront self.old self.new id.now true) }
    {
        let numbers = Vec::from_slice(alloc, id.numbers())?;
        self.set.insert(numbers)?;
        Ok(())
    }

    fn remove(&mut self, id: &Ident)
        ensures { SetsFront self.old self.new id.now false }
    {
        self.set.remove(id.numbers());
    }

    /// The identity is in it from now on, or isn't. An `Err` says that no memory was left.
    pub(crate) fn put(&mut self, alloc: Global, id: &Ident, is: bool) -> Result<(), AllocError>
        ensures { OnOk result (SetsFront self.old self.new id.now is) }
    {
        if is {
            return self.add(alloc, id);
        }
        self.remove(id);
        Ok(())
    }
}
