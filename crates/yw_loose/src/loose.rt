// What is kept of where something may come of itself.
ghost use Rattle.std.specs.Prelude.{◌≡◌, ℕ, OnErr, OnOk, false, true};
ghost use Rattle.yw_loose.specs.Loose.{Forgets, Gains, IsRested, IsSame, is_at_rest};
ghost use Rattle.yw_state.specs.Automatic.{IsQuiet};
ghost use Rattle.yw_state.specs.State.{State};
ghost use Rattle.yw_state.specs.Words.{urgent};

use crate::counts::Counts;
use std::alloc::{AllocError, Global};
use std::collections::BTreeSet;
use yw_base::Ident;

/// The cases of which it is known where something may come of itself, and these identities: each other identity of a known case is idle, or
/// work is held there. Beside them, how many items are done. Our own.
#[derive(Drop)]
pub struct Loose {
    /// The numbers of the cases that are known.
    pub(crate) known: BTreeSet<u64>,
    /// The identities, each before those below it.
    pub(crate) idents: BTreeSet<Ident>,
    /// How many items of each task are done, of the nets that have been counted.
    pub(crate) counts: Counts,
}

impl Loose {
    /// Nothing is known of any case. It takes no memory.
    pub fn new(alloc: Global) -> Loose
        ensures { (s : State) → IsRested s result }
    {
        Loose {
            known: BTreeSet::new(alloc),
            idents: BTreeSet::new(alloc),
            counts: Counts::new(alloc),
        }
    }

    /// Nothing is known of any case any more, and no net has counts.
    pub fn forget(&mut self)
        ensures { (s : State) → IsRested s self.new }
    {
        self.known.clear();
        self.idents.clear();
        self.counts.forget();
    }

    /// It is known that the case with this number is quiet, unless something in it is urgent. `false` says nothing. It takes no memory.
    pub fn is_at_rest(&self, n: u64) -> bool
        ensures value { result ≡ is_at_rest self.now n }
        ensures quiet { result ≡ true → (s : State) → IsRested s self.now → urgent s n ≡ false → IsQuiet s n }
    {
        self.idents.is_empty() && self.known.contains(&n)
    }

    /// Something may come of itself at this identity too. An `Err` says that no memory was left.
    pub(crate) fn add(&mut self, id: Ident) -> Result<(), AllocError>
        ensures ok { OnOk result (Gains self.old self.new id) }
        ensures err { OnErr result (IsSame self.old self.new) }
    {
        self.idents.insert(id)?;
        Ok(())
    }

    /// Nothing is known of this case any more.
    pub(crate) fn forget_case(&mut self, n: u64)
        ensures { Forgets self.old self.new n }
    {
        self.known.remove(&n);
    }
}
