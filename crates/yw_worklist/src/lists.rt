// What is kept of the work in all cases.
ghost use Rattle.std.specs.BTreeMap as tree;
ghost use Rattle.std.specs.Prelude.{◌≡◌, ◌||◌, [], OnOk, None, cond, false, true};
ghost use Rattle.yw_state.specs.Identity.{Ident};
ghost use Rattle.yw_state.specs.Map.{lexical};
ghost use Rattle.yw_worklist.specs.Lists.{IsBlank, PutsPlace, PutsSeen, has_place, opens_at};
ghost use Rattle.yw_worklist.specs.Offers.{is_here};

use crate::fronts::Fronts;
use crate::offers::Offers;
use crate::people::People;
use std::alloc::{AllocError, Global};
use std::collections::BTreeMap;
use yw_base::{Ident, Items};
use yw_work::Open;

/// What is open, by identity.
pub(crate) type Places = BTreeMap<Ident, Items<Open>>;

/// What is seen at an identity.
#[derive(Drop)]
pub(crate) struct Seen {
    /// What is open there, in order of the tasks' names.
    pub(crate) opens: Items<Open>,
    /// It is suspended.
    pub(crate) suspended: bool,
    /// A run stands there.
    pub(crate) run: bool,
}

impl Seen {
    fn is_marked(&self) -> bool
        ensures { result ≡ (self.now.suspended || self.now.run) }
    {
        self.suspended || self.run
    }
}

/// The work lists of all persons: what is open by identity, at which identities by whom it is for, what is suspended, where runs stand, and the
/// persons with their roles. They are kept from one entry to the next, and changed where events may have changed what is open. Our own.
#[derive(Drop)]
pub struct Lists {
    /// What is open where something is open, something is suspended, or a run stands.
    pub(crate) places: Places,
    pub(crate) offers: Offers,
    /// What is suspended.
    pub(crate) marks: Fronts,
    /// Where runs stand.
    pub(crate) runs: Fronts,
    pub(crate) people: People,
}

/// What was open at an identity, where nothing is listed any more.
fn take(places: &mut Places, alloc: Global, at: &Ident) -> Items<Open>
    ensures value { result ≡ opens_at places.old at.now }
    ensures gone { (j : Ident) → tree.get lexical places.new j
        ≡ cond (is_here at.now j) None (tree.get lexical places.old j) }
{
    match places.remove(at) {
        Some(opens) => opens,
        None => Items::new(alloc),
    }
}

/// Nothing is open, and nothing else is to be kept.
fn is_blank(opens: &Items<Open>, marked: bool) -> bool
    ensures { result ≡ true → (opens.now ≡ []) × (marked ≡ false) }
{
    !marked && opens.is_empty()
}

/// This is open at an identity where nothing is listed. It is listed where something is open or `marked`.
fn place(
    places: &mut Places,
    alloc: Global,
    at: &Ident,
    opens: Items<Open>,
    marked: bool,
) -> Result<(), AllocError>
    requires { has_place places.old at.now ≡ false }
    ensures { OnOk result (PutsPlace places.old places.new at.now opens marked) }
{
    if is_blank(&opens, marked) {
        return Ok(());
    }
    places.insert(at.copy(alloc)?, opens)?;
    Ok(())
}

impl Lists {
    /// Nobody is known, and nothing stands. It takes no memory.
    pub(crate) fn blank(alloc: Global) -> Lists
        ensures { IsBlank result }
    {
        Lists {
            places: BTreeMap::new(alloc),
            offers: Offers::new(alloc),
            marks: Fronts::new(alloc),
            runs: Fronts::new(alloc),
            people: People::new(alloc),
        }
    }

    /// This is seen at an identity. An `Err` says that no memory was left.
    pub(crate) fn put(&mut self, alloc: Global, at: &Ident, seen: Seen) -> Result<(), AllocError>
        ensures { OnOk result (PutsSeen self.old self.new at.now seen) }
    {
        let marked = seen.is_marked();
        let Seen {
            opens,
            suspended,
            run,
        } = seen;
        let before = take(&mut self.places, alloc, at);
        self.offers
            .change(alloc, at, before.as_slice(), opens.as_slice())?;
        self.marks.put(alloc, at, suspended)?;
        self.runs.put(alloc, at, run)?;
        place(&mut self.places, alloc, at, opens, marked)
    }
}
