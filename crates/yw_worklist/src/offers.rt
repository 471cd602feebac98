// At which identities there is work, by whom it is for.
ghost use Rattle.std.specs.Prelude.{◌≡◌, ◌∷◌, [], OnOk, false, true};
ghost use Rattle.yw_state.specs.Identity.{Ident};
ghost use Rattle.yw_work.specs.declared.open.By.{By};
ghost use Rattle.yw_work.specs.declared.open.By.TheVariants as bys;
ghost use Rattle.yw_worklist.specs.Offers.{SetsIn, SetsOffer, Turns, came, has_by, is_offered, left, same_by};

use crate::pools::Pools;
use std::alloc::{AllocError, Global};
use std::collections::BTreeSet;
use yw_base::{Ident, Name};
use yw_work::{By, Open};

/// At which identities there is work, by whom it is for. Our own.
#[derive(Drop)]
pub(crate) struct Offers {
    /// For each person.
    pub(crate) anyone: BTreeSet<Ident>,
    /// For those of a role.
    pub(crate) roles: Pools,
    /// For one person.
    pub(crate) persons: Pools,
}

fn is_role(by: &By, role: &Name) -> bool
    ensures { result ≡ same_by by.now (bys.Role role.now) }
{
    match by {
        By::Role(other) => other.as_str() == role.as_str(),
        _ => false,
    }
}

fn is_person(by: &By, name: &Name) -> bool
    ensures { result ≡ same_by by.now (bys.Person name.now) }
{
    match by {
        By::Person(other) => other.as_str() == name.as_str(),
        _ => false,
    }
}

fn is_anyone(by: &By) -> bool
    ensures { result ≡ same_by by.now bys.Anyone }
{
    matches!(by, By::Anyone)
}

/// It is for the same persons.
fn is_same(by: &By, other: &By) -> bool
    ensures { result ≡ same_by by.now other.now }
{
    match other {
        By::Anyone => is_anyone(by),
        By::Role(role) => is_role(by, role),
        By::Person(name) => is_person(by, name),
    }
}

/// Some of this is for them.
fn has_by(opens: &[Open], by: &By) -> bool
    ensures { result ≡ has_by by.now opens.now }
{
    opens.iter().any(|work| is_same(&work.by, by))
}

fn put(set: &mut BTreeSet<Ident>, id: Ident) -> Result<(), AllocError>
    ensures { OnOk result (SetsIn set.old set.new id true) }
{
    set.insert(id)?;
    Ok(())
}

fn take_out(set: &mut BTreeSet<Ident>, id: &Ident)
    ensures { SetsIn set.old set.new id.now false }
{
    set.remove(id);
}

impl Offers {
    /// There is no work. It takes no memory.
    pub(crate) fn new(alloc: Global) -> Offers
        ensures { (by : By) (j : Ident) → is_offered result by j ≡ false }
    {
        Offers {
            anyone: BTreeSet::new(alloc),
            roles: Pools::new(alloc),
            persons: Pools::new(alloc),
        }
    }

    /// There is work at this identity for these persons too.
    fn add(&mut self, alloc: Global, by: &By, at: &Ident) -> Result<(), AllocError>
        ensures { OnOk result (SetsOffer self.old self.new by.now at.now true) }
    {
        let at = at.copy(alloc)?;
        match by {
            By::Anyone => put(&mut self.anyone, at),
            By::Role(role) => self.roles.add(alloc, role.copy()?, at),
            By::Person(name) => self.persons.add(alloc, name.copy()?, at),
        }
    }

    /// There is no work at this identity for these persons.
    fn remove(&mut self, by: &By, at: &Ident) -> Result<(), AllocError>
        ensures { OnOk result (SetsOffer self.old self.new by.now at.now false) }
    {
        match by {
            By::Anyone => {
                take_out(&mut self.anyone, at);
                Ok(())
            }
            By::Role(role) => self.roles.remove(role.copy()?, at),
            By::Person(name) => self.persons.remove(name.copy()?, at),
        }
    }

    /// This was open at the identity, and these are.
    fn withdraw_one(&mut self, at: &Ident, work: &Open, after: &[Open]) -> Result<(), AllocError>
        ensures { OnOk result (Turns self.old self.new at.now (left (work.now ∷ []) after.now)) }
    {
        if has_by(after, &work.by) {
            return Ok(());
        }
        self.remove(&work.by, at)
    }

    /// Those for whom nothing is open there any more have no work there.
    fn withdraw(&mut self, at: &Ident, before: &[Open], after: &[Open]) -> Result<(), AllocError>
        ensures { OnOk result (Turns self.old self.new at.now (left before.now after.now)) }
    {
        for work in before {
            self.withdraw_one(at, work, after)?;
        }
        Ok(())
    }

    /// This is open at the identity, and these were.
    fn offer_one(
        &mut self,
        alloc: Global,
        at: &Ident,
        before: &[Open],
        work: &Open,
    ) -> Result<(), AllocError>
        ensures { OnOk result (Turns self.old self.new at.now (came before.now (work.now ∷ []))) }
    {
        if has_by(before, &work.by) {
            return Ok(());
        }
        self.add(alloc, &work.by, at)
    }

    /// Those for whom something is open there now have work there.
    fn offer(
        &mut self,
        alloc: Global,
        at: &Ident,
        before: &[Open],
        after: &[Open],
    ) -> Result<(), AllocError>
        ensures { OnOk result (Turns self.old self.new at.now (came before.now after.now)) }
    {
        for work in after {
            self.offer_one(alloc, at, before, work)?;
        }
        Ok(())
    }

    /// At this identity the first were open, and the second are. Only persons for whom that differs are touched. An `Err` says that no memory
    /// was left.
    pub(crate) fn change(
        &mut self,
        alloc: Global,
        at: &Ident,
        before: &[Open],
        after: &[Open],
    ) -> Result<(), AllocError>
        ensures { OnOk result (Turns self.old self.new at.now
            (λ c b. came before.now after.now c (left before.now after.now c b))) }
    {
        self.withdraw(at, before, after)?;
        self.offer(alloc, at, before, after)
    }
}
