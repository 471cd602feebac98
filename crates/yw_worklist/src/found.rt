// The identities where there is work for a person.
ghost use Rattle.std.specs.Prelude.{◌≡◌, IfOk, OnOk, true};
ghost use Rattle.std.specs.List.{list_any};
ghost use Rattle.std.specs.Str.{bytes_eq};
ghost use Rattle.yw_idents.specs.Idents.{lent};
ghost use Rattle.yw_state.proofs.Entries.{IsIn};
ghost use Rattle.yw_worklist.specs.Offers.{Gains, HasAdmitted};
ghost use Rattle.yw_worklist.specs.Pools.{is_in};

use crate::offers::Offers;
use crate::pools::Pools;
use std::alloc::{AllocError, Global};
use std::collections::BTreeSet;
use yw_base::{Ident, Name, NameList};

/// Identities in order, each once.
type Found<'a> = BTreeSet<&'a Ident>;

fn add_all<'a>(ids: &mut Found<'a>, set: &'a BTreeSet<Ident>) -> Result<(), AllocError>
    ensures { OnOk result (Gains (lent ids.old.keys) (lent ids.new.keys) (IsIn set.now.keys)) }
{
    for id in set {
        ids.insert(id)?;
    }
    Ok(())
}

fn add_pool<'a>(ids: &mut Found<'a>, pools: &'a Pools, by: &Name) -> Result<(), AllocError>
    ensures { OnOk result (Gains (lent ids.old.keys) (lent ids.new.keys)
        (λ j. is_in bytes_eq pools.now.map by.now j ≡ true)) }
{
    match pools.map.get(by) {
        Some(set) => add_all(ids, set),
        None => Ok(()),
    }
}

fn add_pools<'a>(ids: &mut Found<'a>, pools: &'a Pools, names: &[Name]) -> Result<(), AllocError>
    ensures { OnOk result (Gains (lent ids.old.keys) (lent ids.new.keys)
        (λ j. list_any (λ by. is_in bytes_eq pools.now.map by j) names.now ≡ true)) }
{
    for by in names {
        add_pool(ids, pools, by)?;
    }
    Ok(())
}

/// The identities where there is work for a person with these roles, in order. An `Err` says that no memory was left.
pub(crate) fn ids_for<'a>(
    alloc: Global,
    offers: &'a Offers,
    who: &Name,
    roles: &NameList,
) -> Result<Found<'a>, AllocError>
    ensures { IfOk result (λ ids. HasAdmitted offers.now roles.now who.now (lent ids.keys)) }
{
    let mut ids = BTreeSet::new(alloc);
    add_all(&mut ids, &offers.anyone)?;
    add_pool(&mut ids, &offers.persons, who)?;
    add_pools(&mut ids, &offers.roles, roles.as_slice())?;
    Ok(ids)
}
