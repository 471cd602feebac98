// Where an event may change what is open.
ghost use Rattle.std.specs.List.{list_any, range_with_len};
ghost use Rattle.std.specs.Prelude.{◌≡◌, ◌+◌, ◌∷◌, [], IfOk, OnOk, SomeIff, map, option_copied, take, true, length};
ghost use Rattle.yw_base.specs.Identity.{is_identity, child};
ghost use Rattle.yw_idle.specs.Warms.{warms};
ghost use Rattle.yw_state.specs.Identity.{Ident, same};
ghost use Rattle.yw_worklist.specs.Touched.{Adds, changed_at, is_around, is_made};

use std::alloc::{AllocError, Global};
use std::collections::BTreeSet;
use yw_base::Ident;
use yw_state::Event;

/// The net, the item, the case or the run at which an event is done, where that stood before.
fn changed_at(event: &Event) -> Option<&Ident>
    ensures { option_copied result ≡ changed_at event.now }
{
    match event {
        Event::Enter { net, .. } | Event::Exit { net, .. } | Event::Add { net, .. } => Some(net),
        Event::Start { item, .. }
        | Event::Complete { item, .. }
        | Event::StartSub { item }
        | Event::CompleteSub { item }
        | Event::CompleteEmpty { item }
        | Event::Substitute { item, .. }
        | Event::CompleteWorklet { item } => Some(item),
        Event::Pass { at, .. }
        | Event::Except { at, .. }
        | Event::Raise { at, .. }
        | Event::Suspend { at }
        | Event::Continue { at } => Some(at),
        Event::Prim { run, .. } | Event::Compensated { run } => Some(run),
        _ => None,
    }
}

/// The identity of an item of a net, or of a run at what stands at an identity, by its number; `None` where that is no number, or the identity
/// is too long.
fn child(alloc: Global, at: &Ident, number: u64) -> Result<Option<Ident>, AllocError>
    ensures { IfOk result (λ found. SomeIff found
        (is_identity (child at.now number) ≡ true) (child at.now number)) }
{
    let numbers = at.numbers();
    let mut copy = Vec::with_capacity(alloc, numbers.len() + 1)?;
    copy.extend_from_slice(numbers)?;
    copy.push(number)?;
    Ok(Ident::from_numbers(copy))
}

/// One identity more.
pub(crate) fn add(ids: &mut BTreeSet<Ident>, id: Ident) -> Result<(), AllocError>
    ensures { OnOk result (Adds ids.old ids.new (λ j. same j id)) }
{
    ids.insert(id)?;
    Ok(())
}

/// One identity more, where it is one.
fn add_found(ids: &mut BTreeSet<Ident>, found: Option<Ident>) -> Result<(), AllocError>
    ensures { OnOk result ((id : Ident) → SomeIff found (is_identity id ≡ true) id
        → Adds ids.old ids.new (λ j. same j id)) }
{
    match found {
        Some(id) => add(ids, id),
        None => Ok(()),
    }
}

/// This identity, and that above it.
fn add_around(ids: &mut BTreeSet<Ident>, alloc: Global, at: &Ident) -> Result<(), AllocError>
    ensures { OnOk result (Adds ids.old ids.new (λ j. is_around j at.now)) }
{
    add(ids, at.copy(alloc)?)?;
    add_found(ids, at.parent(alloc)?)
}

/// The item of a net whose number is so many after the first.
fn add_item(
    ids: &mut BTreeSet<Ident>,
    alloc: Global,
    net: &Ident,
    first: u64,
    k: u32,
) -> Result<(), AllocError>
    ensures { OnOk result (Adds ids.old ids.new (λ j. same j (child net.now (first + k)))) }
{
    match first.checked_add(u64::from(k)) {
        Some(number) => add_found(ids, child(alloc, net, number)?),
        None => Ok(()),
    }
}

/// So many items of a net, numbered from the first on.
fn add_items(
    ids: &mut BTreeSet<Ident>,
    alloc: Global,
    net: &Ident,
    first: u64,
    count: u32,
) -> Result<(), AllocError>
    ensures { OnOk result (Adds ids.old ids.new
        (λ j. list_any (same j) (map (child net.now) (range_with_len first count)))) }
{
    for k in 0..count {
        add_item(ids, alloc, net, first, k)?;
    }
    Ok(())
}

fn add_front(ids: &mut BTreeSet<Ident>, alloc: Global, front: &[u64]) -> Result<(), AllocError>
    ensures { OnOk result (Adds ids.old ids.new (λ j. same j front.now)) }
{
    add_found(ids, Ident::from_numbers(Vec::from_slice(alloc, front)?))
}

/// What lies on the way down to a run.
fn add_way(ids: &mut BTreeSet<Ident>, alloc: Global, run: &Ident) -> Result<(), AllocError>
    ensures { OnOk result (Adds ids.old ids.new
        (λ j. list_any (same j) (map (λ k. take k run.now) (range_with_len 0 (length run.now))))) }
{
    let numbers = run.numbers();
    for k in 0..numbers.len() {
        add_front(ids, alloc, &numbers[..k])?;
    }
    Ok(())
}

/// The identity of one number, where it is one.
pub(crate) fn case_ident(alloc: Global, n: u64) -> Result<Option<Ident>, AllocError>
    ensures { IfOk result (λ found. SomeIff found (is_identity (n ∷ []) ≡ true) (n ∷ [])) }
{
    Ok(Ident::from_numbers(vec![in alloc; n]?))
}

/// What an event makes; and of a run that takes a step, or whose compensation ends, what lies on the way down to it.
fn add_made(ids: &mut BTreeSet<Ident>, alloc: Global, event: &Event) -> Result<(), AllocError>
    ensures { OnOk result (Adds ids.old ids.new (is_made event.now)) }
{
    match event {
        Event::Launch { case, .. } => add_found(ids, case_ident(alloc, *case)?),
        Event::Enter {
            net,
            first,
            count,
            ..
        } => add_items(ids, alloc, net, *first, *count),
        Event::Add { net, number, .. } => add_found(ids, child(alloc, net, *number)?),
        Event::Except { at, number, .. } | Event::Raise { at, number, .. } => {
            add_found(ids, child(alloc, at, *number)?)
        }
        Event::Prim { run, .. } | Event::Compensated { run } => add_way(ids, alloc, run),
        _ => Ok(()),
    }
}

/// All at which an event may change what is open, and what is above that. An `Err` says that no memory was left.
pub(crate) fn add_warm(
    ids: &mut BTreeSet<Ident>,
    alloc: Global,
    event: &Event,
) -> Result<(), AllocError>
    ensures { OnOk result (Adds ids.old ids.new (λ j. list_any (same j) (warms event.now))) }
{
    add_made(ids, alloc, event)?;
    match changed_at(event) {
        Some(at) => add_around(ids, alloc, at),
        None => Ok(()),
    }
}
