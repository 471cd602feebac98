// Where what is listed may be wrong behind events.
ghost use Rattle.std.specs.Prelude.{◌≡◌, ◌&&◌, IfOk, OnOk, SomeIff, true};
ghost use Rattle.yw_base.specs.Identity.{is_identity, under};
ghost use Rattle.yw_state.specs.Identity.{Ident, same};
ghost use Rattle.yw_state.specs.Judged.{is_select};
ghost use Rattle.yw_work.specs.Tops.{primitive_top};
ghost use Rattle.yw_worklist.specs.Lists.{has_place};
ghost use Rattle.yw_worklist.specs.Touched.{Adds, HasTouched, is_gone, is_touched, takes};

use crate::lists::Places;
use crate::warm::{add, add_warm, case_ident};
use std::alloc::{AllocError, Global};
use std::collections::BTreeSet;
use yw_base::Ident;
use yw_state::{Event, Primitive, TreeKind};
use yw_tree::{Forest, Spot};

/// A tree of this kind chooses worklets.
fn is_select(kind: TreeKind) -> bool
    ensures { result ≡ is_select kind }
{
    matches!(kind, TreeKind::Select)
}

/// Nothing stands at an identity.
fn is_gone(forest: &Forest, at: &Ident) -> bool
    ensures { result ≡ is_gone forest.now at.now }
{
    match forest.find(at) {
        Some(Spot::Case(_case)) => false,
        Some(Spot::Item(_node)) => false,
        Some(Spot::Run(_run)) => false,
        None => true,
    }
}

/// This identity, where nothing stands there.
fn add_gone(
    ids: &mut BTreeSet<Ident>,
    alloc: Global,
    forest: &Forest,
    at: &Ident,
) -> Result<(), AllocError>
    ensures { OnOk result (Adds ids.old ids.new (λ j. same j at.now && is_gone forest.now j)) }
{
    if !is_gone(forest, at) {
        return Ok(());
    }
    add(ids, at.copy(alloc)?)
}

/// What has a place under an identity, and is gone.
fn add_under(
    ids: &mut BTreeSet<Ident>,
    alloc: Global,
    places: &Places,
    forest: &Forest,
    top: &Ident,
) -> Result<(), AllocError>
    ensures { OnOk result (Adds ids.old ids.new
        (λ j. has_place places.now j && (under j top.now && is_gone forest.now j))) }
{
    for (at, _) in places.range(top..) {
        if !at.is_under(top) {
            return Ok(());
        }
        add_gone(ids, alloc, forest, at)?;
    }
    Ok(())
}

/// All that has a place.
fn add_placed(ids: &mut BTreeSet<Ident>, alloc: Global, places: &Places) -> Result<(), AllocError>
    ensures { OnOk result (Adds ids.old ids.new (has_place places.now)) }
{
    for at in places.keys() {
        add(ids, at.copy(alloc)?)?;
    }
    Ok(())
}

/// What has a place under this identity, and is gone, where it is one; and else all that has a place.
fn add_under_found(
    ids: &mut BTreeSet<Ident>,
    alloc: Global,
    places: &Places,
    forest: &Forest,
    found: Option<Ident>,
) -> Result<(), AllocError>
    ensures { OnOk result ((top : Ident) → SomeIff found (is_identity top ≡ true) top
        → Adds ids.old ids.new
        (λ j. has_place places.now j && (under j top && is_gone forest.now j))) }
{
    match found {
        Some(top) => add_under(ids, alloc, places, forest, &top),
        None => add_placed(ids, alloc, places),
    }
}

/// All that has a place, or nothing.
fn add_placed_if(
    ids: &mut BTreeSet<Ident>,
    alloc: Global,
    places: &Places,
    all: bool,
) -> Result<(), AllocError>
    ensures { OnOk result (Adds ids.old ids.new (λ j. has_place places.now j && all)) }
{
    if all {
        return add_placed(ids, alloc, places);
    }
    Ok(())
}

/// The identity under which all lies that a step of a run may take away, where it is one.
fn primitive_top(
    alloc: Global,
    run: &Ident,
    primitive: &Primitive,
) -> Result<Option<Ident>, AllocError>
    ensures { IfOk result (λ found. SomeIff found
        (is_identity (primitive_top run.now primitive.now) ≡ true)
        (primitive_top run.now primitive.now)) }
{
    match primitive {
        Primitive::RemoveCase => case_ident(alloc, run.case_number()),
        _ => run.parent(alloc),
    }
}

/// What an event may take away.
fn add_taken(
    ids: &mut BTreeSet<Ident>,
    alloc: Global,
    places: &Places,
    forest: &Forest,
    event: &Event,
) -> Result<(), AllocError>
    ensures { OnOk result (Adds ids.old ids.new
        (λ j. has_place places.now j && takes forest.now event.now j)) }
{
    match event {
        Event::Exit { net, .. } => add_under(ids, alloc, places, forest, net),
        Event::CompleteSub { item } | Event::CompleteWorklet { item } => {
            add_under(ids, alloc, places, forest, item)
        }
        Event::Compensated { run } => add_under(ids, alloc, places, forest, run),
        Event::Finish { case } | Event::Cancel { case } => {
            add_under_found(ids, alloc, places, forest, case_ident(alloc, *case)?)
        }
        Event::Prim { run, primitive } => {
            let top = primitive_top(alloc, run, primitive)?;
            add_under_found(ids, alloc, places, forest, top)
        }
        Event::AddRule { place, .. } => add_placed_if(ids, alloc, places, is_select(place.kind)),
        _ => Ok(()),
    }
}

fn add_touched(
    ids: &mut BTreeSet<Ident>,
    alloc: Global,
    places: &Places,
    forest: &Forest,
    event: &Event,
) -> Result<(), AllocError>
    ensures { OnOk result (Adds ids.old ids.new (is_touched places.now forest.now event.now)) }
{
    add_warm(ids, alloc, event)?;
    add_taken(ids, alloc, places, forest, event)
}

/// The identities at which what is listed may be wrong behind these events, with the forest behind the last. An `Err` says that no memory was
/// left.
pub(crate) fn touched(
    alloc: Global,
    places: &Places,
    forest: &Forest,
    events: &[Event],
) -> Result<BTreeSet<Ident>, AllocError>
    ensures { IfOk result (HasTouched places.now forest.now events.now) }
{
    let mut ids = BTreeSet::new(alloc);
    for event in events {
        add_touched(&mut ids, alloc, places, forest, event)?;
    }
    Ok(ids)
}
