// The places of a net.
ghost use Rattle.std.specs.Prelude.{◌≡◌, [], ◌∷◌, ◌++◌, true, All, IfOk, OnOk, map, filter};
ghost use Rattle.yw_accept.specs.Built.{place_of, places_of};
ghost use Rattle.yw_accept.specs.Facts.{HasUsableEnds, NetIsNamed, NetLeads};
ghost use Rattle.yw_accept.specs.Names.{is_usable};
ghost use Rattle.yw_accept.specs.Nodes.{is_implicit, task_names};
ghost use Rattle.yw_accept.specs.Index.{IsIndexOf};
ghost use Rattle.yw_spec.specs.Net.{place_text};

use crate::words::name_of;
use std::alloc::{AllocError, Global};
use yw_accept::{Index, has};
use yw_base::{Items, Text};
use yw_read::{RawFlow, RawNet};
use yw_spec::{Place, PlaceList};

fn push_named(alloc: Global, places: &mut PlaceList, name: &Text) -> Result<(), AllocError>
    requires { is_usable name.now ≡ true }
    ensures { OnOk result (places.new ≡ places.old ++ Place.Named name.now ∷ []) }
{
    places.push(Place::Named(name_of(alloc, name)?))?;
    Ok(())
}

fn push_conditions(
    alloc: Global,
    places: &mut PlaceList,
    conditions: &[Text],
) -> Result<(), AllocError>
    requires { All (λ name. is_usable name ≡ true) conditions.now }
    ensures { OnOk result (places.new ≡ places.old ++ map Place.Named conditions.now) }
{
    for name in conditions {
        push_named(alloc, places, name)?;
    }
    Ok(())
}

fn push_between(alloc: Global, places: &mut PlaceList, flow: &RawFlow) -> Result<(), AllocError>
    requires { HasUsableEnds flow.now }
    ensures { OnOk result (places.new ≡ places.old ++ Place.Between flow.now.from flow.now.to ∷ []) }
{
    let from = name_of(alloc, &flow.from)?;
    let to = name_of(alloc, &flow.to)?;
    places.push(Place::Between(from, to))?;
    Ok(())
}

/// A flow from a task to a task.
pub fn is_implicit(tasks: &Index, flow: &RawFlow) -> bool
    ensures { (net : RawNet) → IsIndexOf (task_names net.task) tasks.now → result ≡ is_implicit net flow.now }
{
    has(tasks, flow.from.as_str()) && has(tasks, flow.to.as_str())
}

fn push_implicit(
    alloc: Global,
    places: &mut PlaceList,
    tasks: &Index,
    net: &RawNet,
) -> Result<(), AllocError>
    requires index { IsIndexOf (task_names net.now.task) tasks.now }
    requires names { All HasUsableEnds net.now.flows }
    ensures { OnOk result (places.new ≡ places.old ++ map (place_of net.now) (filter (is_implicit net.now) net.now.flows)) }
{
    for flow in net.flows.as_slice() {
        if is_implicit(tasks, flow) {
            push_between(alloc, places, flow)?;
        }
    }
    Ok(())
}

/// The input, the output and the conditions, and behind them the implicit places in flow order.
pub fn places_of(alloc: Global, net: &RawNet, tasks: &Index) -> Result<PlaceList, AllocError>
    requires index { IsIndexOf (task_names net.now.task) tasks.now }
    requires named { NetIsNamed net.now }
    requires leads { NetLeads net.now }
    ensures { IfOk result (λ places. places ≡ places_of net.now) }
{
    let mut places = Items::new(alloc);
    push_named(alloc, &mut places, &net.input)?;
    push_named(alloc, &mut places, &net.output)?;
    push_conditions(alloc, &mut places, net.conditions.as_slice())?;
    push_implicit(alloc, &mut places, tasks, net)?;
    Ok(places)
}

/// The places of a net by their texts.
pub fn index_of_places(alloc: Global, places: &[Place]) -> Result<Index, AllocError>
    ensures { IfOk result (IsIndexOf (map place_text places.now)) }
{
    let mut index = Index::new(alloc);
    for (number, place) in places.iter().enumerate() {
        index.add(place.text(alloc)?, number)?;
    }
    Ok(index)
}
