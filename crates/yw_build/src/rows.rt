// The places before and after each task of a net.
ghost use Rattle.std.specs.Prelude.{◌≡◌, ◌<◌, [], ◌∷◌, ◌++◌, length, get_or, set, Contains, IfOk, OnOk, replicate};
ghost use Rattle.yw_accept.specs.Facts.{NetIsNamed, NetLeads};
ghost use Rattle.yw_build.specs.Numbers.{AreNumbers};
ghost use Rattle.yw_build.specs.Rows.{AddsPlace, AreAround, AreRows};

use crate::numbers::NetNumbers;
use std::alloc::{AllocError, Global};
use yw_accept::number_of;
use yw_base::Items;
use yw_read::RawFlow;
use yw_spec::IndexList;

/// Of each task of a net, in document order, the places before and after it.
#[derive(Drop)]
pub struct Around {
    pub before: Vec<IndexList>,
    pub after: Vec<IndexList>,
}

fn empty_rows(alloc: Global, count: usize) -> Result<Vec<IndexList>, AllocError>
    ensures { IfOk result (λ rows. rows.items ≡ replicate count []) }
{
    let mut rows = Vec::new(alloc);
    for _ in 0..count {
        rows.push(Items::new(alloc))?;
    }
    Ok(rows)
}

fn put(rows: &mut Vec<IndexList>, row: usize, place: usize) -> Result<(), AllocError>
    requires { row < length rows.old.items }
    ensures { OnOk result (rows.new.items ≡ set rows.old.items row (get_or rows.old.items row [] ++ place ∷ [])) }
{
    rows[row].push(place)?;
    Ok(())
}

/// Adds the place of a flow to the row of the task with this name, where there is one.
fn add_place(
    alloc: Global,
    numbers: &NetNumbers<'_>,
    rows: &mut Vec<IndexList>,
    node: &str,
    flow: &RawFlow,
) -> Result<(), AllocError>
    requires numbers { AreNumbers numbers.now }
    requires named { NetIsNamed numbers.now.said.now }
    requires leads { NetLeads numbers.now.said.now }
    requires flow { Contains numbers.now.said.now.flows flow.now }
    requires len { length rows.old.items ≡ length numbers.now.said.now.task }
    ensures { OnOk result (AddsPlace numbers.now.said.now node.now flow.now rows.old.items rows.new.items) }
{
    match number_of(&numbers.tasks, node) {
        Some(task) => {
            let place = numbers.place_of(alloc, flow.from.as_str(), flow.to.as_str())?;
            put(rows, task, place)?;
            Ok(())
        }
        None => Ok(()),
    }
}

/// Of each task the places from which flows lead to it, in flow order.
fn places_before(alloc: Global, numbers: &NetNumbers<'_>) -> Result<Vec<IndexList>, AllocError>
    requires numbers { AreNumbers numbers.now }
    requires named { NetIsNamed numbers.now.said.now }
    requires leads { NetLeads numbers.now.said.now }
    ensures { IfOk result (λ rows. AreRows numbers.now.said.now (λ flow. flow.to) numbers.now.said.now.flows rows.items) }
{
    let mut rows = empty_rows(alloc, numbers.said.task.len())?;
    for flow in numbers.said.flows.as_slice() {
        add_place(alloc, numbers, &mut rows, flow.to.as_str(), flow)?;
    }
    Ok(rows)
}

/// Of each task the places to which flows lead from it, in flow order.
fn places_after(alloc: Global, numbers: &NetNumbers<'_>) -> Result<Vec<IndexList>, AllocError>
    requires numbers { AreNumbers numbers.now }
    requires named { NetIsNamed numbers.now.said.now }
    requires leads { NetLeads numbers.now.said.now }
    ensures { IfOk result (λ rows. AreRows numbers.now.said.now (λ flow. flow.from) numbers.now.said.now.flows rows.items) }
{
    let mut rows = empty_rows(alloc, numbers.said.task.len())?;
    for flow in numbers.said.flows.as_slice() {
        add_place(alloc, numbers, &mut rows, flow.from.as_str(), flow)?;
    }
    Ok(rows)
}

/// The places before and after each task of a net.
pub fn places_around(alloc: Global, numbers: &NetNumbers<'_>) -> Result<Around, AllocError>
    requires numbers { AreNumbers numbers.now }
    requires named { NetIsNamed numbers.now.said.now }
    requires leads { NetLeads numbers.now.said.now }
    ensures { IfOk result (AreAround numbers.now.said.now) }
{
    let before = places_before(alloc, numbers)?;
    let after = places_after(alloc, numbers)?;
    Ok(Around { before, after })
}

/// The row of a task.
pub fn row_of(alloc: Global, rows: &[IndexList], task: usize) -> Result<IndexList, AllocError>
    requires { task < length rows.now }
    ensures { IfOk result (λ row. row ≡ get_or rows.now task []) }
{
    let row = Vec::from_slice(alloc, rows[task].as_slice())?;
    Ok(Items::from_vec(row))
}
