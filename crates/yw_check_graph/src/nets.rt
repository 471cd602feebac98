// The nets as a graph of numbers.
ghost use Rattle.std.specs.Prelude.{◌≡◌, ℕ, ◌<◌, ◌∷◌, ◌++◌, [], List, length, IfOk, OnOk, option_to_list};
ghost use Rattle.std.specs.Option.{option_copied};
ghost use Rattle.yw_accept.specs.Facts.{IsNamed};
ghost use Rattle.yw_accept.specs.Faults.{of_net};
ghost use Rattle.yw_accept.specs.Graph.{child};
ghost use Rattle.yw_accept.specs.Index.{IsIndexOf};
ghost use Rattle.yw_accept.specs.Nodes.{net_names};
ghost use Rattle.yw_check_graph.specs.Graph.{AreNumbered, name_at};
ghost use Rattle.yw_check_graph.specs.Nets.{AddsFlows, IsChildNumber, IsNetGraph, link, links, links_from};

use crate::graph::{number_in, push_copy};
use std::alloc::{AllocError, Global};
use yw_accept::{Broken, Index, index_of, number_of};
use yw_base::Text;
use yw_reach::Flow;
use yw_read::{RawNet, RawSpec, RawTask};

/// The nets by their numbers. A flow goes from a net to each net of the specification that a task of it names.
#[derive(Drop)]
pub struct NetGraph {
    /// How many nets there are.
    pub count: usize,
    /// The number of the top.
    pub top: usize,
    /// The flows between nets, in the order of the tasks.
    pub flows: Vec<Flow>,
    /// The numbers by names.
    pub index: Index,
}

/// The names of nets in document order.
fn names_of(alloc: Global, nets: &[RawNet]) -> Result<Vec<Text>, AllocError>
    ensures { IfOk result (λ v. v.items ≡ net_names nets.now) }
{
    let mut names = Vec::new(alloc);
    for net in nets {
        push_copy(alloc, &mut names, &net.name)?;
    }
    Ok(names)
}

/// The name of the net that the task's items run in, or `None` where it names none.
fn child_of(task: &RawTask) -> Option<&Text>
    ensures { option_copied result ≡ child task.now }
{
    if task.kind.is_composite() {
        return task.net.as_ref();
    }
    None
}

/// The number of the net that the task names, or `None` where it names no net of the index.
pub fn child_number(index: &Index, task: &RawTask) -> Option<usize>
    ensures { (names : List (List ℕ)) → IsIndexOf names index.now → IsChildNumber names task.now result }
{
    match child_of(task) {
        None => None,
        Some(child) => number_of(index, child.as_str()),
    }
}

/// Adds the flow from the net with this number to the net that a task of it names.
fn push_link(
    index: &Index,
    names: &[Text],
    from: usize,
    task: &RawTask,
    flows: &mut Vec<Flow>,
) -> Result<(), AllocError>
    requires index { IsIndexOf names.now index.now }
    requires from { from < length names.now }
    ensures { OnOk result (AddsFlows names.now (option_to_list (link names.now (name_at names.now from) task.now)) flows.old.items flows.new.items) }
{
    match child_number(index, task) {
        None => Ok(()),
        Some(to) => {
            flows.push(Flow { from, to })?;
            Ok(())
        }
    }
}

/// Adds the flows from the net with this number, whose tasks these are.
fn push_links(
    index: &Index,
    names: &[Text],
    from: usize,
    tasks: &[RawTask],
    flows: &mut Vec<Flow>,
) -> Result<(), AllocError>
    requires index { IsIndexOf names.now index.now }
    requires from { from < length names.now }
    ensures { OnOk result (AddsFlows names.now (links_from names.now (name_at names.now from) tasks.now) flows.old.items flows.new.items) }
{
    for task in tasks {
        push_link(index, names, from, task, flows)?;
    }
    Ok(())
}

/// The flows between the nets, which have these names.
fn links_of(
    alloc: Global,
    index: &Index,
    names: &[Text],
    nets: &[RawNet],
) -> Result<Vec<Flow>, AllocError>
    requires index { IsIndexOf names.now index.now }
    requires names { names.now ≡ net_names nets.now }
    ensures { IfOk result (λ v. AreNumbered names.now (links names.now nets.now) v.items) }
{
    let mut flows = Vec::new(alloc);
    for (from, net) in nets.iter().enumerate() {
        push_links(index, names, from, net.task.as_slice(), &mut flows)?;
    }
    Ok(flows)
}

/// The nets by their numbers.
pub fn net_graph(alloc: Global, raw: &RawSpec) -> Result<NetGraph, AllocError>
    requires { IsNamed raw.now }
    ensures { IfOk result (IsNetGraph raw.now) }
{
    let names = names_of(alloc, raw.net.as_slice())?;
    let index = index_of(alloc, &names)?;
    let flows = links_of(alloc, &index, &names, raw.net.as_slice())?;
    let top = number_in(&index, &names, &raw.top);
    Ok(NetGraph {
        count: names.len(),
        top,
        flows,
        index,
    })
}

/// The fault of the net with this number.
pub fn broken_net(
    alloc: Global,
    check: u32,
    nets: &[RawNet],
    number: usize,
) -> Result<Broken, AllocError>
    requires { number < length nets.now }
    ensures { IfOk result (λ b. b ≡ of_net check (name_at (net_names nets.now) number)) }
{
    Broken::of_net(alloc, check, &nets[number].name)
}
