// Graphs.
ghost use Rattle.std.specs.Prelude.{◌↔◌, ◌<◌, ◌≡◌, All, IsTrue};
ghost use Rattle.yw_reach.specs.Flows.{IsWithin};

use std::alloc::{AllocError, Global};
use yw_documents::number_at;
use yw_reach::{Flow, Marks, far, first_off_path, is_cyclic, reached, reaching};

/// `0>2`: a flow from 0 to 2.
fn flow_of(word: &str) -> Option<Flow> {
    let (from, to) = word.split_once('>')?;
    Some(Flow {
        from: from.parse::<usize>().ok()?,
        to: to.parse::<usize>().ok()?,
    })
}

/// The flows among the words.
fn flows_of(alloc: Global, text: &str) -> Result<Vec<Flow>, AllocError> {
    let mut flows = Vec::new(alloc);
    for word in text.split(' ') {
        if let Some(flow) = flow_of(word) {
            flows.push(flow)?;
        }
    }
    Ok(flows)
}

fn are_within(count: usize, flows: &[Flow]) -> bool
    ensures { IsTrue result ↔ All (IsWithin count) flows.now }
{
    for flow in flows {
        if flow.from >= count || flow.to >= count {
            return false;
        }
    }
    true
}

/// The nodes that are marked.
fn add_marks(marks: &Marks, out: &mut String) -> Result<(), AllocError> {
    for node in 0..marks.len() {
        if marks.get(node) {
            write!(out, "{node};")?;
        }
    }
    write!(out, " of {}", marks.len())
}

/// `0 5 0>1`: what is reached from node 0 of 5.
pub(crate) fn reached_from(alloc: Global, text: &str, out: &mut String) -> Result<(), AllocError> {
    let from = number_at(text, 0);
    let count = number_at(text, 1);
    let flows = flows_of(alloc, text)?;
    if from >= count || !are_within(count, &flows) {
        return out.push('?');
    }
    add_marks(&reached(alloc, count, &flows, from)?, out)
}

/// `0 5 0>1`: what reaches node 0 of 5.
pub(crate) fn reaching_to(alloc: Global, text: &str, out: &mut String) -> Result<(), AllocError> {
    let to = number_at(text, 0);
    let count = number_at(text, 1);
    let flows = flows_of(alloc, text)?;
    if to >= count || !are_within(count, &flows) {
        return out.push('?');
    }
    add_marks(&reaching(alloc, count, &flows, to)?, out)
}

/// `0 1 3 0>2 2>1`: the first of 3 nodes on no path from 0 to 1.
pub(crate) fn off_path(alloc: Global, text: &str, out: &mut String) -> Result<(), AllocError> {
    let from = number_at(text, 0);
    let to = number_at(text, 1);
    let count = number_at(text, 2);
    let flows = flows_of(alloc, text)?;
    if from >= count || to >= count || !are_within(count, &flows) {
        return out.push('?');
    }
    write!(out, "{:?}", first_off_path(alloc, count, &flows, from, to)?)
}

/// `2 4 0>1`: what lies two flows or more behind node 0 of 4.
pub(crate) fn far_away(alloc: Global, text: &str, out: &mut String) -> Result<(), AllocError> {
    let steps = number_at(text, 0);
    let count = number_at(text, 1);
    let flows = flows_of(alloc, text)?;
    if 0 >= count || !are_within(count, &flows) {
        return out.push('?');
    }
    add_marks(&far(alloc, count, &flows, 0, steps)?, out)
}

/// `3 0>1`: whether the graph of 3 nodes has a cycle.
pub(crate) fn cyclic(alloc: Global, text: &str, out: &mut String) -> Result<(), AllocError> {
    let count = number_at(text, 0);
    let flows = flows_of(alloc, text)?;
    if !are_within(count, &flows) {
        return out.push('?');
    }
    write!(out, "{}", is_cyclic(alloc, count, &flows)?)
}

/// Each node leads to the next.
fn chain_of(alloc: Global, count: usize) -> Result<Vec<Flow>, AllocError>
    requires { 0 < count }
{
    let mut flows = Vec::new(alloc);
    for node in 0..count - 1 {
        flows.push(Flow {
            from: node,
            to: node + 1,
        })?;
    }
    Ok(flows)
}

/// How many nodes are marked, and the first of them.
fn add_count(marks: &Marks, out: &mut String) -> Result<(), AllocError> {
    let mut count = 0u64;
    let mut first = None;
    for node in 0..marks.len() {
        if marks.get(node) {
            count = count.saturating_add(1);
            first = first.or(Some(node));
        }
    }
    write!(out, "{count} from {first:?}")
}

/// `200000`: a chain of so many nodes: the first off the path, whether it has a cycle, and what lies three flows or more behind the first.
pub(crate) fn long_chain(alloc: Global, text: &str, out: &mut String) -> Result<(), AllocError> {
    let count = number_at(text, 0);
    if 0 >= count {
        return out.push('?');
    }
    let flows = chain_of(alloc, count)?;
    if !are_within(count, &flows) {
        return out.push('?');
    }
    let off = first_off_path(alloc, count, &flows, 0, count - 1)?;
    let is_cyclic = is_cyclic(alloc, count, &flows)?;
    write!(out, "off {off:?}, cyclic {is_cyclic}, far ")?;
    add_count(&far(alloc, count, &flows, 0, 3)?, out)
}
