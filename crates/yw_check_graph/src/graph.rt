// The nodes of a net and its flows, by numbers.
ghost use Rattle.std.specs.Prelude.{◌≡◌, ◌<◌, ◌∷◌, ◌++◌, [], length, true, All, IfOk, OnOk};
ghost use Rattle.yw_accept.specs.Index.{IsIndexOf};
ghost use Rattle.yw_accept.specs.Nodes.{is_name_among, nodes, task_names};
ghost use Rattle.yw_check_graph.specs.Graph.{AreNumbered, EndsAreAmong, IsNumbered, name_at};

use std::alloc::{AllocError, Global};
use yw_accept::{Index, number_of};
use yw_base::Text;
use yw_reach::Flow;
use yw_read::{RawFlow, RawNet, RawTask};

/// Adds a copy of a text.
pub fn push_copy(alloc: Global, names: &mut Vec<Text>, text: &Text) -> Result<(), AllocError>
    ensures { OnOk result (names.new.items ≡ names.old.items ++ text.now ∷ []) }
{
    names.push(Text::copy_of(alloc, text.as_str())?)?;
    Ok(())
}

fn push_texts(alloc: Global, names: &mut Vec<Text>, texts: &[Text]) -> Result<(), AllocError>
    ensures { OnOk result (names.new.items ≡ names.old.items ++ texts.now) }
{
    for text in texts {
        push_copy(alloc, names, text)?;
    }
    Ok(())
}

fn push_tasks(alloc: Global, names: &mut Vec<Text>, tasks: &[RawTask]) -> Result<(), AllocError>
    ensures { OnOk result (names.new.items ≡ names.old.items ++ task_names tasks.now) }
{
    for task in tasks {
        push_copy(alloc, names, &task.name)?;
    }
    Ok(())
}

/// The nodes in document order.
pub fn nodes_of(alloc: Global, net: &RawNet) -> Result<Vec<Text>, AllocError>
    ensures { IfOk result (λ v. v.items ≡ nodes net.now) }
{
    let mut names = Vec::new(alloc);
    push_copy(alloc, &mut names, &net.input)?;
    push_copy(alloc, &mut names, &net.output)?;
    push_texts(alloc, &mut names, net.conditions.as_slice())?;
    push_tasks(alloc, &mut names, net.task.as_slice())?;
    Ok(names)
}

/// The number of a name that is one of them.
pub fn number_in(index: &Index, names: &[Text], name: &Text) -> usize
    requires index { IsIndexOf names.now index.now }
    requires is { is_name_among names.now name.now ≡ true }
    ensures within { result < length names.now }
    ensures name { name_at names.now result ≡ name.now }
{
    match number_of(index, name.as_str()) {
        Some(number) => number,
        None => unreachable!(),
    }
}

fn flow_of(index: &Index, names: &[Text], flow: &RawFlow) -> Flow
    requires index { IsIndexOf names.now index.now }
    requires ends { EndsAreAmong names.now flow.now }
    ensures { IsNumbered names.now flow.now result }
{
    Flow {
        from: number_in(index, names, &flow.from),
        to: number_in(index, names, &flow.to),
    }
}

/// The flows by the numbers of their ends.
pub fn flows_of(
    alloc: Global,
    index: &Index,
    names: &[Text],
    said: &[RawFlow],
) -> Result<Vec<Flow>, AllocError>
    requires index { IsIndexOf names.now index.now }
    requires ends { All (EndsAreAmong names.now) said.now }
    ensures { IfOk result (λ v. AreNumbered names.now said.now v.items) }
{
    let mut flows = Vec::new(alloc);
    for flow in said {
        flows.push(flow_of(index, names, flow))?;
    }
    Ok(flows)
}
