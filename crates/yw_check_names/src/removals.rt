// The fourth check: what a task removes. An `Err` says that no memory was left.
ghost use Rattle.std.specs.Prelude.{◌≡◌, IfOk, OnOk};
ghost use Rattle.std.specs.BTreeSet.{contains_text};
ghost use Rattle.std.specs.List.{list_all};
ghost use Rattle.yw_accept.specs.Names.{RemovalFits, RemovalsFit};
ghost use Rattle.yw_accept.specs.Order.{InOrder};
ghost use Rattle.yw_check_names.specs.Removals.{AddsImplicit, AreImplicit, MayBeEmptied};

use crate::net_nodes::{arrow, has};
use crate::seen::{NameSet, add, add_all, set_of};
use std::alloc::{AllocError, Global};
use std::collections::BTreeSet;
use yw_accept::Broken;
use yw_base::Text;
use yw_read::{RawFlow, RawNet, RawSpec, RawTask};

/// Adds the implicit condition of a flow, if it goes from a task to a task.
fn add_implicit(
    alloc: Global,
    tasks: &NameSet,
    set: &mut NameSet,
    flow: &RawFlow,
) -> Result<(), AllocError>
    ensures { OnOk result (AddsImplicit tasks.now set.old set.new flow.now) }
{
    if has(tasks, &flow.from) && has(tasks, &flow.to) {
        let text = arrow(alloc, flow)?;
        add(set, text)?;
        return Ok(());
    }
    Ok(())
}

/// The implicit conditions of flows, by the tasks of their net.
fn implicit_places(alloc: Global, tasks: &NameSet, flows: &[RawFlow]) -> Result<NameSet, AllocError>
    ensures { IfOk result (AreImplicit tasks.now flows.now) }
{
    let mut set = BTreeSet::new(alloc);
    for flow in flows {
        add_implicit(alloc, tasks, &mut set, flow)?;
    }
    Ok(set)
}

/// What the tasks of a net may empty: conditions other than the input and the output, implicit ones, and tasks.
fn emptied_in(alloc: Global, net: &RawNet) -> Result<NameSet, AllocError>
    ensures { IfOk result (MayBeEmptied net.now) }
{
    let tasks = set_of(alloc, net.task.as_slice())?;
    let mut set = implicit_places(alloc, &tasks, net.flows.as_slice())?;
    add_all(alloc, &mut set, net.conditions.as_slice())?;
    add_all(alloc, &mut set, net.task.as_slice())?;
    Ok(set)
}

/// Each of the names is in the set.
fn has_all(set: &NameSet, names: &[Text]) -> bool
    ensures { result ≡ list_all (λ name. contains_text set.now name) names.now }
{
    names.iter().all(|name| has(set, name))
}

/// What a task removes.
fn check_removal(
    alloc: Global,
    net: &RawNet,
    emptied: &NameSet,
    task: &RawTask,
) -> Result<Option<Broken>, AllocError>
    requires { MayBeEmptied net.now emptied.now }
    ensures { IfOk result (RemovalFits net.now task.now) }
{
    if has_all(emptied, task.remove.as_slice()) {
        return Ok(None);
    }
    let broken = Broken::in_net(alloc, 4, &net.name, &task.name)?;
    Ok(Some(broken))
}

/// What tasks of a net remove.
fn check_tasks(
    alloc: Global,
    net: &RawNet,
    emptied: &NameSet,
    tasks: &[RawTask],
) -> Result<Option<Broken>, AllocError>
    requires { MayBeEmptied net.now emptied.now }
    ensures { IfOk result (InOrder (RemovalFits net.now) tasks.now) }
{
    for task in tasks {
        if let Some(broken) = check_removal(alloc, net, emptied, task)? {
            return Ok(Some(broken));
        }
    }
    Ok(None)
}

/// What the tasks of a net remove.
fn check_net(alloc: Global, net: &RawNet) -> Result<Option<Broken>, AllocError>
    ensures { IfOk result (InOrder (RemovalFits net.now) net.now.task) }
{
    let emptied = emptied_in(alloc, net)?;
    let found = check_tasks(alloc, net, &emptied, net.task.as_slice())?;
    Ok(found)
}

/// What the tasks of nets remove.
fn check_nets(alloc: Global, nets: &[RawNet]) -> Result<Option<Broken>, AllocError>
    ensures { IfOk result (InOrder (λ net. InOrder (RemovalFits net) net.task) nets.now) }
{
    for net in nets {
        if let Some(broken) = check_net(alloc, net)? {
            return Ok(Some(broken));
        }
    }
    Ok(None)
}

/// The fourth check: a task removes from conditions other than the input and the output, from implicit ones, which
/// are written `from->to` after a flow from a task to a task, and from tasks.
///
/// It gives the first task at fault, net by net in document order and each net's tasks in theirs: the net and the
/// task. It is `None` exactly where none is.
///
/// An `Err` says that no memory was left. The check and its order are our own. It takes time n log n for n nodes,
/// flows and removals.
#[tactic(auto, unfolding(yw_accept::specs::Names::RemovalsFit))]
pub fn removals_fit(alloc: Global, raw: &RawSpec) -> Result<Option<Broken>, AllocError>
    ensures { IfOk result (RemovalsFit raw.now) }
{
    let found = check_nets(alloc, raw.net.as_slice())?;
    Ok(found)
}
