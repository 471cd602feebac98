// The first check: which names there may be. An `Err` says that no memory was left.
ghost use Rattle.std.specs.Prelude.{◌≡◌, [], true, IfOk, option_to_list};
ghost use Rattle.std.specs.List.{list_any};
ghost use Rattle.std.specs.Str.{bytes_eq};
ghost use Rattle.yw_accept.specs.Faults.{in_net, of_spec};
ghost use Rattle.yw_accept.specs.Names.{IsUsable, NamesFit, NetNames, TaskNames};
ghost use Rattle.yw_accept.specs.Nodes.{is_net};
ghost use Rattle.yw_accept.specs.Order.{Demand, InOrder, InTurn};
ghost use Rattle.yw_check_names.specs.Seen.{Knows, Tries, TriesAll};
ghost use Rattle.yw_check_names.specs.Tried.{KnowsNets, KnowsNodes, NamesInNet, NamesInTask, TriesPlaces};

use crate::seen::{NameSet, distinct_names, is_usable, new_name, new_names};
use std::alloc::{AllocError, Global};
use std::collections::BTreeSet;
use yw_accept::Broken;
use yw_base::Text;
use yw_read::{RawNet, RawSpec, RawTask};

/// A task's role, if it has one, has to be usable.
fn check_role(alloc: Global, net: &RawNet, task: &RawTask) -> Result<Option<Broken>, AllocError>
    ensures { IfOk result (InOrder (IsUsable (in_net 1 net.now.name)) (option_to_list task.now.role)) }
{
    match &task.role {
        None => Ok(None),
        Some(role) => {
            if is_usable(alloc, role)? {
                return Ok(None);
            }
            let broken = Broken::in_net(alloc, 1, &net.name, role)?;
            Ok(Some(broken))
        }
    }
}

/// The names in a task: its role, and what it is given, makes and sets.
fn names_in_task(alloc: Global, net: &RawNet, task: &RawTask) -> Result<Option<Broken>, AllocError>
    ensures { IfOk result (NamesInTask net.now task.now) }
{
    if let Some(broken) = check_role(alloc, net, task)? {
        return Ok(Some(broken));
    }
    if let Some(broken) = distinct_names(alloc, &net.name, &task.ins)? {
        return Ok(Some(broken));
    }
    if let Some(broken) = distinct_names(alloc, &net.name, &task.outs)? {
        return Ok(Some(broken));
    }
    let found = distinct_names(alloc, &net.name, &task.set)?;
    Ok(found)
}

/// A task's name beside the nodes seen, and then the names in it.
fn try_task(
    alloc: Global,
    net: &RawNet,
    seen: &mut NameSet,
    task: &RawTask,
) -> Result<Option<Broken>, AllocError>
    ensures { IfOk result (Tries (KnowsNodes net.now) (TaskNames net.now) seen.old seen.new task.now) }
{
    if let Some(broken) = new_name(alloc, &net.name, seen, &task.name)? {
        return Ok(Some(broken));
    }
    let found = names_in_task(alloc, net, task)?;
    Ok(found)
}

/// The tasks of a net beside the conditions seen.
fn try_tasks(
    alloc: Global,
    net: &RawNet,
    seen: &mut NameSet,
    tasks: &[RawTask],
) -> Result<Option<Broken>, AllocError>
    ensures { IfOk result (TriesAll (KnowsNodes net.now) (TaskNames net.now) seen.old seen.new tasks.now) }
{
    for task in tasks {
        if let Some(broken) = try_task(alloc, net, seen, task)? {
            return Ok(Some(broken));
        }
    }
    Ok(None)
}

/// The names of a net's conditions.
fn try_places(alloc: Global, net: &RawNet, seen: &mut NameSet) -> Result<Option<Broken>, AllocError>
    requires { Knows seen.old [] }
    ensures { IfOk result (TriesPlaces net.now seen.new) }
{
    if let Some(broken) = new_name(alloc, &net.name, seen, &net.input)? {
        return Ok(Some(broken));
    }
    if let Some(broken) = new_name(alloc, &net.name, seen, &net.output)? {
        return Ok(Some(broken));
    }
    let found = new_names(alloc, &net.name, seen, net.conditions.as_slice())?;
    Ok(found)
}

/// The names in a net: its conditions', its tasks', and its variables'.
fn names_in_net(alloc: Global, net: &RawNet) -> Result<Option<Broken>, AllocError>
    ensures { IfOk result (NamesInNet net.now) }
{
    let mut seen = BTreeSet::new(alloc);
    if let Some(broken) = try_places(alloc, net, &mut seen)? {
        return Ok(Some(broken));
    }
    if let Some(broken) = try_tasks(alloc, net, &mut seen, net.task.as_slice())? {
        return Ok(Some(broken));
    }
    let found = distinct_names(alloc, &net.name, &net.vars)?;
    Ok(found)
}

/// A net's name beside the nets seen, and then the names in it.
fn try_net(alloc: Global, seen: &mut NameSet, net: &RawNet) -> Result<Option<Broken>, AllocError>
    ensures { IfOk result (Tries KnowsNets NetNames seen.old seen.new net.now) }
{
    if let Some(broken) = new_name(alloc, &net.name, seen, &net.name)? {
        return Ok(Some(broken));
    }
    let found = names_in_net(alloc, net)?;
    Ok(found)
}

/// Nets beside those seen.
fn try_nets(
    alloc: Global,
    seen: &mut NameSet,
    nets: &[RawNet],
) -> Result<Option<Broken>, AllocError>
    ensures { IfOk result (TriesAll KnowsNets NetNames seen.old seen.new nets.now) }
{
    for net in nets {
        if let Some(broken) = try_net(alloc, seen, net)? {
            return Ok(Some(broken));
        }
    }
    Ok(None)
}

/// The nets' names, each beside those before it, and the names in the nets.
fn check_nets(alloc: Global, nets: &[RawNet]) -> Result<Option<Broken>, AllocError>
    ensures { IfOk result (InTurn NetNames [] nets.now) }
{
    let mut seen = BTreeSet::new(alloc);
    let found = try_nets(alloc, &mut seen, nets)?;
    Ok(found)
}

/// The specification's name has to be usable.
fn check_name(alloc: Global, raw: &RawSpec) -> Result<Option<Broken>, AllocError>
    ensures { IfOk result (IsUsable (of_spec 1) raw.now.name) }
{
    if is_usable(alloc, &raw.name)? {
        return Ok(None);
    }
    let broken = Broken::of_spec(alloc, 1, &raw.name)?;
    Ok(Some(broken))
}

fn has_name(nets: &[RawNet], name: &str) -> bool
    ensures { result ≡ list_any (λ net. bytes_eq name.now net.name) nets.now }
{
    nets.iter().any(|net| name == net.name.as_str())
}

/// A net has the name.
fn is_net(raw: &RawSpec, name: &Text) -> bool
    ensures { result ≡ is_net raw.now name.now }
{
    has_name(raw.net.as_slice(), name.as_str())
}

/// The top has to be a net.
fn check_top(alloc: Global, raw: &RawSpec) -> Result<Option<Broken>, AllocError>
    ensures { IfOk result (Demand (is_net raw.now raw.now.top ≡ true) (of_spec 1 raw.now.top)) }
{
    if is_net(raw, &raw.top) {
        return Ok(None);
    }
    let broken = Broken::of_spec(alloc, 1, &raw.top)?;
    Ok(Some(broken))
}

/// The first check: every name, role and variable is a name and no word of the expression language (`and`, `or`,
/// `not`, `true`, `false`, `len`, `sum`); no two nets have one name, and neither have two nodes of a net, two of
/// its variables, two `ins` or two `outs` of a task, or two assignments of its `set`; and `top` is a net.
///
/// It gives the first fault, `None` exactly where there is none. The specification's name comes first, then `top`,
/// both under `-`. Then the nets follow in document order, each with its own name, which stands in both places, its
/// input, its output, its other conditions, its tasks and its variables. A task's role, `ins`, `outs` and `set` come
/// right after its name. Of two equal names the later one is at fault.
///
/// An `Err` says that no memory was left. The check and its order are our own. It takes time n log n for n names.
#[tactic(auto, unfolding(yw_accept::specs::Names::NamesFit))]
pub fn names_fit(alloc: Global, raw: &RawSpec) -> Result<Option<Broken>, AllocError>
    ensures { IfOk result (NamesFit raw.now) }
{
    if let Some(broken) = check_name(alloc, raw)? {
        return Ok(Some(broken));
    }
    if let Some(broken) = check_top(alloc, raw)? {
        return Ok(Some(broken));
    }
    let found = check_nets(alloc, raw.net.as_slice())?;
    Ok(found)
}
