// The check of sizes.
ghost use Rattle.std.specs.Prelude.{◌≡◌, IfOk, length, nat_le};
ghost use Rattle.yw_accept.specs.Nodes.{nodes};
ghost use Rattle.yw_accept.specs.Order.{InOrder};
ghost use Rattle.yw_accept.specs.Tasks.{is_small_net, is_small_task, NetIsSmall, SizesFit};
ghost use Rattle.yw_check_tasks.specs.Steps.{TaskIsSmall, TasksAreSmall, NetsAreFew};

use std::alloc::{AllocError, Global};
use yw_accept::Broken;
use yw_base::Text;
use yw_read::{RawNet, RawSpec, RawTask};

/// The most nets of a specification.
const MOST_NETS: usize = 64;
/// The most conditions and tasks of a net, with its input and its output.
const MOST_NODES: usize = 256;
/// The most flows of a net.
const MOST_FLOWS: usize = 1024;
/// The most variables of a net.
const MOST_VARS: usize = 64;
/// The most parameters that are given to a task's work.
const MOST_INS: usize = 32;
/// The most parameters that a task's work makes.
const MOST_OUTS: usize = 32;
/// The most places and tasks that a task empties.
const MOST_REMOVALS: usize = 256;

fn has_few_nodes(net: &RawNet) -> bool
    ensures { result ≡ nat_le (length (nodes net.now)) 256 }
{
    // Each is looked at before the sum, which then fits.
    let conditions = net.conditions.len();
    let tasks = net.task.len();
    conditions < MOST_NODES && tasks < MOST_NODES && 2 + conditions + tasks <= MOST_NODES
}

fn is_small_net(net: &RawNet) -> bool
    ensures { result ≡ is_small_net net.now }
{
    has_few_nodes(net) && net.flows.len() <= MOST_FLOWS && net.vars.len() <= MOST_VARS
}

fn is_small_task(task: &RawTask) -> bool
    ensures { result ≡ is_small_task task.now }
{
    task.ins.len() <= MOST_INS && task.outs.len() <= MOST_OUTS && task.remove.len() <= MOST_REMOVALS
}

fn check_task(alloc: Global, net: &Text, task: &RawTask) -> Result<Option<Broken>, AllocError>
    ensures { IfOk result (TaskIsSmall net.now task.now) }
{
    if is_small_task(task) {
        return Ok(None);
    }
    let broken = Broken::in_net(alloc, 12, net, &task.name)?;
    Ok(Some(broken))
}

fn check_tasks(alloc: Global, net: &RawNet) -> Result<Option<Broken>, AllocError>
    ensures { IfOk result (TasksAreSmall net.now) }
{
    for task in net.task.as_slice() {
        match check_task(alloc, &net.name, task)? {
            Some(broken) => return Ok(Some(broken)),
            None => {}
        }
    }
    Ok(None)
}

fn check_net(alloc: Global, net: &RawNet) -> Result<Option<Broken>, AllocError>
    ensures { IfOk result (NetIsSmall net.now) }
{
    if !is_small_net(net) {
        let broken = Broken::of_net(alloc, 12, &net.name)?;
        return Ok(Some(broken));
    }
    let found = check_tasks(alloc, net)?;
    Ok(found)
}

/// The 65th net, if there is one.
fn check_count(alloc: Global, nets: &[RawNet]) -> Result<Option<Broken>, AllocError>
    ensures { IfOk result (NetsAreFew nets.now) }
{
    if nets.len() <= MOST_NETS {
        return Ok(None);
    }
    let broken = Broken::of_net(alloc, 12, &nets[MOST_NETS].name)?;
    Ok(Some(broken))
}

fn check_nets(alloc: Global, nets: &[RawNet]) -> Result<Option<Broken>, AllocError>
    ensures { IfOk result (InOrder NetIsSmall nets.now) }
{
    for net in nets {
        match check_net(alloc, net)? {
            Some(broken) => return Ok(Some(broken)),
            None => {}
        }
    }
    Ok(None)
}

/// What is too large: the 65th net, if there is one, and else in the order of the document the first net with
/// more than 256 nodes (its input, its output, its conditions and its tasks), 1,024 flows or 64 variables, for
/// which the net's name stands in both places, or with a task of more than 32 `ins`, 32 `outs` or 256
/// removals, for which the first such task is named. A net's own sizes come before its tasks'. `None` where
/// nothing is too large. It is the twelfth check, and the bounds are our own.
///
/// It takes time linear in the specification. The only error is want of memory.
#[tactic(auto, unfolding(yw_accept::specs::Tasks::SizesFit))]
pub fn sizes_fit(alloc: Global, raw: &RawSpec) -> Result<Option<Broken>, AllocError>
    ensures { IfOk result (SizesFit raw.now) }
{
    match check_count(alloc, raw.net.as_slice())? {
        Some(broken) => Ok(Some(broken)),
        None => {
            let found = check_nets(alloc, raw.net.as_slice())?;
            Ok(found)
        }
    }
}
