// The check of the branches of splits.
ghost use Rattle.std.specs.Prelude.{◌≡◌, IfOk, OnOk, ◌==◌, ◌&&◌, count_by, is_none};
ghost use Rattle.std.specs.List.{list_all};
ghost use Rattle.yw_read.specs.declared.raw.RawBranch.{RawBranch};
ghost use Rattle.yw_accept.specs.Tasks.{branches_fit, split_fits, SplitFits, SplitsFit};
ghost use Rattle.yw_check_tasks.specs.Steps.{NetSplitsFit};
ghost use Rattle.yw_check_tasks.specs.Outputs.{texts_of, count_at, AreCounts, is_counted, is_counted_once};
ghost use Rattle.yw_check_tasks.specs.Outputs.{outputs_at, AddsOutput, AreOutputs};

use std::alloc::{AllocError, Global};
use std::collections::BTreeMap;
use yw_accept::Broken;
use yw_base::Gate;
use yw_read::{RawBranch, RawFlow, RawNet, RawSpec, RawTask};

/// The outputs of each node from which flows go, in flow order.
type Outputs<'a> = BTreeMap<&'a str, Vec<&'a str>>;

/// How often each name was counted.
type Counts<'a> = BTreeMap<&'a str, usize>;

fn add_output<'a>(outputs: &mut Outputs<'a>, from: &'a str, to: &'a str) -> Result<(), AllocError>
    ensures { OnOk result (AddsOutput outputs.old outputs.new from.now to.now) }
{
    outputs.entry(from)?.or_default().push(to)?;
    Ok(())
}

fn outputs_of(alloc: Global, flows: &[RawFlow]) -> Result<Outputs<'_>, AllocError>
    ensures { IfOk result (AreOutputs flows.now) }
{
    let mut outputs = BTreeMap::new(alloc);
    for flow in flows {
        add_output(&mut outputs, flow.from.as_str(), flow.to.as_str())?;
    }
    Ok(outputs)
}

fn counts_of<'a>(alloc: Global, names: &[&'a str]) -> Result<Counts<'a>, AllocError>
    ensures { IfOk result (AreCounts (λ name. name.now) names.now) }
{
    let mut counts = BTreeMap::new(alloc);
    for name in names {
        *counts.entry(*name)?.or_insert(0) += 1;
    }
    Ok(counts)
}

fn counts_of_branches(alloc: Global, branches: &[RawBranch]) -> Result<Counts<'_>, AllocError>
    ensures { IfOk result (AreCounts (λ (branch : RawBranch). branch.to) branches.now) }
{
    let mut counts = BTreeMap::new(alloc);
    for branch in branches {
        *counts.entry(branch.to.as_str())?.or_insert(0) += 1;
    }
    Ok(counts)
}

fn count_at<'a>(counts: &Counts<'a>, name: &'a str) -> usize
    ensures { result ≡ count_at counts.now name.now }
{
    counts.get(&name).copied().unwrap_or(0)
}

/// Each branch leads to an output.
fn lead_to_counted<'a>(outputs: &Counts<'a>, branches: &'a [RawBranch]) -> bool
    ensures { result ≡ list_all (is_counted outputs.now) branches.now }
{
    for branch in branches {
        if count_at(outputs, branch.to.as_str()) == 0 {
            return false;
        }
    }
    true
}

/// Each output is where one branch leads.
fn are_counted_once<'a>(branches: &Counts<'a>, outputs: &[&'a str]) -> bool
    ensures { result ≡ list_all (is_counted_once branches.now) outputs.now }
{
    for output in outputs {
        if count_at(branches, output) != 1 {
            return false;
        }
    }
    true
}

fn has_one_default(branches: &[RawBranch]) -> bool
    ensures { result ≡ (count_by (λ (b : RawBranch). is_none b.when) branches.now == 1) }
{
    branches
        .iter()
        .filter(|branch| branch.when.is_none())
        .count()
        == 1
}

/// Branches share out outputs: `given` has the outputs' counts, `named` those of where the branches lead.
fn share_outputs<'a>(
    given: &Counts<'a>,
    named: &Counts<'a>,
    outputs: &[&'a str],
    branches: &'a [RawBranch],
) -> bool
    ensures { result ≡ (list_all (is_counted given.now) branches.now
        && list_all (is_counted_once named.now) outputs.now
        && (count_by (λ (b : RawBranch). is_none b.when) branches.now == 1)) }
{
    lead_to_counted(given, branches)
        && are_counted_once(named, outputs)
        && has_one_default(branches)
}

fn branches_fit<'a>(
    alloc: Global,
    outputs: &[&'a str],
    branches: &'a [RawBranch],
) -> Result<bool, AllocError>
    ensures { IfOk result (λ fit. fit ≡ branches_fit (texts_of outputs.now) branches.now) }
{
    let given = counts_of(alloc, outputs)?;
    let named = counts_of_branches(alloc, branches)?;
    Ok(share_outputs(&given, &named, outputs, branches))
}

/// The branches share out the outputs that were found for the node.
fn branches_fit_at<'a>(
    alloc: Global,
    outputs: &Outputs<'a>,
    node: &'a str,
    branches: &'a [RawBranch],
) -> Result<bool, AllocError>
    ensures { IfOk result (λ fit. fit ≡ branches_fit (outputs_at outputs.now node.now) branches.now) }
{
    match outputs.get(&node) {
        Some(found) => {
            let fit = branches_fit(alloc, found.as_slice(), branches)?;
            Ok(fit)
        }
        None => {
            let fit = branches_fit(alloc, &[], branches)?;
            Ok(fit)
        }
    }
}

fn split_fits<'a>(
    alloc: Global,
    outputs: &Outputs<'a>,
    task: &'a RawTask,
) -> Result<bool, AllocError>
    ensures { IfOk result (λ fit.
        fit ≡ split_fits task.now.split (outputs_at outputs.now task.now.name) task.now.branch) }
{
    match task.split {
        Gate::And => Ok(task.branch.is_empty()),
        Gate::Xor | Gate::Or => {
            let fit = branches_fit_at(alloc, outputs, task.name.as_str(), task.branch.as_slice())?;
            Ok(fit)
        }
    }
}

fn check_task<'a>(
    alloc: Global,
    net: &RawNet,
    outputs: &Outputs<'a>,
    task: &'a RawTask,
) -> Result<Option<Broken>, AllocError>
    requires { AreOutputs net.now.flows outputs.now }
    ensures { IfOk result (SplitFits net.now task.now) }
{
    if split_fits(alloc, outputs, task)? {
        return Ok(None);
    }
    let broken = Broken::in_net(alloc, 10, &net.name, &task.name)?;
    Ok(Some(broken))
}

fn check_net(alloc: Global, net: &RawNet) -> Result<Option<Broken>, AllocError>
    ensures { IfOk result (NetSplitsFit net.now) }
{
    let outputs = outputs_of(alloc, net.flows.as_slice())?;
    for task in net.task.as_slice() {
        match check_task(alloc, net, &outputs, task)? {
            Some(broken) => return Ok(Some(broken)),
            None => {}
        }
    }
    Ok(None)
}

/// The first task, net by net in the order of the document, whose branches don't fit its split. An XOR or OR
/// split has branches: each leads to an output of the task, which is the second end of a flow from it, each
/// output is named by exactly one branch, and exactly one branch has no `when`, the default. An AND split has
/// no branch. `None` where each task's branches fit. It is the tenth check; branches in order with a default
/// are after the YAWL User Manual, the check is our own.
///
/// It takes time and memory linear in the specification but for looking names up in ordered maps. The only
/// error is want of memory.
#[tactic(auto, unfolding(yw_accept::specs::Tasks::SplitsFit))]
pub fn splits_fit(alloc: Global, raw: &RawSpec) -> Result<Option<Broken>, AllocError>
    ensures { IfOk result (SplitsFit raw.now) }
{
    for net in raw.net.as_slice() {
        match check_net(alloc, net)? {
            Some(broken) => return Ok(Some(broken)),
            None => {}
        }
    }
    Ok(None)
}
