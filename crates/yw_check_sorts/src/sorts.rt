// The ninth check: each expression has the sort that is wanted. An `Err` says that no memory was left.
ghost use Rattle.std.specs.Prelude.{◌≡◌, ◌↔◌, None, IfOk, IsTrue};
ghost use Rattle.std.specs.List.{All};
ghost use Rattle.yw_accept.specs.Facts.{NetIsNamed, TaskIsNamed};
ghost use Rattle.yw_accept.specs.Names.{NamesFit};
ghost use Rattle.yw_accept.specs.Order.{InOrder};
ghost use Rattle.yw_accept.specs.Scopes.{ExpressionsFit, SortsFit, set_scope, vars_scope};
ghost use Rattle.yw_check_sorts.specs.Fitting.{AssignmentFits, ConditionFits, NetSortsFit, ReadsFit, TaskSortsFit, ValueFits};

use crate::layers::wanted_for;
use crate::spelling::{WantedSort, spells, spells_if_any};
use std::alloc::{AllocError, Global};
use yw_accept::{Broken, outs_layer, vars_layer};
use yw_base::Sort;
use yw_expr::{Bindings, Scope};
use yw_read::{RawBranch, RawIn, RawNet, RawSet, RawSpec, RawTask};

/// What is given to each parameter is an expression of its sort.
fn values_fit(alloc: Global, scope: &Scope<'_>, ins: &[RawIn]) -> Result<bool, AllocError>
    ensures { IfOk result (λ fit. IsTrue fit ↔ All (ValueFits scope.now) ins.now) }
{
    for input in ins {
        if !spells_if_any(alloc, &input.value, scope, WantedSort::Exactly(input.sort))? {
            return Ok(false);
        }
    }
    Ok(true)
}

/// Each condition of a branch is a truth value.
fn conditions_fit(
    alloc: Global,
    scope: &Scope<'_>,
    branches: &[RawBranch],
) -> Result<bool, AllocError>
    ensures { IfOk result (λ fit. IsTrue fit ↔ All (ConditionFits scope.now) branches.now) }
{
    for branch in branches {
        if !spells_if_any(alloc, &branch.when, scope, WantedSort::Exactly(Sort::Bool))? {
            return Ok(false);
        }
    }
    Ok(true)
}

/// What a variable becomes is an expression of its sort.
fn assignment_fits(
    alloc: Global,
    vars: &Bindings,
    scope: &Scope<'_>,
    assignment: &RawSet,
) -> Result<bool, AllocError>
    ensures { IfOk result (λ fit. IsTrue fit ↔ AssignmentFits vars.now scope.now assignment.now) }
{
    let wanted = wanted_for(vars, assignment.var.as_str());
    let fit = spells(alloc, assignment.value.as_str(), scope, wanted)?;
    Ok(fit)
}

/// What each variable becomes is an expression of its sort.
fn assignments_fit(
    alloc: Global,
    vars: &Bindings,
    scope: &Scope<'_>,
    assignments: &[RawSet],
) -> Result<bool, AllocError>
    ensures { IfOk result (λ fit. IsTrue fit ↔ All (AssignmentFits vars.now scope.now) assignments.now) }
{
    for assignment in assignments {
        if !assignment_fits(alloc, vars, scope, assignment)? {
            return Ok(false);
        }
    }
    Ok(true)
}

/// What the variables of a net become at the exit of a task is of their sorts.
fn set_fits(
    alloc: Global,
    net: &RawNet,
    vars: &Bindings,
    task: &RawTask,
) -> Result<bool, AllocError>
    requires named { TaskIsNamed task.now }
    requires vars { vars.now ≡ vars_scope net.now }
    ensures { IfOk result (λ fit. IsTrue fit ↔ All (AssignmentFits (vars_scope net.now) (set_scope net.now task.now)) task.now.set) }
{
    let outs = outs_layer(alloc, task)?;
    let scope = Scope::nested(&outs, vars);
    let fit = assignments_fit(alloc, vars, &scope, task.set.as_slice())?;
    Ok(fit)
}

/// The expressions of a task that speak of the net's variables alone have the sorts that are wanted.
fn reads_fit(alloc: Global, scope: &Scope<'_>, task: &RawTask) -> Result<bool, AllocError>
    ensures { IfOk result (λ fit. IsTrue fit ↔ ReadsFit scope.now task.now) }
{
    if !spells_if_any(alloc, &task.each, scope, WantedSort::AnyList)? {
        return Ok(false);
    }
    if !values_fit(alloc, scope, task.ins.as_slice())? {
        return Ok(false);
    }
    let fit = conditions_fit(alloc, scope, task.branch.as_slice())?;
    Ok(fit)
}

/// The expressions of a task have the sorts that are wanted.
fn expressions_fit(
    alloc: Global,
    net: &RawNet,
    vars: &Bindings,
    task: &RawTask,
) -> Result<bool, AllocError>
    requires named { TaskIsNamed task.now }
    requires vars { vars.now ≡ vars_scope net.now }
    ensures { IfOk result (λ fit. IsTrue fit ↔ ExpressionsFit net.now task.now) }
{
    let scope = Scope::of(vars);
    if !reads_fit(alloc, &scope, task)? {
        return Ok(false);
    }
    let fit = set_fits(alloc, net, vars, task)?;
    Ok(fit)
}

fn check_task(
    alloc: Global,
    net: &RawNet,
    vars: &Bindings,
    task: &RawTask,
) -> Result<Option<Broken>, AllocError>
    requires named { TaskIsNamed task.now }
    requires vars { vars.now ≡ vars_scope net.now }
    ensures { IfOk result (TaskSortsFit net.now task.now) }
{
    if expressions_fit(alloc, net, vars, task)? {
        return Ok(None);
    }
    let broken = Broken::in_net(alloc, 9, &net.name, &task.name)?;
    Ok(Some(broken))
}

fn check_net(alloc: Global, net: &RawNet) -> Result<Option<Broken>, AllocError>
    requires { NetIsNamed net.now }
    ensures { IfOk result (NetSortsFit net.now) }
{
    let vars = vars_layer(alloc, net)?;
    for task in net.task.as_slice() {
        match check_task(alloc, net, &vars, task)? {
            Some(broken) => return Ok(Some(broken)),
            None => {}
        }
    }
    Ok(None)
}

fn check_nets(alloc: Global, nets: &[RawNet]) -> Result<Option<Broken>, AllocError>
    requires { All NetIsNamed nets.now }
    ensures { IfOk result (InOrder NetSortsFit nets.now) }
{
    for net in nets {
        match check_net(alloc, net)? {
            Some(broken) => return Ok(Some(broken)),
            None => {}
        }
    }
    Ok(None)
}

/// The first task, net by net in the order of the document, with an expression that doesn't parse in its scope
/// or hasn't the sort that is wanted. `None` exactly where each expression of each task fits:
///
/// - `each` is a list, of numbers or of texts; the `value` of one of the `ins` has the sort of the parameter;
///   the `when` of a branch is a truth value. They speak of the net's variables.
/// - The `value` of an assignment of `set` has the sort of the variable that it is for, and any where the net
///   has no such variable, which another check refuses. It speaks of the task's `outs` first, and then of the
///   net's variables whose names aren't among them. Where the task has `each`, an out of sort int or text
///   stands for the list of what the items made.
///
/// The first check has to have found nothing: of names that are distinct a scope holds each. The only error is
/// want of memory. The check is our own. It takes time n log n for a specification of n bytes.
#[tactic(auto, unfolding(yw_accept::specs::Scopes::SortsFit))]
pub fn sorts_fit(alloc: Global, raw: &RawSpec) -> Result<Option<Broken>, AllocError>
    requires names { NamesFit raw.now None }
    ensures { IfOk result (SortsFit raw.now) }
{
    let found = check_nets(alloc, raw.net.as_slice())?;
    Ok(found)
}
