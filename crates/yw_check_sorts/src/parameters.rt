// The eleventh check: parameters, variables and assignments agree. An `Err` says that no memory was left.
ghost use Rattle.std.specs.Prelude.{◌≡◌, ◌↔◌, ◌&&◌, ◌==◌, None, IfOk, IsTrue, is_none, length, map};
ghost use Rattle.std.specs.List.{All, list_all};
ghost use Rattle.yw_accept.specs.Facts.{AreDistinct, IsNamed, NetIsNamed, TaskIsNamed};
ghost use Rattle.yw_accept.specs.Index.{IsIndexOf};
ghost use Rattle.yw_accept.specs.Names.{NamesFit};
ghost use Rattle.yw_accept.specs.Nodes.{net_names};
ghost use Rattle.yw_accept.specs.Order.{InOrder};
ghost use Rattle.yw_accept.specs.Scopes.{ParametersAgree, ParametersFit, agrees, hands_over, is_given, is_item, is_single, names_var, outs_fit, parameters_fit, vars_scope};
ghost use Rattle.yw_check_sorts.specs.Agreeing.{ItemFitsOver, NetParametersAgree, TaskParametersAgree};
ghost use Rattle.yw_read.specs.declared.raw.RawOut.{RawOut};
ghost use Rattle.yw_read.specs.declared.raw.RawVar.{RawVar};

use crate::children::{fits_net, is_same_sort};
use crate::named::find_named;
use crate::spelling::{WantedSort, spells_if_any};
use std::alloc::{AllocError, Global};
use yw_accept::{Broken, Index, has, index_of, vars_layer};
use yw_base::Sort;
use yw_expr::{Bindings, Scope};
use yw_read::{RawIn, RawKind, RawNet, RawOut, RawSet, RawSpec, RawTask};

// ---- a task by itself

/// The parameter is given an element of `each`.
fn is_item(task: &RawTask, input: &RawIn) -> bool
    ensures { result ≡ is_item task.now input.now }
{
    match &task.item {
        Some(item) => input.name.as_str() == item.as_str(),
        None => false,
    }
}

/// The parameter has a value, or is given an element of `each` and has none.
fn is_given(task: &RawTask, input: &RawIn) -> bool
    ensures { result ≡ is_given task.now input.now }
{
    if is_item(task, input) {
        input.value.is_none()
    } else {
        input.value.is_some()
    }
}

fn are_given(task: &RawTask, ins: &[RawIn]) -> bool
    ensures { result ≡ list_all (is_given task.now) ins.now }
{
    ins.iter().all(|input| is_given(task, input))
}

/// Where work makes a parameter of the same name, it has the same sort.
fn agrees(outs: &[RawOut], index: &Index, input: &RawIn) -> bool
    requires index { IsIndexOf (map (λ (q : RawOut). q.name) outs.now) index.now }
    requires distinct { AreDistinct (map (λ (q : RawOut). q.name) outs.now) }
    ensures { result ≡ agrees outs.now input.now }
{
    match find_named(index, outs, input.name.as_str()) {
        Some(out) => is_same_sort(input.sort, out.sort),
        None => true,
    }
}

fn all_agree(outs: &[RawOut], index: &Index, ins: &[RawIn]) -> bool
    requires index { IsIndexOf (map (λ (q : RawOut). q.name) outs.now) index.now }
    requires distinct { AreDistinct (map (λ (q : RawOut). q.name) outs.now) }
    ensures { result ≡ list_all (agrees outs.now) ins.now }
{
    ins.iter().all(|input| agrees(outs, index, input))
}

/// A list of values of this sort has a sort.
fn is_single(sort: Sort) -> bool
    ensures { result ≡ is_single sort }
{
    match sort {
        Sort::Int | Sort::Text => true,
        Sort::Bool | Sort::Ints | Sort::Texts => false,
    }
}

fn are_single(outs: &[RawOut]) -> bool
    ensures { result ≡ list_all (λ (q : RawOut). is_single q.sort) outs.now }
{
    outs.iter().all(|out| is_single(out.sort))
}

/// What several items make can be gathered in lists.
fn outs_fit(task: &RawTask) -> bool
    ensures { result ≡ outs_fit task.now }
{
    match &task.each {
        Some(_) => are_single(task.outs.as_slice()),
        None => true,
    }
}

/// What is given and made fits by itself, where `outs` is the index of what is made.
fn fits_itself(task: &RawTask, outs: &Index) -> bool
    requires named { TaskIsNamed task.now }
    requires outs { IsIndexOf (map (λ (q : RawOut). q.name) task.now.outs) outs.now }
    ensures { result ≡ (list_all (is_given task.now) task.now.ins && list_all (agrees task.now.outs) task.now.ins && outs_fit task.now) }
{
    are_given(task, task.ins.as_slice())
        && all_agree(task.outs.as_slice(), outs, task.ins.as_slice())
        && outs_fit(task)
}

// ---- a task and the nets around it

/// The task is of no one, is given nothing and makes nothing.
fn hands_nothing(task: &RawTask) -> bool
    ensures { result ≡ (is_none task.now.role && length task.now.ins == 0 && length task.now.outs == 0) }
{
    task.role.is_none() && task.ins.len() == 0 && task.outs.len() == 0
}

/// What the task hands over and makes fits its kind.
fn hands_over(
    alloc: Global,
    raw: &RawSpec,
    nets: &Index,
    task: &RawTask,
) -> Result<bool, AllocError>
    requires task { TaskIsNamed task.now }
    requires raw { IsNamed raw.now }
    requires nets { IsIndexOf (net_names raw.now.net) nets.now }
    ensures { IfOk result (λ fit. fit ≡ hands_over raw.now task.now task.now.kind) }
{
    match task.kind {
        RawKind::Atomic => Ok(true),
        RawKind::Empty => Ok(hands_nothing(task)),
        RawKind::Sub => {
            let fit = fits_net(alloc, raw, nets, task)?;
            Ok(fit)
        }
    }
}

/// An assignment is for a variable of the net.
fn names_var(net: &RawNet, vars: &Index, assignment: &RawSet) -> bool
    requires { IsIndexOf (map (λ (v : RawVar). v.name) net.now.vars) vars.now }
    ensures { result ≡ names_var net.now assignment.now }
{
    has(vars, assignment.var.as_str())
}

fn name_vars(net: &RawNet, vars: &Index, assignments: &[RawSet]) -> bool
    requires { IsIndexOf (map (λ (v : RawVar). v.name) net.now.vars) vars.now }
    ensures { result ≡ list_all (names_var net.now) assignments.now }
{
    assignments
        .iter()
        .all(|assignment| names_var(net, vars, assignment))
}

/// What is given, made and assigned fits.
fn parameters_fit(
    alloc: Global,
    raw: &RawSpec,
    nets: &Index,
    net: &RawNet,
    vars: &Index,
    task: &RawTask,
) -> Result<bool, AllocError>
    requires task { TaskIsNamed task.now }
    requires raw { IsNamed raw.now }
    requires nets { IsIndexOf (net_names raw.now.net) nets.now }
    requires vars { IsIndexOf (map (λ (v : RawVar). v.name) net.now.vars) vars.now }
    ensures { IfOk result (λ fit. fit ≡ parameters_fit raw.now net.now task.now) }
{
    let outs = index_of(alloc, task.outs.as_slice())?;
    if !fits_itself(task, &outs) {
        return Ok(false);
    }
    if !hands_over(alloc, raw, nets, task)? {
        return Ok(false);
    }
    Ok(name_vars(net, vars, task.set.as_slice()))
}

// ---- what is given the elements of `each`

/// The parameter has the sort of the elements of `each`, if it is given one.
fn item_fits(
    alloc: Global,
    scope: &Scope<'_>,
    task: &RawTask,
    input: &RawIn,
) -> Result<bool, AllocError>
    ensures { IfOk result (λ fit. IsTrue fit ↔ ItemFitsOver scope.now task.now input.now) }
{
    if !is_item(task, input) {
        return Ok(true);
    }
    let fit = spells_if_any(alloc, &task.each, scope, WantedSort::ListOf(input.sort))?;
    Ok(fit)
}

fn items_fit(
    alloc: Global,
    scope: &Scope<'_>,
    task: &RawTask,
    ins: &[RawIn],
) -> Result<bool, AllocError>
    ensures { IfOk result (λ fit. IsTrue fit ↔ All (ItemFitsOver scope.now task.now) ins.now) }
{
    for input in ins {
        if !item_fits(alloc, scope, task, input)? {
            return Ok(false);
        }
    }
    Ok(true)
}

// ---- the check

/// The parameters and assignments of a task fit. The variables of the net are given by their index and as a
/// layer.
fn task_fits(
    alloc: Global,
    raw: &RawSpec,
    nets: &Index,
    net: &RawNet,
    vars: &Index,
    layer: &Bindings,
    task: &RawTask,
) -> Result<bool, AllocError>
    requires task { TaskIsNamed task.now }
    requires raw { IsNamed raw.now }
    requires nets { IsIndexOf (net_names raw.now.net) nets.now }
    requires vars { IsIndexOf (map (λ (v : RawVar). v.name) net.now.vars) vars.now }
    requires layer { layer.now ≡ vars_scope net.now }
    ensures { IfOk result (λ fit. IsTrue fit ↔ ParametersFit raw.now net.now task.now) }
{
    if !parameters_fit(alloc, raw, nets, net, vars, task)? {
        return Ok(false);
    }
    let fit = items_fit(alloc, &Scope::of(layer), task, task.ins.as_slice())?;
    Ok(fit)
}

fn check_task(
    alloc: Global,
    raw: &RawSpec,
    nets: &Index,
    net: &RawNet,
    vars: &Index,
    layer: &Bindings,
    task: &RawTask,
) -> Result<Option<Broken>, AllocError>
    requires task { TaskIsNamed task.now }
    requires raw { IsNamed raw.now }
    requires nets { IsIndexOf (net_names raw.now.net) nets.now }
    requires vars { IsIndexOf (map (λ (v : RawVar). v.name) net.now.vars) vars.now }
    requires layer { layer.now ≡ vars_scope net.now }
    ensures { IfOk result (TaskParametersAgree raw.now net.now task.now) }
{
    if task_fits(alloc, raw, nets, net, vars, layer, task)? {
        return Ok(None);
    }
    let broken = Broken::in_net(alloc, 11, &net.name, &task.name)?;
    Ok(Some(broken))
}

fn check_net(
    alloc: Global,
    raw: &RawSpec,
    nets: &Index,
    net: &RawNet,
) -> Result<Option<Broken>, AllocError>
    requires net { NetIsNamed net.now }
    requires raw { IsNamed raw.now }
    requires nets { IsIndexOf (net_names raw.now.net) nets.now }
    ensures { IfOk result (NetParametersAgree raw.now net.now) }
{
    let vars = index_of(alloc, net.vars.as_slice())?;
    let layer = vars_layer(alloc, net)?;
    for task in net.task.as_slice() {
        match check_task(alloc, raw, nets, net, &vars, &layer, task)? {
            Some(broken) => return Ok(Some(broken)),
            None => {}
        }
    }
    Ok(None)
}

fn check_nets(alloc: Global, raw: &RawSpec) -> Result<Option<Broken>, AllocError>
    requires { IsNamed raw.now }
    ensures { IfOk result (InOrder (NetParametersAgree raw.now) raw.now.net) }
{
    let nets = index_of(alloc, raw.net.as_slice())?;
    for net in raw.net.as_slice() {
        match check_net(alloc, raw, &nets, net)? {
            Some(broken) => return Ok(Some(broken)),
            None => {}
        }
    }
    Ok(None)
}

/// The first task, net by net in the order of the document, whose parameters or assignments don't agree with
/// what is around them. `None` exactly where each task's do:
///
/// - Of its `ins` each has a `value` but for the one that `item` names, which has none and is of the sort of the
///   elements of `each`. A name in `ins` and in `outs` has one sort in both.
/// - With `each` its `outs` are of sort int or text, of which there are lists.
/// - An empty task has no role, no `ins` and no `outs`.
/// - A composite task's `ins` are exactly the variables that its net takes, those used `in` or `inout`, and its
///   `outs` are among those that the net gives, used `out` or `inout`, all with the variables' sorts.
/// - Its `set` is for variables of the task's own net.
///
/// The first check has to have found nothing: among distinct names one is found by its name. The only error is
/// want of memory. The check is our own. It takes time n log n for a specification of n bytes in which no two
/// tasks stand for one net, as an earlier check demands.
#[tactic(auto, unfolding(yw_accept::specs::Scopes::ParametersAgree))]
pub fn parameters_agree(alloc: Global, raw: &RawSpec) -> Result<Option<Broken>, AllocError>
    requires names { NamesFit raw.now None }
    ensures { IfOk result (ParametersAgree raw.now) }
{
    let found = check_nets(alloc, raw)?;
    Ok(found)
}
