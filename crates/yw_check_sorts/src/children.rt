// What a composite task hands over to the net that it stands for, and what that net gives back. An `Err` says that
// no memory was left.
ghost use Rattle.std.specs.Prelude.{◌≡◌, ◌||◌, ◌&&◌, false, not, IfOk, map};
ghost use Rattle.std.specs.List.{list_all, list_any};
ghost use Rattle.std.specs.Option.{option_and_then, option_map_or};
ghost use Rattle.yw_accept.specs.Facts.{AreDistinct, IsNamed, NetIsNamed, TaskIsNamed};
ghost use Rattle.yw_accept.specs.Index.{IsIndexOf};
ghost use Rattle.yw_accept.specs.Nodes.{net_names};
ghost use Rattle.yw_base.specs.Usages.{comes_in, goes_out};
ghost use Rattle.yw_accept.specs.Scopes.{fits_child, is_in_var, is_out_var, is_same_sort, net_named};
ghost use Rattle.yw_read.specs.declared.raw.RawIn.{RawIn};
ghost use Rattle.yw_read.specs.declared.raw.RawOut.{RawOut};
ghost use Rattle.yw_read.specs.declared.raw.RawVar.{RawVar};

use crate::named::find_named;
use std::alloc::{AllocError, Global};
use yw_accept::{Index, index_of};
use yw_base::Sort;
use yw_read::{RawIn, RawNet, RawOut, RawSpec, RawTask, RawVar};

/// The two sorts are the same.
pub fn is_same_sort(one: Sort, two: Sort) -> bool
    ensures { result ≡ is_same_sort one two }
{
    match (one, two) {
        (Sort::Bool, Sort::Bool)
        | (Sort::Int, Sort::Int)
        | (Sort::Text, Sort::Text)
        | (Sort::Ints, Sort::Ints)
        | (Sort::Texts, Sort::Texts) => true,
        _ => false,
    }
}

/// The net takes the first value of the variable, of this sort.
fn takes_sort(var: &RawVar, sort: Sort) -> bool
    ensures { result ≡ (comes_in var.now.usage && is_same_sort sort var.now.sort) }
{
    var.usage.comes_in() && is_same_sort(sort, var.sort)
}

/// The net gives the last value of the variable, of this sort.
fn gives_sort(var: &RawVar, sort: Sort) -> bool
    ensures { result ≡ (goes_out var.now.usage && is_same_sort sort var.now.sort) }
{
    var.usage.goes_out() && is_same_sort(sort, var.sort)
}

/// The net takes what is given to the parameter.
fn is_taken(vars: &[RawVar], index: &Index, input: &RawIn) -> bool
    requires index { IsIndexOf (map (λ (v : RawVar). v.name) vars.now) index.now }
    requires distinct { AreDistinct (map (λ (v : RawVar). v.name) vars.now) }
    ensures { result ≡ list_any (is_in_var input.now) vars.now }
{
    match find_named(index, vars, input.name.as_str()) {
        Some(var) => takes_sort(var, input.sort),
        None => false,
    }
}

/// The net takes what is given to each parameter.
fn are_taken(vars: &[RawVar], index: &Index, ins: &[RawIn]) -> bool
    requires index { IsIndexOf (map (λ (v : RawVar). v.name) vars.now) index.now }
    requires distinct { AreDistinct (map (λ (v : RawVar). v.name) vars.now) }
    ensures { result ≡ list_all (λ (p : RawIn). list_any (is_in_var p) vars.now) ins.now }
{
    ins.iter().all(|input| is_taken(vars, index, input))
}

/// A parameter gives the variable its first value, where the net takes one.
fn is_handed(ins: &[RawIn], index: &Index, var: &RawVar) -> bool
    requires index { IsIndexOf (map (λ (p : RawIn). p.name) ins.now) index.now }
    requires distinct { AreDistinct (map (λ (p : RawIn). p.name) ins.now) }
    ensures { result ≡ (not (comes_in var.now.usage) || list_any (λ (p : RawIn). is_in_var p var.now) ins.now) }
{
    if !var.usage.comes_in() {
        return true;
    }
    match find_named(index, ins, var.name.as_str()) {
        Some(input) => is_same_sort(input.sort, var.sort),
        None => false,
    }
}

/// A parameter gives each variable its first value, where the net takes one.
fn are_handed(ins: &[RawIn], index: &Index, vars: &[RawVar]) -> bool
    requires index { IsIndexOf (map (λ (p : RawIn). p.name) ins.now) index.now }
    requires distinct { AreDistinct (map (λ (p : RawIn). p.name) ins.now) }
    ensures { result ≡ list_all (λ (v : RawVar). not (comes_in v.usage) || list_any (λ (p : RawIn). is_in_var p v) ins.now) vars.now }
{
    vars.iter().all(|var| is_handed(ins, index, var))
}

/// The net gives what the parameter is made of.
fn is_given_back(vars: &[RawVar], index: &Index, out: &RawOut) -> bool
    requires index { IsIndexOf (map (λ (v : RawVar). v.name) vars.now) index.now }
    requires distinct { AreDistinct (map (λ (v : RawVar). v.name) vars.now) }
    ensures { result ≡ list_any (is_out_var out.now) vars.now }
{
    match find_named(index, vars, out.name.as_str()) {
        Some(var) => gives_sort(var, out.sort),
        None => false,
    }
}

/// The net gives what each parameter is made of.
fn are_given_back(vars: &[RawVar], index: &Index, outs: &[RawOut]) -> bool
    requires index { IsIndexOf (map (λ (v : RawVar). v.name) vars.now) index.now }
    requires distinct { AreDistinct (map (λ (v : RawVar). v.name) vars.now) }
    ensures { result ≡ list_all (λ (q : RawOut). list_any (is_out_var q) vars.now) outs.now }
{
    outs.iter().all(|out| is_given_back(vars, index, out))
}

/// The task hands over exactly what the net takes, and makes of what the net gives, where both have an index.
fn fits_indexed(task: &RawTask, ins: &Index, child: &RawNet, vars: &Index) -> bool
    requires ins { IsIndexOf (map (λ (p : RawIn). p.name) task.now.ins) ins.now }
    requires vars { IsIndexOf (map (λ (v : RawVar). v.name) child.now.vars) vars.now }
    requires task { TaskIsNamed task.now }
    requires child { NetIsNamed child.now }
    ensures { result ≡ fits_child task.now child.now }
{
    are_taken(child.vars.as_slice(), vars, task.ins.as_slice())
        && are_handed(task.ins.as_slice(), ins, child.vars.as_slice())
        && are_given_back(child.vars.as_slice(), vars, task.outs.as_slice())
}

/// The task hands over exactly what the net takes, and makes of what the net gives.
fn fits_child(alloc: Global, task: &RawTask, child: &RawNet) -> Result<bool, AllocError>
    requires task { TaskIsNamed task.now }
    requires child { NetIsNamed child.now }
    ensures { IfOk result (λ fit. fit ≡ fits_child task.now child.now) }
{
    let vars = index_of(alloc, child.vars.as_slice())?;
    let ins = index_of(alloc, task.ins.as_slice())?;
    Ok(fits_indexed(task, &ins, child, &vars))
}

/// The net of this name is there, and the task fits it.
fn fits_net_named(
    alloc: Global,
    raw: &RawSpec,
    nets: &Index,
    task: &RawTask,
    name: &str,
) -> Result<bool, AllocError>
    requires task { TaskIsNamed task.now }
    requires raw { IsNamed raw.now }
    requires nets { IsIndexOf (net_names raw.now.net) nets.now }
    ensures { IfOk result (λ fit. fit ≡ option_map_or (fits_child task.now) (net_named raw.now name.now) false) }
{
    match find_named(nets, raw.net.as_slice(), name) {
        Some(child) => {
            let fit = fits_child(alloc, task, child)?;
            Ok(fit)
        }
        None => Ok(false),
    }
}

/// The task stands for a net, and fits it.
pub fn fits_net(
    alloc: Global,
    raw: &RawSpec,
    nets: &Index,
    task: &RawTask,
) -> Result<bool, AllocError>
    requires task { TaskIsNamed task.now }
    requires raw { IsNamed raw.now }
    requires nets { IsIndexOf (net_names raw.now.net) nets.now }
    ensures { IfOk result (λ fit. fit ≡ option_map_or (fits_child task.now) (option_and_then (net_named raw.now) task.now.net) false) }
{
    match &task.net {
        Some(name) => {
            let fit = fits_net_named(alloc, raw, nets, task, name.as_str())?;
            Ok(fit)
        }
        None => Ok(false),
    }
}
