// The items of a task that runs over a list.
ghost use Rattle.std.specs.Prelude.{◌≡◌, ℕ, List, pos, int_le, map, true, Some, All, IfOk, option_to_list, slice_get};
ghost use Rattle.std.specs.Option.{option_map};
ghost use Rattle.yw_accept.specs.Built.{AreItems, IsInCalled, MayBeItems};
ghost use Rattle.yw_accept.specs.Nodes.{is_name_among};
ghost use Rattle.yw_accept.specs.Scopes.{vars_scope};
ghost use Rattle.yw_accept.specs.Tasks.{bounds_fit, enough, greatest, item_fits, items_fit, least};
ghost use Rattle.yw_build.specs.Expressions.{HasMeaning};
ghost use Rattle.yw_build.specs.Numbers.{AreNumbers};

use crate::expressions::expr_of;
use crate::numbers::NetNumbers;
use std::alloc::{AllocError, Global};
use yw_base::Text;
use yw_expr::Scope;
use yw_read::{RawIn, RawTask};
use yw_spec::Many;

/// A number of items.
fn count_of(said: i64) -> u32
    requires low { int_le (pos 1) said ≡ true }
    requires high { int_le said (pos 1000) ≡ true }
    ensures { pos result ≡ said }
{
    said as u32
}

/// The least number of items, where 1 stands for a missing one.
fn least_of(task: &RawTask) -> u32
    requires { bounds_fit task.now ≡ true }
    ensures { pos result ≡ least task.now }
{
    count_of(task.min.unwrap_or(1))
}

/// The greatest number of items, where 1,000 stands for a missing one.
fn greatest_of(task: &RawTask) -> u32
    requires { bounds_fit task.now ≡ true }
    ensures { pos result ≡ greatest task.now }
{
    count_of(task.max.unwrap_or(1000))
}

/// How many items are enough, where 1,000 stands for a missing number.
fn enough_of(task: &RawTask) -> u32
    requires { bounds_fit task.now ≡ true }
    ensures { pos result ≡ enough task.now }
{
    count_of(task.threshold.unwrap_or(1000))
}

/// The number of the parameter with this name.
fn number_in(ins: &[RawIn], name: &str) -> usize
    requires { is_name_among (map (λ p. p.name) ins.now) name.now ≡ true }
    ensures { option_map (λ p. p.name) (slice_get ins.now result) ≡ Some name.now }
{
    for (number, parameter) in ins.iter().enumerate() {
        if parameter.name.as_str() == name {
            return number;
        }
    }
    unreachable!()
}

/// The number of the parameter that is given an element of the list.
fn item_of(task: &RawTask) -> usize
    requires { item_fits task.now ≡ true }
    ensures { (name : List ℕ) × (task.now.item ≡ Some name) × IsInCalled task.now name result }
{
    match &task.item {
        Some(name) => number_in(task.ins.as_slice(), name.as_str()),
        None => unreachable!(),
    }
}

fn items_of(
    alloc: Global,
    numbers: &NetNumbers<'_>,
    task: &RawTask,
    each: &Text,
) -> Result<Many, AllocError>
    requires numbers { AreNumbers numbers.now }
    requires bounds { bounds_fit task.now ≡ true }
    requires item { item_fits task.now ≡ true }
    requires each { HasMeaning (vars_scope numbers.now.said.now) each.now }
    ensures { IfOk result (AreItems numbers.now.said.now task.now each.now) }
{
    let each = expr_of(alloc, each, &Scope::of(&numbers.vars))?;
    Ok(Many {
        min: least_of(task),
        max: greatest_of(task),
        threshold: enough_of(task),
        dynamic: task.dynamic.unwrap_or(false),
        each,
        item: item_of(task),
    })
}

/// The items of a task, where it runs over a list.
pub fn many_of(
    alloc: Global,
    numbers: &NetNumbers<'_>,
    task: &RawTask,
) -> Result<Option<Many>, AllocError>
    requires numbers { AreNumbers numbers.now }
    requires fits { items_fit task.now ≡ true }
    requires each { All (HasMeaning (vars_scope numbers.now.said.now)) (option_to_list task.now.each) }
    ensures { IfOk result (MayBeItems numbers.now.said.now task.now task.now.each) }
{
    match &task.each {
        Some(each) => Ok(Some(items_of(alloc, numbers, task, each)?)),
        None => Ok(None),
    }
}
