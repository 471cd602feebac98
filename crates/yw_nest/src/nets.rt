// What nets are as they begin, and where they are found.
ghost use Rattle.std.specs.Prelude.{◌≡◌, ◌<◌, IfOk, IsSome, Some, false, length, slice_get};
ghost use Rattle.yw_nest.specs.Cases.{first_tokens};
ghost use Rattle.yw_state.specs.Identity.{is_case_ident};
ghost use Rattle.yw_base.specs.Identity.{parent};
ghost use Rattle.yw_state.specs.Nets.{child_net};
ghost use Rattle.yw_tree.specs.Begins.{BeginsNet};
ghost use Rattle.yw_tree.specs.Forest.{item_of};
ghost use Rattle.yw_tree.specs.Places.{net_at};

use std::alloc::{AllocError, Global};
use yw_base::{Ident, Items, Row};
use yw_spec::{Kind, Net, Spec, Task};
use yw_state::Marks;
use yw_tree::{Forest, NetState, Node};

/// The net of a specification with this number.
pub fn net_numbered(spec: &Spec, k: usize) -> &Net
    requires { k < length spec.now.nets }
    ensures { slice_get spec.now.nets k ≡ Some result.now }
{
    &spec.nets.as_slice()[k]
}

/// The task of a net with this number.
pub fn task_at(net: &Net, t: usize) -> &Task
    requires { t < length net.now.tasks }
    ensures { slice_get net.now.tasks t ≡ Some result.now }
{
    &net.tasks.as_slice()[t]
}

/// The number of a composite task's child net.
pub fn child_net(task: &Task) -> usize
    requires { IsSome (child_net task.now) }
    ensures { child_net task.now ≡ Some result }
{
    match task.kind {
        Kind::Sub(k) => k,
        Kind::Atomic | Kind::Empty => unreachable!(),
    }
}

/// The net that stands at an identity.
pub fn net_there<'a>(forest: &'a Forest, at: &Ident) -> &'a NetState
    requires { IsSome (net_at forest.now at.now) }
    ensures { net_at forest.now at.now ≡ Some result.now }
{
    match forest.net(at) {
        Some(net) => net,
        None => unreachable!(),
    }
}

/// The item that stands at an identity.
pub fn item_there<'a>(forest: &'a Forest, j: &Ident) -> &'a Node
    requires { IsSome (item_of forest.now j.now) }
    ensures { item_of forest.now j.now ≡ Some result.now }
{
    match forest.item(j) {
        Some(item) => item,
        None => unreachable!(),
    }
}

/// The identity of the net in which an item stands.
pub fn parent(alloc: Global, j: &Ident) -> Result<Ident, AllocError>
    requires { is_case_ident j.now ≡ false }
    ensures { IfOk result (λ i. i ≡ parent j.now) }
{
    let numbers = j.numbers();
    let outer = Vec::from_slice(alloc, &numbers[..numbers.len() - 1])?;
    match Ident::from_numbers(outer) {
        Some(ident) => Ok(ident),
        None => unreachable!(),
    }
}

/// One token, on the input.
fn first_tokens(alloc: Global, net: &Net) -> Result<Marks, AllocError>
    requires { net.now.input < length net.now.places }
    ensures { IfOk result (λ marks. marks ≡ first_tokens net.now) }
{
    let mut marks = Items::from_vec(vec![in alloc; 0; net.places.len()]?);
    marks.set(net.input, 1);
    Ok(marks)
}

/// A net as it begins, which is of a specification, each by its number: with these values, one token on its input, and no item.
pub fn new_net(
    alloc: Global,
    spec: usize,
    number: usize,
    net: &Net,
    vals: Row,
) -> Result<NetState, AllocError>
    requires { net.now.input < length net.now.places }
    ensures { IfOk result (BeginsNet spec number (first_tokens net.now) vals (length net.now.tasks)) }
{
    let marks = first_tokens(alloc, net)?;
    NetState::empty(alloc, spec, number, marks, vals, net.tasks.len())
}
