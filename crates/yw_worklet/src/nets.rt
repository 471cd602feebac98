// Nets as they begin, and where they are found.
ghost use Rattle.std.specs.Prelude.{◌≡◌, ◌<◌, IfOk, IsSome, Some, length, slice_get};
ghost use Rattle.yw_nest.specs.Cases.{first_tokens};
ghost use Rattle.yw_tree.specs.Forest.{item_of};
ghost use Rattle.yw_tree.specs.Places.{net_at};
ghost use Rattle.yw_within.specs.Within.{IsWithin};
ghost use Rattle.yw_worklet.specs.Begins.{BeginsTop};
ghost use Rattle.yw_worklet.specs.Named.{named};

use crate::names::{Source, first_values};
use std::alloc::{AllocError, Global};
use yw_base::{Ident, Items};
use yw_spec::{Net, Spec};
use yw_state::Marks;
use yw_tree::{Forest, NetState, Node};

/// The net of a specification with this number.
pub fn net_numbered(spec: &Spec, k: usize) -> &Net
    requires { k < length spec.now.nets }
    ensures { slice_get spec.now.nets k ≡ Some result.now }
{
    &spec.nets.as_slice()[k]
}

/// One token, on the input.
fn first_tokens(alloc: Global, net: &Net) -> Result<Marks, AllocError>
    requires { net.now.input < length net.now.places }
    ensures { IfOk result (λ marks. marks ≡ first_tokens net.now) }
{
    let mut marks = Items::from_vec(vec![in alloc; 0; net.places.len()]?);
    marks.set(net.input, 1);
    Ok(marks)
}

/// The top net of a specification, whose number is `number`, as it begins: one token on its input, and no item. A variable into which a value
/// comes has what the source has under its name, if that is of its sort, and each other variable its own first value. An `Err` says that no
/// memory was left.
pub fn begin_top(
    alloc: Global,
    spec: &Spec,
    number: usize,
    source: &Source<'_>,
) -> Result<NetState, AllocError>
    requires { IsWithin spec.now }
    ensures { IfOk result (BeginsTop spec.now number (named source.now)) }
{
    let top = net_numbered(spec, spec.top);
    let vals = first_values(alloc, &top.vars, source)?;
    let marks = first_tokens(alloc, top)?;
    NetState::empty(alloc, number, spec.top, marks, vals, top.tasks.len())
}

/// The item that stands at an identity.
pub fn item_there<'a>(forest: &'a Forest, j: &Ident) -> &'a Node
    requires { IsSome (item_of forest.now j.now) }
    ensures { item_of forest.now j.now ≡ Some result.now }
{
    match forest.item(j) {
        Some(item) => item,
        None => unreachable!(),
    }
}

/// The net that stands at an identity.
pub fn net_there<'a>(forest: &'a Forest, at: &Ident) -> &'a NetState
    requires { IsSome (net_at forest.now at.now) }
    ensures { net_at forest.now at.now ≡ Some result.now }
{
    match forest.net(at) {
        Some(net) => net,
        None => unreachable!(),
    }
}
