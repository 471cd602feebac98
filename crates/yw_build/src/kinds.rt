// Nets by their numbers, and who does the items of a task.
ghost use Rattle.std.specs.Prelude.{◌≡◌, ℕ, List, true};
ghost use Rattle.yw_accept.specs.Built.{IsKind, IsNetCalled};
ghost use Rattle.yw_accept.specs.Graph.{may_be_child};
ghost use Rattle.yw_accept.specs.Nodes.{is_net, net_names};
ghost use Rattle.yw_accept.specs.Index.{IsIndexOf};

use yw_accept::{Index, number_of};
use yw_read::{RawKind, RawSpec, RawTask};
use yw_spec::Kind;

/// A specification as its document says it, with its nets by their names.
#[derive(Drop)]
pub struct SpecNumbers<'a> {
    pub said: &'a RawSpec,
    pub nets: Index,
}

/// The number of the net with this name.
pub fn net_called(spec: &SpecNumbers<'_>, name: &str) -> usize
    requires nets { IsIndexOf (net_names spec.now.said.now.net) spec.now.nets }
    requires is { is_net spec.now.said.now name.now ≡ true }
    ensures { IsNetCalled spec.now.said.now name.now result }
{
    match number_of(&spec.nets, name) {
        Some(number) => number,
        None => unreachable!(),
    }
}

/// The number of the net of a task of kind sub.
fn child_of(spec: &SpecNumbers<'_>, task: &RawTask) -> usize
    requires nets { IsIndexOf (net_names spec.now.said.now.net) spec.now.nets }
    requires child { may_be_child spec.now.said.now RawKind.Sub task.now.net ≡ true }
    ensures { (name : List ℕ) × (task.now.net ≡ Some name) × IsNetCalled spec.now.said.now name result }
{
    match &task.net {
        Some(name) => net_called(spec, name.as_str()),
        None => unreachable!(),
    }
}

/// Who does the items of a task.
pub fn kind_of(spec: &SpecNumbers<'_>, task: &RawTask) -> Kind
    requires nets { IsIndexOf (net_names spec.now.said.now.net) spec.now.nets }
    requires child { may_be_child spec.now.said.now task.now.kind task.now.net ≡ true }
    ensures { IsKind spec.now.said.now task.now.kind task.now.net result }
{
    match task.kind {
        RawKind::Atomic => Kind::Atomic,
        RawKind::Empty => Kind::Empty,
        RawKind::Sub => Kind::Sub(child_of(spec, task)),
    }
}
