// An item is added to a task.
ghost use Rattle.std.specs.Prelude.{◌≤◌, OnOk};
ghost use Rattle.yw_steps.specs.Adds.{AddsElement, MayComeMoreAt};
ghost use Rattle.yw_steps.specs.Stands.{ComeBefore, TaskMayGrow};
ghost use Rattle.yw_tree.specs.Forest.{IsForest};

use std::alloc::{AllocError, Global};
use yw_base::{Ident, Value};
use yw_spec::Net;
use yw_state::Checks;
use yw_task::come_more;
use yw_tree::Forest;

/// An item more comes of a task, by the task's number in the net at an identity, which is this one: it is ready and numbered `n`, is given this
/// element, and these checks are due at it. Each parameter of the task has a value for the element, its items have numbers below `n`, and `n` is
/// below 2^48. Nothing is tested. An `Err` says that no memory was left, and then the forest isn't used again. To add an item is the paper's.
pub fn come_more_at(
    alloc: Global,
    forest: &mut Forest,
    net: &Net,
    at: &Ident,
    t: usize,
    element: &Value,
    n: u64,
    due: Checks,
) -> Result<(), AllocError>
    requires boxed { IsForest forest.old }
    requires may { TaskMayGrow forest.old net.now at.now t }
    requires come { MayComeMoreAt forest.old net.now at.now t element.now n }
    requires before { ComeBefore forest.old at.now t n }
    requires some { 1 ≤ n }
    ensures { OnOk result (AddsElement net.now at.now t element.now n due forest.old forest.new) }
{
    match forest.net_mut(at) {
        Some(state) => come_more(alloc, net, state, at, t, element, n, due),
        None => unreachable!(),
    }
}
