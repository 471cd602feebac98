// An item is started.
ghost use Rattle.std.specs.Prelude.{IsSome};
ghost use Rattle.yw_steps.specs.Starts.{Starts};
ghost use Rattle.yw_tree.specs.Forest.{IsForest, item_of};

use yw_base::{Ident, Name};
use yw_tree::Forest;

/// A person begins the item that stands at an identity: it is executing by the person from now on. Nothing is tested: that it is ready, and no
/// exlet at work on it, the caller has found. It takes no memory. That persons start items is the paper's.
pub fn begin(forest: &mut Forest, j: &Ident, who: Name)
    requires boxed { IsForest forest.old }
    requires stands { IsSome (item_of forest.old j.now) }
    ensures { Starts j.now who forest.old forest.new }
{
    match forest.item_mut(j) {
        Some(node) => yw_task::begin(node, who),
        None => unreachable!(),
    }
}
