// Cases and items are suspended and continued, and pass their checks.
ghost use Rattle.yw_exlet.specs.Changes.{Continues, Passes, Suspends};
ghost use Rattle.yw_tree.specs.Coming.{TargetStands};
ghost use Rattle.yw_tree.specs.Forest.{IsForest};

use crate::own::{Own, write};
use yw_base::Ident;
use yw_state::TreeKind;
use yw_tree::Forest;

/// The case or item at an identity is suspended: work in it is held from now on, but for what a compensation under it does. It takes no
/// memory. Suspension by exlets is the thesis's; the command and what it holds are our own.
pub fn suspend(forest: &mut Forest, j: &Ident)
    requires boxed { IsForest forest.old }
    requires stands { TargetStands forest.old j.now }
    ensures { Suspends j.now forest.old forest.new }
{
    write(forest, j, Own::Suspended(true));
}

/// The case or item at an identity is suspended no longer. It takes no memory.
pub fn resume(forest: &mut Forest, j: &Ident)
    requires boxed { IsForest forest.old }
    requires stands { TargetStands forest.old j.now }
    ensures { Continues j.now forest.old forest.new }
{
    write(forest, j, Own::Suspended(false));
}

/// The check of this kind concludes nothing at the case or item at an identity, and is due no longer; a kind that is no check changes
/// nothing. It takes no memory.
pub fn pass(forest: &mut Forest, j: &Ident, check: TreeKind)
    requires boxed { IsForest forest.old }
    requires stands { TargetStands forest.old j.now }
    ensures { Passes j.now check forest.old forest.new }
{
    write(forest, j, Own::Passed(check));
}
