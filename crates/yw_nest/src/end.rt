// Cases end.
ghost use Rattle.yw_nest.specs.Cases.{Cancels, Finishes};
ghost use Rattle.yw_state.specs.Identity.{case_ident};
ghost use Rattle.yw_tree.specs.Becomes.{Drops};
ghost use Rattle.yw_tree.specs.Forest.{IsForest};

use yw_tree::Forest;

/// A case goes, with all that stands in it.
fn remove_case(forest: &mut Forest, n: u64)
    requires { IsForest forest.old }
    ensures sites { Drops forest.old forest.new (case_ident n) }
    ensures boxed { IsForest forest.new }
{
    let _gone = forest.cases.remove(n);
}

/// A case is finished: it goes, with all that stands in it. That it is over is kept by the caller. It takes no memory.
pub fn finish(forest: &mut Forest, n: u64)
    requires { IsForest forest.old }
    ensures { Finishes n forest.old forest.new }
{
    remove_case(forest, n);
}

/// A case is cancelled: it goes, with all that stands in it. That it is over is kept by the caller. It takes no memory.
pub fn cancel(forest: &mut Forest, n: u64)
    requires { IsForest forest.old }
    ensures { Cancels n forest.old forest.new }
{
    remove_case(forest, n);
}
