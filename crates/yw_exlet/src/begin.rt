// A run begins.
ghost use Rattle.std.specs.Prelude.{◌≡◌, ◌<◌, IfOk, OnErr, OnOk, length, true, ℕ};
ghost use Rattle.yw_base.specs.Identity.{child, is_number, most_numbers};
ghost use Rattle.yw_exlet.specs.Begins.{Excepts, Raises, RunMayBegin};
ghost use Rattle.yw_state.specs.declared.tree.TreeKind.{TreeKind};
ghost use Rattle.yw_tree.specs.Begins.{BeginsRun};
ghost use Rattle.yw_tree.specs.Forest.{IsForest};

use crate::own::{Own, write};
use std::alloc::{AllocError, Global};
use yw_base::Ident;
use yw_rdr::copy_of_primitives;
use yw_state::{PrimitiveList, TreeKind};
use yw_tree::{Forest, Run};

/// Run n of the case or item at an identity, which has all of this exlet to do.
fn new_run(alloc: Global, exlet: &PrimitiveList, j: &Ident, n: u64) -> Result<Run, AllocError>
    requires room { length j.now < most_numbers }
    requires number { is_number n ≡ true }
    ensures { IfOk result (BeginsRun (child j.now n) exlet.now) }
{
    let id = j.child(alloc, n)?;
    let rest = copy_of_primitives(alloc, exlet.as_slice())?;
    Ok(Run::begin(id, rest))
}

/// Run `n` begins at the case or item at an identity, and has all primitives of this exlet to do, which the rule with number `node` of the
/// tree of that kind concludes. An `Err` says that no memory was left, and then all is as it was. That an exlet begins is the thesis's; the
/// run and its number are our own.
pub fn raise(
    alloc: Global,
    forest: &mut Forest,
    exlet: &PrimitiveList,
    j: &Ident,
    n: u64,
) -> Result<(), AllocError>
    requires boxed { IsForest forest.old }
    requires may { RunMayBegin forest.old j.now n }
    ensures ok { OnOk result ((kind : TreeKind) (node : ℕ) → Raises j.now kind node n exlet.now forest.old forest.new) }
    ensures err { OnErr result (forest.new ≡ forest.old) }
{
    let run = Box::new(alloc, new_run(alloc, exlet, j, n)?)?;
    forest.add_run(j, run);
    Ok(())
}

/// The same, for a check of this kind that is due at the case or item: it is due no longer.
pub fn except(
    alloc: Global,
    forest: &mut Forest,
    exlet: &PrimitiveList,
    j: &Ident,
    check: TreeKind,
    n: u64,
) -> Result<(), AllocError>
    requires boxed { IsForest forest.old }
    requires may { RunMayBegin forest.old j.now n }
    ensures ok { OnOk result ((node : ℕ) → Excepts j.now check node n exlet.now forest.old forest.new) }
    ensures err { OnErr result (forest.new ≡ forest.old) }
{
    let _target = j.numbers();
    let run = Box::new(alloc, new_run(alloc, exlet, j, n)?)?;
    forest.add_run(j, run);
    write(forest, j, Own::Passed(check));
    Ok(())
}
