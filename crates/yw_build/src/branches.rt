// The branches of a split.
ghost use Rattle.std.specs.Prelude.{◌≡◌, true, All, IfOk};
ghost use Rattle.std.specs.List.{AllZip};
ghost use Rattle.yw_accept.specs.Built.{IsBranch};
ghost use Rattle.yw_accept.specs.Facts.{NetIsNamed, NetLeads};
ghost use Rattle.yw_build.specs.Expressions.{BranchIsReady};
ghost use Rattle.yw_build.specs.Numbers.{AreNumbers};

use crate::expressions::maybe_expr;
use crate::numbers::NetNumbers;
use std::alloc::{AllocError, Global};
use yw_base::Items;
use yw_expr::Scope;
use yw_read::{RawBranch, RawTask};
use yw_spec::{Branch, BranchList};

fn branch_of(
    alloc: Global,
    numbers: &NetNumbers<'_>,
    task: &RawTask,
    said: &RawBranch,
) -> Result<Branch, AllocError>
    requires numbers { AreNumbers numbers.now }
    requires named { NetIsNamed numbers.now.said.now }
    requires leads { NetLeads numbers.now.said.now }
    requires ready { BranchIsReady numbers.now.said.now task.now said.now }
    ensures { IfOk result (IsBranch numbers.now.said.now task.now said.now) }
{
    let to = numbers.place_of(alloc, task.name.as_str(), said.to.as_str())?;
    let when = maybe_expr(alloc, said.when.as_ref(), &Scope::of(&numbers.vars))?;
    Ok(Branch { to, when })
}

/// The branches of a task's split.
pub fn branches_of(
    alloc: Global,
    numbers: &NetNumbers<'_>,
    task: &RawTask,
) -> Result<BranchList, AllocError>
    requires numbers { AreNumbers numbers.now }
    requires named { NetIsNamed numbers.now.said.now }
    requires leads { NetLeads numbers.now.said.now }
    requires ready { All (BranchIsReady numbers.now.said.now task.now) task.now.branch }
    ensures { IfOk result (λ branches. AllZip (IsBranch numbers.now.said.now task.now) task.now.branch branches) }
{
    let mut branches = Items::new(alloc);
    for branch in task.branch.as_slice() {
        branches.push(branch_of(alloc, numbers, task, branch)?)?;
    }
    Ok(branches)
}
