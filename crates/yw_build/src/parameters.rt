// What a task's items are given, and what is kept of them.
ghost use Rattle.std.specs.Prelude.{◌≡◌, ◌++◌, true, All, IfOk};
ghost use Rattle.std.specs.List.{AllZip};
ghost use Rattle.yw_accept.specs.Built.{IsParam, IsAssign};
ghost use Rattle.yw_accept.specs.Scopes.{outs_scope};
ghost use Rattle.yw_build.specs.Expressions.{InIsReady, SetIsReady};
ghost use Rattle.yw_build.specs.Numbers.{AreNumbers};

use crate::expressions::{expr_of, maybe_expr};
use crate::numbers::NetNumbers;
use crate::words::name_of;
use std::alloc::{AllocError, Global};
use yw_base::Items;
use yw_expr::{Bindings, Scope};
use yw_read::{RawIn, RawSet, RawTask};
use yw_spec::{Assign, Param, ParamList, SetList};

fn in_of(alloc: Global, numbers: &NetNumbers<'_>, said: &RawIn) -> Result<Param, AllocError>
    requires numbers { AreNumbers numbers.now }
    requires ready { InIsReady numbers.now.said.now said.now }
    ensures { IfOk result (IsParam numbers.now.said.now said.now) }
{
    let name = name_of(alloc, &said.name)?;
    let value = maybe_expr(alloc, said.value.as_ref(), &Scope::of(&numbers.vars))?;
    Ok(Param {
        name,
        sort: said.sort,
        value,
    })
}

/// The parameters that a task's items are given.
pub fn ins_of(
    alloc: Global,
    numbers: &NetNumbers<'_>,
    said: &[RawIn],
) -> Result<ParamList, AllocError>
    requires numbers { AreNumbers numbers.now }
    requires ready { All (InIsReady numbers.now.said.now) said.now }
    ensures { IfOk result (λ ins. AllZip (IsParam numbers.now.said.now) said.now ins) }
{
    let mut ins = Items::new(alloc);
    for parameter in said {
        ins.push(in_of(alloc, numbers, parameter)?)?;
    }
    Ok(ins)
}

fn assign_of(
    alloc: Global,
    numbers: &NetNumbers<'_>,
    outs: &Bindings,
    task: &RawTask,
    said: &RawSet,
) -> Result<Assign, AllocError>
    requires numbers { AreNumbers numbers.now }
    requires outs { outs.now ≡ outs_scope task.now }
    requires ready { SetIsReady numbers.now.said.now task.now said.now }
    ensures { IfOk result (IsAssign numbers.now.said.now task.now said.now) }
{
    let var = numbers.var_called(said.var.as_str());
    let value = expr_of(alloc, &said.value, &Scope::nested(outs, &numbers.vars))?;
    Ok(Assign { var, value })
}

/// The assignments of a task, where its items make these values together.
pub fn sets_of(
    alloc: Global,
    numbers: &NetNumbers<'_>,
    outs: &Bindings,
    task: &RawTask,
) -> Result<SetList, AllocError>
    requires numbers { AreNumbers numbers.now }
    requires outs { outs.now ≡ outs_scope task.now }
    requires ready { All (SetIsReady numbers.now.said.now task.now) task.now.set }
    ensures { IfOk result (λ sets. AllZip (IsAssign numbers.now.said.now task.now) task.now.set sets) }
{
    let mut sets = Items::new(alloc);
    for assignment in task.set.as_slice() {
        sets.push(assign_of(alloc, numbers, outs, task, assignment)?)?;
    }
    Ok(sets)
}
