// Variables of a net, and what a task's items make.
ghost use Rattle.std.specs.Prelude.{◌≡◌, true, IfOk, All, map};
ghost use Rattle.std.specs.Option.{option_map_or};
ghost use Rattle.yw_base.specs.Values.{zero_of};
ghost use Rattle.yw_accept.specs.Built.{var_of, out_of};
ghost use Rattle.yw_accept.specs.Names.{is_usable};

use crate::words::{name_of, zero_of};
use std::alloc::{AllocError, Global};
use yw_base::{Items, Value};
use yw_read::{RawOut, RawVar};
use yw_spec::{Param, ParamList, Var, VarList};

/// The first value that a document says, or the zero of the sort.
fn init_of(alloc: Global, said: &RawVar) -> Result<Value, AllocError>
    ensures { IfOk result (λ value. value ≡ option_map_or (λ x. x) said.now.init (zero_of said.now.sort)) }
{
    match &said.init {
        Some(value) => Ok(value.copy(alloc)?),
        None => Ok(zero_of(alloc, said.sort)),
    }
}

fn var_of(alloc: Global, said: &RawVar) -> Result<Var, AllocError>
    requires { is_usable said.now.name ≡ true }
    ensures { IfOk result (λ v. v ≡ var_of said.now) }
{
    Ok(Var {
        name: name_of(alloc, &said.name)?,
        sort: said.sort,
        usage: said.usage,
        init: init_of(alloc, said)?,
    })
}

/// The variables that a net declares.
pub fn vars_of(alloc: Global, said: &[RawVar]) -> Result<VarList, AllocError>
    requires { All (λ v. is_usable v.name ≡ true) said.now }
    ensures { IfOk result (λ vars. vars ≡ map var_of said.now) }
{
    let mut vars = Items::new(alloc);
    for variable in said {
        vars.push(var_of(alloc, variable)?)?;
    }
    Ok(vars)
}

fn out_of(alloc: Global, said: &RawOut) -> Result<Param, AllocError>
    requires { is_usable said.now.name ≡ true }
    ensures { IfOk result (λ p. p ≡ out_of said.now) }
{
    Ok(Param {
        name: name_of(alloc, &said.name)?,
        sort: said.sort,
        value: None,
    })
}

/// The parameters that a task's items make.
pub fn outs_of(alloc: Global, said: &[RawOut]) -> Result<ParamList, AllocError>
    requires { All (λ p. is_usable p.name ≡ true) said.now }
    ensures { IfOk result (λ outs. outs ≡ map out_of said.now) }
{
    let mut outs = Items::new(alloc);
    for parameter in said {
        outs.push(out_of(alloc, parameter)?)?;
    }
    Ok(outs)
}
