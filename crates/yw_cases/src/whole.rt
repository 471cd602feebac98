// Cases that begin, and that are over.
ghost use Rattle.std.specs.Prelude.{◌≡◌, IfOk, OnOk};
ghost use Rattle.yw_cases.specs.Ending.{case_ends, ends_at};
ghost use Rattle.yw_cases.specs.Rows.{may_begin};
ghost use Rattle.yw_cases.specs.State.{MayStand};
ghost use Rattle.yw_cases.specs.Tried.{IsSpecNumbered, TellsNumbered};
ghost use Rattle.yw_spec.specs.declared.spec.Net.{Net};
ghost use Rattle.yw_standing.specs.State.{state_of};
ghost use Rattle.yw_standing.specs.Tried.{IsDone, LeadsOn, TellsLeads};
ghost use Rattle.yw_state.specs.Allowed.{launch_fits};
ghost use Rattle.yw_state.specs.Identity.{case_ident};
ghost use Rattle.yw_state.specs.Nets.{top_net};
ghost use Rattle.yw_state.specs.Options.{is_some_and};
ghost use Rattle.yw_state.specs.State.{is_case};
ghost use Rattle.yw_state.specs.declared.event.Event.TheVariants as events;

use crate::held::is_held;
use crate::rows::{copy_row, launch_fits};
use std::alloc::{AllocError, Global};
use yw_base::{Ident, Name, Row};
use yw_spec::Spec;
use yw_standing::{Standing, draws, net_at_output};
use yw_state::{Checks, Way};

/// No check is due: no tree has a rule.
pub const NO_CHECKS: Checks = Checks {
    pre: false,
    select: false,
    post: false,
};

/// A case of the specification may begin with these values.
fn begins_with(spec: &Spec, values: &Row) -> bool
    ensures { result ≡ is_some_and (top_net spec.now) (λ (net : Net). launch_fits net.vars values.now) }
{
    match spec.nets.get(spec.top) {
        Some(net) => launch_fits(net.vars.as_slice(), values.as_slice()),
        None => false,
    }
}

/// It may begin with them under this number, where that of `next` is drawn next.
fn may_begin(spec: &Spec, next: u64, n: u64, values: &Row) -> bool
    ensures { result ≡ may_begin spec.now next n values.now }
{
    draws(next, n, 1) && begins_with(spec, values)
}

/// The number of the specification of this name, where a case of it may begin under the number `n` with these values; `None` where none may. It takes
/// no memory.
pub fn may_launch(standing: &Standing, n: u64, name: &Name, values: &Row) -> Option<usize>
    requires { MayStand standing.now }
    ensures { TellsNumbered standing.now (events.Launch n name.now values.now) result }
{
    let Some((spec, number)) = standing.known.spec_named(name) else {
        return None;
    };
    if !may_begin(spec, standing.next, n, values) {
        return None;
    }
    Some(number)
}

/// Nothing holds work at an identity, and the net there is at its end.
fn ends_at(standing: &Standing, at: &Ident) -> bool
    requires { MayStand standing.now }
    ensures { result ≡ ends_at (state_of standing.now) at.now }
{
    !is_held(standing, at) && net_at_output(&standing.known, &standing.forest, at)
}

/// Nothing holds work in the case with this number, and its net is at its end. An `Err` says that no memory was left.
fn case_ends(alloc: Global, standing: &Standing, n: u64) -> Result<bool, AllocError>
    requires { MayStand standing.now }
    ensures { IfOk result (λ ends. ends ≡ case_ends (state_of standing.now) n) }
{
    match Ident::from_numbers(vec![in alloc; n]?) {
        Some(at) => Ok(ends_at(standing, &at)),
        None => Ok(false),
    }
}

/// Whether a case may finish: nothing holds work in it, and its net is at its end. An `Err` says that no memory was left.
pub fn may_finish(alloc: Global, standing: &Standing, n: u64) -> Result<bool, AllocError>
    requires { MayStand standing.now }
    ensures { IfOk result (TellsLeads standing.now (events.Finish n)) }
{
    case_ends(alloc, standing, n)
}

/// A case of this number stands.
fn case_stands(standing: &Standing, n: u64) -> bool
    requires { MayStand standing.now }
    ensures { result ≡ is_case (state_of standing.now) (case_ident n) }
{
    standing.forest.case(n).is_some()
}

/// Whether a case may be cancelled: one of this number stands. It takes no memory.
pub fn may_cancel(standing: &Standing, n: u64) -> bool
    requires { MayStand standing.now }
    ensures { TellsLeads standing.now (events.Cancel n) result }
{
    case_stands(standing, n)
}

/// Whether what follows of itself may come in a case: one of this number stands. It takes no memory.
pub fn may_advance(standing: &Standing, n: u64) -> bool
    requires { MayStand standing.now }
    ensures { TellsLeads standing.now (events.Advance n) result }
{
    case_stands(standing, n)
}

/// Finishes a case, as is allowed. An `Err` says that no memory was left.
pub fn act_finish(standing: &mut Standing, n: u64) -> Result<(), AllocError>
    requires stands { MayStand standing.old }
    requires leads { LeadsOn standing.old (events.Finish n) }
    ensures { OnOk result (IsDone standing.old (events.Finish n) standing.new) }
{
    standing.ended.put(n, Way::Finished)?;
    yw_nest::finish(&mut standing.forest, n);
    Ok(())
}

/// Cancels a case, as is allowed. An `Err` says that no memory was left.
pub fn act_cancel(standing: &mut Standing, n: u64) -> Result<(), AllocError>
    requires stands { MayStand standing.old }
    requires leads { LeadsOn standing.old (events.Cancel n) }
    ensures { OnOk result (IsDone standing.old (events.Cancel n) standing.new) }
{
    standing.ended.put(n, Way::Cancelled)?;
    yw_nest::cancel(&mut standing.forest, n);
    Ok(())
}

/// Begins a case, as is allowed, of the specification with this number, which has this name. An `Err` says that no memory was left.
pub fn act_launch(
    alloc: Global,
    standing: &mut Standing,
    n: u64,
    _name: &Name,
    values: &Row,
    number: usize,
) -> Result<(), AllocError>
    requires stands { MayStand standing.old }
    requires leads { LeadsOn standing.old (events.Launch n _name.now values.now) }
    requires number { IsSpecNumbered standing.old.known _name.now number }
    ensures { OnOk result (IsDone standing.old (events.Launch n _name.now values.now) standing.new) }
{
    let Some(loaded) = standing.known.library().specs().get(number) else {
        unreachable!();
    };
    let copy = copy_row(alloc, values)?;
    yw_nest::launch(
        alloc,
        &mut standing.forest,
        &loaded.spec,
        number,
        n,
        copy,
        NO_CHECKS,
    )?;
    standing.next = n + 1;
    Ok(())
}
