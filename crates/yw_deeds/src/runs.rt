// Runs take their primitives, and go on after their compensations.
ghost use Rattle.std.specs.Option.{option_copied};
ghost use Rattle.std.specs.Prelude.{◌≡◌, false, IfOk, OnOk};
ghost use Rattle.yw_base.specs.Identity.{parent};
ghost use Rattle.yw_standing.specs.Held.{StandsHeld};
ghost use Rattle.yw_deeds.specs.Runs.{IsDueAnew, IsOfName, Notes, is_compensated, is_same, kind_of, named_in};
ghost use Rattle.yw_deeds.specs.Runs.{run_part_of, takes_next, text_of, waits};
ghost use Rattle.yw_standing.specs.State.{state_of};
ghost use Rattle.yw_standing.specs.Tried.{IsDone, LeadsOn, TellsLeads};
ghost use Rattle.yw_state.specs.Allowed.{is_first};
ghost use Rattle.yw_state.specs.Identity.{is_case_ident};
ghost use Rattle.yw_state.specs.Options.{is_some_and};
ghost use Rattle.yw_state.specs.State.{run_part};
ghost use Rattle.yw_state.specs.declared.event.Event.TheVariants as events;

use crate::calm::is_calm;
use crate::known::{known_task, net_of_case};
use std::alloc::{AllocError, Global};
use yw_base::{Ident, Name};
use yw_exlet::Outcome;
use yw_known::Known;
use yw_library::EndedTable;
use yw_spec::Spec;
use yw_standing::{Standing, net_at_output};
use yw_state::{Checks, Primitive, PrimitiveList, Way};
use yw_tree::Run;

/// The number of its kind.
fn kind_of(primitive: &Primitive) -> u32
    ensures { result ≡ kind_of primitive.now }
{
    match primitive {
        Primitive::SuspendItem => 0,
        Primitive::ContinueItem => 1,
        Primitive::RestartItem => 2,
        Primitive::CompleteItem => 3,
        Primitive::RemoveItem => 4,
        Primitive::SuspendCase => 5,
        Primitive::ContinueCase => 6,
        Primitive::RemoveCase => 7,
        Primitive::Compensate(_name) => 8,
        Primitive::Unknown(_text) => 9,
    }
}

/// The text that it has: a name, or what it is that is no primitive. Most have none.
fn text_of(primitive: &Primitive) -> &str
    ensures { result.now ≡ text_of primitive.now }
{
    match primitive {
        Primitive::Compensate(name) => name.as_str(),
        Primitive::Unknown(text) => text.as_str(),
        _ => "",
    }
}

/// They are the same primitive.
fn is_same(a: &Primitive, b: &Primitive) -> bool
    ensures { result ≡ is_same a.now b.now }
{
    kind_of(a) == kind_of(b) && text_of(a) == text_of(b)
}

/// It is the first of these.
fn is_first(primitive: &Primitive, rest: &PrimitiveList) -> bool
    ensures { result ≡ is_first primitive.now rest.now }
{
    match rest.get(0) {
        Some(first) => is_same(primitive, first),
        None => false,
    }
}

/// A run doesn't wait, and has this to do first.
fn takes_next(primitive: &Primitive, run: &Run) -> bool
    ensures { result ≡ takes_next primitive.now (run_part_of run.now) }
{
    !run.waiting && is_first(primitive, &run.rest)
}

/// Whether the run at an identity may take this primitive: it doesn't wait, and has it to do first. It takes no memory.
pub fn may_prim(standing: &Standing, r: &Ident, primitive: &Primitive) -> bool
    requires { StandsHeld standing.now }
    ensures { TellsLeads standing.now (events.Prim r.now primitive.now) result }
{
    // No work is done here: it says that it is an identity.
    let _ = r.numbers();
    match standing.forest.run(r) {
        Some(run) => takes_next(primitive, run),
        None => false,
    }
}

/// The specification that a primitive names.
fn named_in(primitive: &Primitive) -> Option<&Name>
    ensures { option_copied result ≡ named_in primitive.now }
{
    match primitive {
        Primitive::Compensate(name) => Some(name),
        _ => None,
    }
}

/// The same, with its number, where one of that name is loaded.
fn compensation<'a>(known: &'a Known, primitive: &Primitive) -> Option<(&'a Spec, usize)>
    ensures { IsOfName known.now (named_in primitive.now) result }
{
    match named_in(primitive) {
        Some(name) => known.spec_named(name),
        None => None,
    }
}

/// The identity of what a run hangs at.
fn target_of(alloc: Global, r: &Ident) -> Result<Ident, AllocError>
    requires { is_case_ident r.now ≡ false }
    ensures { IfOk result (λ j. j ≡ parent r.now) }
{
    let _numbers = r.numbers();
    let above = r.parent(alloc)?;
    match above {
        Some(target) => Ok(target),
        None => unreachable!(),
    }
}

/// A case that a primitive removed is over.
fn note(ended: &mut EndedTable, outcome: Option<Outcome>, n: u64) -> Result<(), AllocError>
    ensures { OnOk result (Notes outcome n ended.old ended.new) }
{
    match outcome {
        Some(_removed) => ended.put(n, Way::Removed),
        None => Ok(()),
    }
}

/// The run at an identity takes this primitive, as is allowed. `due` says whether a worklet may be chosen for its
/// item, where that begins anew. An `Err` says that no memory was left.
pub fn act_prim(
    alloc: Global,
    standing: &mut Standing,
    r: &Ident,
    primitive: &Primitive,
    due: Checks,
) -> Result<(), AllocError>
    requires held { StandsHeld standing.old }
    requires leads { LeadsOn standing.old (events.Prim r.now primitive.now) }
    requires due { IsDueAnew (state_of standing.old) (parent r.now) due }
    ensures { OnOk result (IsDone standing.old (events.Prim r.now primitive.now) standing.new) }
{
    let n = r.case_number();
    let target = target_of(alloc, r)?;
    let Some(top) = net_of_case(&standing.known, &standing.forest, n) else {
        unreachable!();
    };
    let item = known_task(&standing.known, &standing.forest, &target);
    let comp = compensation(&standing.known, primitive);
    let forest = &mut standing.forest;
    let outcome = yw_exlet::prim(alloc, forest, top, item, comp, r, due)?;
    note(&mut standing.ended, outcome, n)
}

/// The run at an identity waits for its compensation.
fn is_waiting(standing: &Standing, r: &Ident) -> bool
    requires { StandsHeld standing.now }
    ensures { result ≡ is_some_and (run_part (state_of standing.now) r.now) waits }
{
    let _ = r.numbers();
    match standing.forest.run(r) {
        Some(run) => run.waiting,
        None => false,
    }
}

/// It does, its compensation is at its end, and nothing is urgent in its case.
fn is_compensated(standing: &Standing, r: &Ident) -> bool
    requires { StandsHeld standing.now }
    ensures { result ≡ is_compensated (state_of standing.now) r.now }
{
    is_waiting(standing, r)
        && net_at_output(&standing.known, &standing.forest, r)
        && is_calm(standing, r.case_number())
}

/// Whether the compensation of the run at an identity may end: it is at its end, and nothing is urgent in the case.
/// It takes no memory.
pub fn may_compensated(standing: &Standing, r: &Ident) -> bool
    requires { StandsHeld standing.now }
    ensures { TellsLeads standing.now (events.Compensated r.now) result }
{
    is_compensated(standing, r)
}

/// The compensation of the run at an identity ends, as is allowed. It takes no memory.
pub fn act_compensated(standing: &mut Standing, r: &Ident)
    requires held { StandsHeld standing.old }
    requires leads { LeadsOn standing.old (events.Compensated r.now) }
    ensures { IsDone standing.old (events.Compensated r.now) standing.new }
{
    yw_exlet::compensation_done(&mut standing.forest, r);
}
