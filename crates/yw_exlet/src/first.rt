// A run takes its first primitive, whichever it is.
ghost use Rattle.std.specs.Option.{option_copied};
ghost use Rattle.std.specs.Prelude.{◌≡◌, IfOk, IfSome, None, OnErr, OnOk, Some, false, option_map};
ghost use Rattle.yw_base.specs.Identity.{parent};
ghost use Rattle.yw_exlet.specs.Needs.{ComesOf, Completes, FitsTarget, MayCompensate, MayTake, Restarts, SourceStands, Takes, handed, named_spec};
ghost use Rattle.yw_exlet.specs.Stands.{BareRunAt, TargetAt, first_at};
ghost use Rattle.yw_state.specs.Exlets.{case_above};
ghost use Rattle.yw_state.specs.Identity.{is_case_ident};
ghost use Rattle.yw_state.specs.Words.{is_completed};
ghost use Rattle.yw_tree.specs.Forest.{IsForest};
ghost use Rattle.yw_within.specs.Within.{IsWithin};
ghost use Rattle.yw_worklet.specs.Begins.{BeginsTop};
ghost use Rattle.yw_worklet.specs.Named.{named};

use crate::takes::{
    take_compensation, take_completion, take_mark, take_none, take_removal, take_restart,
};
use std::alloc::{AllocError, Global};
use yw_base::Ident;
use yw_spec::{Net, Spec, Task};
use yw_state::{Checks, Primitive, Stage};
use yw_tree::{Forest, NetState};
use yw_worklet::{DEPTH_END, Source, begin_top, item_there, made_of_given, net_there};

/// What comes of a primitive besides.
#[derive(Clone, Copy, Debug, PartialEq, Eq)]
pub enum Outcome {
    /// The case is over, and was removed.
    Removed,
}

/// The identity of what the run at an identity hangs at.
fn target_of(alloc: Global, r: &Ident) -> Result<Ident, AllocError>
    requires { is_case_ident r.now ≡ false }
    ensures { IfOk result (λ j. j ≡ parent r.now) }
{
    let _numbers = r.numbers();
    let above = r.parent(alloc)?;
    match above {
        Some(target) => Ok(target),
        None => unreachable!(),
    }
}

/// The identity of the case in which it runs.
fn case_of(alloc: Global, r: &Ident) -> Result<Ident, AllocError>
    ensures { IfOk result (λ case. case ≡ case_above r.now) }
{
    let _numbers = r.numbers();
    Ident::of_number(alloc, r.case_number())
}

/// What the run at an identity has to do first.
fn first_of<'a>(forest: &'a Forest, r: &Ident) -> Option<&'a Primitive>
    ensures { option_copied result ≡ first_at forest.now r.now }
{
    match forest.run(r) {
        Some(run) => run.rest.get(0),
        None => None,
    }
}

/// What the run at an item or case hands to its compensation: what the item was given, or what the case's net has.
fn source_of<'a>(forest: &'a Forest, j: &Ident, top: &'a Net, item: Option<&'a Task>) -> Source<'a>
    requires { SourceStands forest.now j.now (option_copied item) }
    ensures { named result ≡ handed forest.now j.now top.now (option_copied item.entry) }
{
    match item {
        Some(task) => Source::Given(&task.ins, &item_there(forest, j).given),
        None => Source::Held(&top.vars, &net_there(forest, j).vals),
    }
}

/// The net of a compensation as it begins.
fn new_compensation(
    alloc: Global,
    forest: &Forest,
    j: &Ident,
    top: &Net,
    item: Option<&Task>,
    spec: &Spec,
    number: usize,
) -> Result<NetState, AllocError>
    requires within { IsWithin spec.now }
    requires stands { SourceStands forest.now j.now (option_copied item) }
    ensures { IfOk result (BeginsTop spec.now number (handed forest.now j.now top.now (option_copied item.entry))) }
{
    let source = source_of(forest, j, top, item);
    begin_top(alloc, spec, number, &source)
}

/// A compensation by this specification begins, where the run isn't too deep.
fn compensate_by(
    alloc: Global,
    forest: &mut Forest,
    top: &Net,
    item: Option<&Task>,
    spec: &Spec,
    number: usize,
    r: &Ident,
    j: &Ident,
) -> Result<(), AllocError>
    requires boxed { IsForest forest.old }
    requires runs { BareRunAt forest.old r.now }
    requires stands { TargetAt forest.old j.now }
    requires fits { FitsTarget j.now (option_copied item) }
    requires within { IsWithin spec.now }
    ensures ok { OnOk result (MayCompensate top.now (option_copied item.entry) (Some (spec.now, number)) r.now j.now forest.old forest.new) }
    ensures err { OnErr result (forest.new ≡ forest.old) }
{
    let _target = j.numbers();
    let depth = r.numbers().len();
    if depth >= DEPTH_END {
        take_none(alloc, forest, r);
        return Ok(());
    }
    let net = Box::new(
        alloc,
        new_compensation(alloc, forest, j, top, item, spec, number)?,
    )?;
    take_compensation(alloc, forest, r, net);
    Ok(())
}

/// The same, where its specification is loaded.
pub fn compensate(
    alloc: Global,
    forest: &mut Forest,
    top: &Net,
    item: Option<&Task>,
    comp: Option<(&Spec, usize)>,
    r: &Ident,
    j: &Ident,
) -> Result<(), AllocError>
    requires boxed { IsForest forest.old }
    requires runs { BareRunAt forest.old r.now }
    requires stands { TargetAt forest.old j.now }
    requires fits { FitsTarget j.now (option_copied item) }
    requires within { IfSome comp (λ e. IsWithin e.0.now) }
    ensures ok { OnOk result (MayCompensate top.now (option_copied item.entry) (option_map named_spec comp.entry) r.now j.now forest.old forest.new) }
    ensures err { OnErr result (forest.new ≡ forest.old) }
{
    match comp {
        Some((spec, number)) => { compensate_by(alloc, forest, top, item, spec, number, r, j) }
        None => {
            take_none(alloc, forest, r);
            Ok(())
        }
    }
}

/// The item at an identity begins anew. At a case there is none.
pub fn restart_item(
    alloc: Global,
    forest: &mut Forest,
    item: Option<&Task>,
    r: &Ident,
    j: &Ident,
    due: Checks,
)
    requires boxed { IsForest forest.old }
    requires runs { BareRunAt forest.old r.now }
    requires stands { TargetAt forest.old j.now }
    requires target { j.now ≡ parent r.now }
    requires item { FitsTarget j.now (option_copied item) }
    ensures { Restarts (option_copied item.entry) due r.now j.now forest.old forest.new }
{
    match item {
        Some(_task) => take_restart(alloc, forest, r, j, due.select),
        None => take_none(alloc, forest, r),
    }
}

fn is_completed(stage: Stage) -> bool
    ensures { result ≡ is_completed stage }
{
    matches!(stage, Stage::Completed)
}

/// The item at an identity, which is of this task, is completed, if it isn't already.
fn complete_of_task(
    alloc: Global,
    forest: &mut Forest,
    task: &Task,
    r: &Ident,
    j: &Ident,
) -> Result<(), AllocError>
    requires boxed { IsForest forest.old }
    requires runs { BareRunAt forest.old r.now }
    requires stands { TargetAt forest.old j.now }
    requires target { j.now ≡ parent r.now }
    requires item { is_case_ident j.now ≡ false }
    ensures ok { OnOk result (Completes (Some task.now) r.now j.now forest.old forest.new) }
    ensures err { OnErr result (forest.new ≡ forest.old) }
{
    let _target = j.numbers();
    let node = item_there(forest, j);
    if is_completed(node.stage) {
        take_none(alloc, forest, r);
        return Ok(());
    }
    let made = made_of_given(alloc, &task.ins, &task.outs, &node.given)?;
    take_completion(alloc, forest, r, j, made);
    Ok(())
}

/// The same. At a case there is no item.
pub fn complete_item(
    alloc: Global,
    forest: &mut Forest,
    item: Option<&Task>,
    r: &Ident,
    j: &Ident,
) -> Result<(), AllocError>
    requires boxed { IsForest forest.old }
    requires runs { BareRunAt forest.old r.now }
    requires stands { TargetAt forest.old j.now }
    requires target { j.now ≡ parent r.now }
    requires item { FitsTarget j.now (option_copied item) }
    ensures ok { OnOk result (Completes (option_copied item.entry) r.now j.now forest.old forest.new) }
    ensures err { OnErr result (forest.new ≡ forest.old) }
{
    match item {
        Some(task) => complete_of_task(alloc, forest, task, r, j),
        None => {
            take_none(alloc, forest, r);
            Ok(())
        }
    }
}

/// The run at an identity takes its first primitive:
///
/// - `SuspendItem`, `ContinueItem`, `SuspendCase`, `ContinueCase`: what it hangs at, or its case, is suspended, or isn't any more.
/// - `RestartItem`: the item begins anew, and `due` says whether a worklet may be chosen for it; its net goes.
/// - `CompleteItem`: the item is completed, if it isn't already, and has made what it was given; its net goes.
/// - `RemoveItem`, `RemoveCase`: all of what it hangs at goes, or all of its case. That the case is over is kept by the caller.
/// - `Compensate`: where the run has fewer than 32 numbers, the top net of `comp` begins under it, and it waits for that net's end.
/// - `Unknown`: nothing.
///
/// A run that has nothing left to do and doesn't wait goes. One that has nothing to do stays as it is, and so does all else. `top` is the net of
/// its case; `item` is the task of what it hangs at, where that is an item, and else `None`; `comp` is the specification that a `Compensate`
/// names, with its number, and else `None`. `Some(Removed)` comes exactly for `RemoveCase`. An `Err` says that no memory was left, and then all
/// is as it was. The primitives are after the thesis's; what each does is our own.
pub fn prim(
    alloc: Global,
    forest: &mut Forest,
    top: &Net,
    item: Option<&Task>,
    comp: Option<(&Spec, usize)>,
    r: &Ident,
    due: Checks,
) -> Result<Option<Outcome>, AllocError>
    requires boxed { IsForest forest.old }
    requires may { MayTake forest.old (option_copied item) r.now }
    requires within { IfSome comp (λ e. IsWithin e.0.now) }
    ensures ok { OnOk result (Takes top.now (option_copied item.entry)
        (option_map named_spec comp.entry) due r.now forest.old forest.new) }
    ensures outcome { IfOk result (ComesOf forest.old r.now) }
    ensures idle { first_at forest.old r.now ≡ None → forest.new ≡ forest.old }
    ensures err { OnErr result (forest.new ≡ forest.old) }
{
    let _run = r.numbers();
    let j = target_of(alloc, r)?;
    let case = case_of(alloc, r)?;
    let Some(first) = first_of(forest, r) else {
        return Ok(None);
    };
    match first {
        Primitive::SuspendItem => take_mark(alloc, forest, r, &j, true),
        Primitive::ContinueItem => take_mark(alloc, forest, r, &j, false),
        Primitive::SuspendCase => take_mark(alloc, forest, r, &case, true),
        Primitive::ContinueCase => take_mark(alloc, forest, r, &case, false),
        Primitive::RestartItem => restart_item(alloc, forest, item, r, &j, due),
        Primitive::CompleteItem => complete_item(alloc, forest, item, r, &j)?,
        Primitive::RemoveItem => take_removal(alloc, forest, r, &j),
        Primitive::RemoveCase => {
            take_removal(alloc, forest, r, &case);
            return Ok(Some(Outcome::Removed));
        }
        Primitive::Compensate(_name) => {
            compensate(alloc, forest, top, item, comp, r, &j)?;
        }
        Primitive::Unknown(_text) => take_none(alloc, forest, r),
    }
    Ok(None)
}
