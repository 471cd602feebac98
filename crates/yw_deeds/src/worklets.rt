// Worklets begin and end.
ghost use Rattle.std.specs.Option.{option_copied};
ghost use Rattle.std.specs.Prelude.{◌≡◌, ◌&&◌, length, nat_lt, OnOk};
ghost use Rattle.yw_standing.specs.Held.{StandsHeld};
ghost use Rattle.yw_deeds.specs.Judging.{IsTreeAt};
ghost use Rattle.yw_standing.specs.State.{state_of};
ghost use Rattle.yw_standing.specs.Tried.{IsDone, LeadsOn, TellsLeads};
ghost use Rattle.yw_deeds.specs.Worklets.{IsPostDue, is_at_end, is_at_work, substitutes};
ghost use Rattle.yw_state.specs.Allowed.{depth_end};
ghost use Rattle.yw_state.specs.Nets.{is_atomic};
ghost use Rattle.yw_state.specs.Options.{is_some_and};
ghost use Rattle.yw_state.specs.State.{item_at};
ghost use Rattle.yw_state.specs.Words.{is_executing};
ghost use Rattle.yw_state.specs.declared.event.Event.TheVariants as events;
ghost use Rattle.yw_state.specs.declared.tree.TreeKind.TheVariants.{Select};

use crate::calm::{is_busy, is_clear};
use crate::exlets::comes_next;
use crate::judging::is_chosen;
use crate::known::known_task;
use std::alloc::{AllocError, Global};
use yw_base::{Ident, Name};
use yw_known::item_here;
use yw_rdr::RuleTree;
use yw_spec::{Kind, Task};
use yw_standing::{Standing, known_net, net_at_output};
use yw_state::{Checks, Stage, TreeKind};
use yw_worklet::DEPTH_END;

/// A worklet at an identity wouldn't stand too deep.
fn is_shallow(j: &Ident) -> bool
    ensures { result ≡ nat_lt (length j.now) depth_end }
{
    j.numbers().len() < DEPTH_END
}

/// The choice of a worklet comes next at an item, none would stand too deep, and the tree chooses this one.
fn substitutes(
    alloc: Global,
    standing: &Standing,
    j: &Ident,
    worklet: &Name,
    tree: Option<&RuleTree>,
) -> bool
    requires held { StandsHeld standing.now }
    requires tree { IsTreeAt (state_of standing.now) j.now Select (option_copied tree) }
    ensures { result ≡ substitutes (state_of standing.now) j.now worklet.now }
{
    comes_next(standing, j, TreeKind::Select)
        && is_shallow(j)
        && is_chosen(alloc, standing, j, worklet, tree)
}

/// Whether a worklet of this name may stand for an item: the choice comes next there, and its tree chooses this one.
/// `tree` is the one that chooses worklets for the item. It takes no memory.
pub fn may_substitute(
    alloc: Global,
    standing: &Standing,
    j: &Ident,
    worklet: &Name,
    tree: Option<&RuleTree>,
) -> bool
    requires held { StandsHeld standing.now }
    requires tree { IsTreeAt (state_of standing.now) j.now Select (option_copied tree) }
    ensures { TellsLeads standing.now (events.Substitute j.now worklet.now) result }
{
    substitutes(alloc, standing, j, worklet, tree)
}

/// A worklet of this name begins at an item, as is allowed. An `Err` says that no memory was left.
pub fn act_substitute(
    alloc: Global,
    standing: &mut Standing,
    j: &Ident,
    name: &Name,
) -> Result<(), AllocError>
    requires held { StandsHeld standing.old }
    requires leads { LeadsOn standing.old (events.Substitute j.now name.now) }
    ensures { OnOk result (IsDone standing.old (events.Substitute j.now name.now) standing.new) }
{
    let Some(item) = known_task(&standing.known, &standing.forest, j) else {
        unreachable!();
    };
    let Some((worklet, number)) = standing.known.spec_named(name) else {
        unreachable!();
    };
    yw_worklet::substitute(alloc, &mut standing.forest, item, worklet, number, j)
}

/// An item of the task at this stage may have a worklet.
fn takes_worklet(stage: Stage, task: &Task) -> bool
    ensures { result ≡ (is_executing stage && is_atomic task.now) }
{
    match (stage, task.kind) {
        (Stage::Executing, Kind::Atomic) => true,
        _ => false,
    }
}

/// The item at an identity is at work, and of an atomic task.
fn is_at_work(standing: &Standing, j: &Ident) -> bool
    requires { StandsHeld standing.now }
    ensures { result ≡ is_some_and (item_at (state_of standing.now) j.now) is_at_work }
{
    match item_here(&standing.known, &standing.forest, j) {
        Some(here) => takes_worklet(here.item.stage, here.task),
        None => false,
    }
}

/// The worklet of the item at an identity is at its end, and nothing holds work there.
fn is_at_end(standing: &Standing, j: &Ident) -> bool
    requires { StandsHeld standing.now }
    ensures { result ≡ is_at_end (state_of standing.now) j.now }
{
    is_clear(standing, j)
        && !is_busy(standing, j)
        && is_at_work(standing, j)
        && net_at_output(&standing.known, &standing.forest, j)
}

/// Whether the worklet of an item may end: it is at its end, and nothing holds work there. It takes no memory.
pub fn may_complete_worklet(standing: &Standing, j: &Ident) -> bool
    requires { StandsHeld standing.now }
    ensures { TellsLeads standing.now (events.CompleteWorklet j.now) result }
{
    is_at_end(standing, j)
}

/// The worklet of an item ends, as is allowed, and the item is completed. `due` says whether a check comes after it.
/// An `Err` says that no memory was left.
pub fn act_complete_worklet(
    alloc: Global,
    standing: &mut Standing,
    j: &Ident,
    due: Checks,
) -> Result<(), AllocError>
    requires held { StandsHeld standing.old }
    requires leads { LeadsOn standing.old (events.CompleteWorklet j.now) }
    requires due { IsPostDue (state_of standing.old) j.now due }
    ensures { OnOk result (IsDone standing.old (events.CompleteWorklet j.now) standing.new) }
{
    let Some(item) = known_task(&standing.known, &standing.forest, j) else {
        unreachable!();
    };
    let Some(inner) = known_net(&standing.known, &standing.forest, j) else {
        unreachable!();
    };
    yw_worklet::complete_worklet(alloc, &mut standing.forest, item, inner.spec, j, due)
}
