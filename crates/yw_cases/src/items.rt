// Items that go on: one is started, a child net begins or ends at one, or one of an empty task is completed.
ghost use Rattle.std.specs.Prelude.{◌≡◌, ◌&&◌, IfOk, None, MatchOption, OnOk};
ghost use Rattle.yw_cases.specs.Items.{item_goes, item_suits, suits};
ghost use Rattle.yw_cases.specs.State.{MayStand};
ghost use Rattle.yw_cases.specs.declared.items.ItemEvent.TheVariants.{CompleteSub};
ghost use Rattle.yw_library.specs.Held.{IsHeld};
ghost use Rattle.yw_base.specs.Identity.{parent};
ghost use Rattle.yw_standing.specs.Here.{IsNetKnown};
ghost use Rattle.yw_standing.specs.State.{state_of};
ghost use Rattle.yw_standing.specs.Tried.{IsDone, LeadsOn, TellsLeads};
ghost use Rattle.yw_state.specs.Joins.{at_output};
ghost use Rattle.yw_state.specs.State.{State, item_at};
ghost use Rattle.yw_state.specs.declared.event.Event.TheVariants as events;

use crate::held::is_held;
use crate::whole::NO_CHECKS;
use std::alloc::{AllocError, Global};
use yw_base::{Ident, Name};
use yw_known::{Known, KnownNet, item_here};
use yw_spec::{Kind, Task};
use yw_standing::{Standing, net_at_output};
use yw_state::Stage;
use yw_tree::Forest;

/// An event of an item that its stage and its task decide.
#[derive(Clone, Copy, Debug, PartialEq, Eq)]
pub enum ItemEvent {
    /// A person starts it.
    Start,
    /// Its child net begins.
    StartSub,
    /// Its child net ends.
    CompleteSub,
    /// It is completed, as one of an empty task.
    CompleteEmpty,
}

/// An item of the task at this stage is one for the event.
fn suits(event: ItemEvent, stage: Stage, task: &Task) -> bool
    ensures { result ≡ suits event stage task.now }
{
    match (event, stage, task.kind) {
        (ItemEvent::Start, Stage::Ready, Kind::Atomic) => true,
        (ItemEvent::StartSub, Stage::Ready, Kind::Sub(_)) => true,
        (ItemEvent::CompleteSub, Stage::Executing, Kind::Sub(_)) => true,
        (ItemEvent::CompleteEmpty, Stage::Ready, Kind::Empty) => true,
        _ => false,
    }
}

/// The item at an identity is one for the event.
fn item_suits(standing: &Standing, event: ItemEvent, j: &Ident) -> bool
    requires { MayStand standing.now }
    ensures { result ≡ item_suits (state_of standing.now) event j.now }
{
    match item_here(&standing.known, &standing.forest, j) {
        Some(here) => suits(event, here.item.stage, here.task),
        None => false,
    }
}

/// The item at an identity is one for the event, and nothing holds work there.
fn item_goes(standing: &Standing, event: ItemEvent, j: &Ident) -> bool
    requires { MayStand standing.now }
    ensures { result ≡ item_goes (state_of standing.now) event j.now }
{
    !is_held(standing, j) && item_suits(standing, event, j)
}

/// The net in which an item stands, by what is known, found by one way down; `None` only where no item stands at the identity. It takes no memory.
pub fn outer_net<'a>(known: &'a Known, forest: &Forest, j: &Ident) -> Option<KnownNet<'a>>
    ensures { (s : State) → IsHeld known.now forest.now s
        → MatchOption result (item_at s j.now ≡ None) (IsNetKnown known.now forest.now s (parent j.now)) }
{
    // No work is done here: these say that it is an identity, and that names lead to specifications.
    let _ = j.numbers();
    known.are_named();
    let (_, outer) = forest.item_with_net(j)?;
    known.net(outer.spec, outer.net)
}

/// The item at an identity is one whose child net is at its end, and nothing holds work there.
fn sub_ends(standing: &Standing, j: &Ident) -> bool
    requires { MayStand standing.now }
    ensures { result ≡ (item_goes (state_of standing.now) CompleteSub j.now && at_output (state_of standing.now) j.now) }
{
    item_goes(standing, ItemEvent::CompleteSub, j)
        && net_at_output(&standing.known, &standing.forest, j)
}

/// Whether a person may start an item. It takes no memory.
pub fn may_start(standing: &Standing, j: &Ident, _who: &Name) -> bool
    requires { MayStand standing.now }
    ensures { TellsLeads standing.now (events.Start j.now _who.now) result }
{
    item_goes(standing, ItemEvent::Start, j)
}

/// A person starts an item, as is allowed. An `Err` says that no memory was left.
pub fn act_start(standing: &mut Standing, j: &Ident, who: &Name) -> Result<(), AllocError>
    requires stands { MayStand standing.old }
    requires leads { LeadsOn standing.old (events.Start j.now who.now) }
    ensures { OnOk result (IsDone standing.old (events.Start j.now who.now) standing.new) }
{
    let starter = who.copy()?;
    yw_steps::begin(&mut standing.forest, j, starter);
    Ok(())
}

/// Whether an item may be completed as one of an empty task. It takes no memory.
pub fn may_complete_empty(standing: &Standing, j: &Ident) -> bool
    requires { MayStand standing.now }
    ensures { TellsLeads standing.now (events.CompleteEmpty j.now) result }
{
    item_goes(standing, ItemEvent::CompleteEmpty, j)
}

/// An item of an empty task is completed, as is allowed. It takes no memory.
pub fn act_complete_empty(alloc: Global, standing: &mut Standing, j: &Ident)
    requires stands { MayStand standing.old }
    requires leads { LeadsOn standing.old (events.CompleteEmpty j.now) }
    ensures { IsDone standing.old (events.CompleteEmpty j.now) standing.new }
{
    yw_nest::complete_empty(alloc, &mut standing.forest, j);
}

/// Whether the child net of an item may begin. It takes no memory.
pub fn may_start_sub(standing: &Standing, j: &Ident) -> bool
    requires { MayStand standing.now }
    ensures { TellsLeads standing.now (events.StartSub j.now) result }
{
    item_goes(standing, ItemEvent::StartSub, j)
}

/// The child net of an item begins, as is allowed. An `Err` says that no memory was left.
pub fn act_start_sub(alloc: Global, standing: &mut Standing, j: &Ident) -> Result<(), AllocError>
    requires stands { MayStand standing.old }
    requires leads { LeadsOn standing.old (events.StartSub j.now) }
    ensures { OnOk result (IsDone standing.old (events.StartSub j.now) standing.new) }
{
    let Some(outer) = outer_net(&standing.known, &standing.forest, j) else {
        unreachable!();
    };
    yw_nest::start_sub(alloc, &mut standing.forest, outer.spec, j)
}

/// Whether the child net of an item may end: it is at its end. It takes no memory.
pub fn may_complete_sub(standing: &Standing, j: &Ident) -> bool
    requires { MayStand standing.now }
    ensures { TellsLeads standing.now (events.CompleteSub j.now) result }
{
    sub_ends(standing, j)
}

/// The child net of an item ends, as is allowed. An `Err` says that no memory was left.
pub fn act_complete_sub(alloc: Global, standing: &mut Standing, j: &Ident) -> Result<(), AllocError>
    requires stands { MayStand standing.old }
    requires leads { LeadsOn standing.old (events.CompleteSub j.now) }
    ensures { OnOk result (IsDone standing.old (events.CompleteSub j.now) standing.new) }
{
    let Some(outer) = outer_net(&standing.known, &standing.forest, j) else {
        unreachable!();
    };
    yw_nest::complete_sub(alloc, &mut standing.forest, outer.spec, j, NO_CHECKS)
}
