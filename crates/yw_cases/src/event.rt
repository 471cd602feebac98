// An event of any kind.
ghost use Rattle.std.specs.Prelude.{◌≡◌, IfOk, OnOk, false, true};
ghost use Rattle.yw_cases.specs.State.{MayStand};
ghost use Rattle.yw_cases.specs.Tried.{IsNumbered, TellsComputed, TellsNumbered};
ghost use Rattle.yw_cases.specs.Tried.{is_apart, is_numbered};
ghost use Rattle.yw_plain.specs.Plain.{keeps_plain};
ghost use Rattle.yw_standing.specs.State.{state_of};
ghost use Rattle.yw_standing.specs.Tried.{IsDone, LeadsOn, TellsLeads};
ghost use Rattle.yw_state.specs.declared.event.Event.TheVariants as events;
ghost use Rattle.yw_walk.specs.Computed.{IsComputedOf, is_computed};

use crate::adding::{act_add, may_add};
use crate::completing::{act_complete, may_complete};
use crate::entering::{act_enter, may_enter};
use crate::exiting::{act_exit, may_exit};
use crate::items::{
    act_complete_empty, act_complete_sub, act_start, act_start_sub, may_complete_empty,
    may_complete_sub, may_start, may_start_sub,
};
use crate::library::{act_person, may_person};
use crate::whole::{
    act_cancel, act_finish, act_launch, may_advance, may_cancel, may_finish, may_launch,
};
use std::alloc::{AllocError, Global};
use yw_deeds::{act_continue, act_suspend, may_continue, may_suspend};
use yw_standing::Standing;
use yw_state::Event;
use yw_walk::Computed;

/// Whether an event of which nothing is computed is allowed, so that it leads on. An `Err` says that no memory was left.
fn may_plainly(alloc: Global, standing: &Standing, event: &Event) -> Result<bool, AllocError>
    requires stands { MayStand standing.now }
    requires plain { keeps_plain event.now ≡ true }
    requires apart { is_apart event.now ≡ false }
    requires computed { is_computed event.now ≡ false }
    ensures { IfOk result (TellsLeads standing.now event.now) }
{
    match event {
        Event::Person { name, roles } => Ok(may_person(standing, name, roles)),
        Event::Start { item, who } => Ok(may_start(standing, item, who)),
        Event::Complete { item, out } => may_complete(alloc, standing, item, out),
        Event::Finish { case } => may_finish(alloc, standing, *case),
        Event::Cancel { case } => Ok(may_cancel(standing, *case)),
        Event::StartSub { item } => Ok(may_start_sub(standing, item)),
        Event::CompleteSub { item } => Ok(may_complete_sub(standing, item)),
        Event::CompleteEmpty { item } => Ok(may_complete_empty(standing, item)),
        Event::Suspend { at } => Ok(may_suspend(standing, at)),
        Event::Continue { at } => Ok(may_continue(standing, at)),
        Event::Advance { case } => Ok(may_advance(standing, *case)),
        _ => unreachable!(),
    }
}

/// The same, as an answer of what is computed of it.
fn may_else(
    alloc: Global,
    standing: &Standing,
    event: &Event,
) -> Result<Option<Computed>, AllocError>
    requires stands { MayStand standing.now }
    requires plain { keeps_plain event.now ≡ true }
    requires apart { is_apart event.now ≡ false }
    requires computed { is_computed event.now ≡ false }
    ensures { IfOk result (TellsComputed standing.now event.now) }
{
    if may_plainly(alloc, standing, event)? {
        return Ok(Some(Computed::Nothing));
    }
    Ok(None)
}

/// What is computed of an event that is allowed, so that it leads on; `None` where it leads nowhere. A load, a launch and an addition have calls of their
/// own. An `Err` says that no memory was left.
pub fn may(
    alloc: Global,
    standing: &Standing,
    event: &Event,
) -> Result<Option<Computed>, AllocError>
    requires stands { MayStand standing.now }
    requires plain { keeps_plain event.now ≡ true }
    requires apart { is_apart event.now ≡ false }
    ensures { IfOk result (TellsComputed standing.now event.now) }
{
    match event {
        Event::Enter {
            net,
            task,
            places,
            first,
            count,
        } => may_enter(alloc, standing, net, task, places, *first, *count),
        Event::Exit { net, task, places } => may_exit(alloc, standing, net, task, places),
        _ => may_else(alloc, standing, event),
    }
}

/// The number of a launch's specification or of an addition's task, where the event is allowed, so that it leads on; `None` where it leads nowhere. It
/// takes no memory.
pub fn may_numbered(standing: &Standing, event: &Event) -> Option<usize>
    requires stands { MayStand standing.now }
    requires numbered { is_numbered event.now ≡ true }
    ensures { TellsNumbered standing.now event.now result }
{
    match event {
        Event::Launch { case, spec, values } => may_launch(standing, *case, spec, values),
        Event::Add {
            net,
            task,
            value,
            number,
        } => may_add(standing, net, task, value, *number),
        _ => unreachable!(),
    }
}

/// Does an event that is allowed and of which nothing is computed. Nothing is tested. An `Err` says that no memory was left; what is kept then is
/// told nowhere.
fn act_plainly(alloc: Global, standing: &mut Standing, event: &Event) -> Result<(), AllocError>
    requires stands { MayStand standing.old }
    requires plain { keeps_plain event.now ≡ true }
    requires apart { is_apart event.now ≡ false }
    requires computed { is_computed event.now ≡ false }
    requires leads { LeadsOn standing.old event.now }
    ensures { OnOk result (IsDone standing.old event.now standing.new) }
{
    match event {
        Event::Person { name, roles } => act_person(standing, name, roles),
        Event::Start { item, who } => act_start(standing, item, who),
        Event::Complete { item, out } => act_complete(alloc, standing, item, out),
        Event::Finish { case } => act_finish(standing, *case),
        Event::Cancel { case } => act_cancel(standing, *case),
        Event::StartSub { item } => act_start_sub(alloc, standing, item),
        Event::CompleteSub { item } => act_complete_sub(alloc, standing, item),
        Event::CompleteEmpty { item } => {
            act_complete_empty(alloc, standing, item);
            Ok(())
        }
        Event::Suspend { at } => {
            act_suspend(standing, at);
            Ok(())
        }
        Event::Continue { at } => {
            act_continue(standing, at);
            Ok(())
        }
        Event::Advance { .. } => Ok(()),
        _ => unreachable!(),
    }
}

/// Does an event that is allowed, with what was computed of it: what is kept is then that after it. Nothing is tested. An `Err` says that no
/// memory was left; what is kept then is told nowhere.
pub fn act(
    alloc: Global,
    standing: &mut Standing,
    event: &Event,
    computed: Computed,
) -> Result<(), AllocError>
    requires stands { MayStand standing.old }
    requires plain { keeps_plain event.now ≡ true }
    requires apart { is_apart event.now ≡ false }
    requires leads { LeadsOn standing.old event.now }
    requires computed { IsComputedOf (state_of standing.old) event.now computed }
    ensures { OnOk result (IsDone standing.old event.now standing.new) }
{
    match event {
        Event::Enter {
            net,
            task,
            places,
            first,
            count,
        } => act_enter(alloc, standing, net, task, places, *first, *count, computed),
        Event::Exit { net, task, places } => {
            act_exit(standing, net, task, places, computed);
            Ok(())
        }
        _ => act_plainly(alloc, standing, event),
    }
}

/// Begins a case or adds an item, as is allowed, by the number of the specification or of the task. Nothing is tested, nor is a name looked up. An `Err`
/// says that no memory was left; what is kept then is told nowhere.
pub fn act_numbered(
    alloc: Global,
    standing: &mut Standing,
    event: &Event,
    number: usize,
) -> Result<(), AllocError>
    requires stands { MayStand standing.old }
    requires kind { is_numbered event.now ≡ true }
    requires leads { LeadsOn standing.old event.now }
    requires numbered { IsNumbered standing.old event.now number }
    ensures { OnOk result (IsDone standing.old event.now standing.new) }
{
    match event {
        Event::Launch { case, spec, values } => {
            act_launch(alloc, standing, *case, spec, values, number)
        }
        Event::Add {
            net,
            task,
            value,
            number: item,
        } => act_add(alloc, standing, net, task, value, *item, number),
        _ => unreachable!(),
    }
}
