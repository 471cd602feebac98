// A person completes an item.
ghost use Rattle.std.specs.Prelude.{◌≡◌, IfOk, OnOk};
ghost use Rattle.yw_cases.specs.Completing.{can_make};
ghost use Rattle.yw_cases.specs.State.{MayStand};
ghost use Rattle.yw_standing.specs.Tried.{IsDone, LeadsOn, TellsLeads};
ghost use Rattle.yw_state.specs.Words.{is_executing};
ghost use Rattle.yw_state.specs.declared.event.Event.TheVariants as events;

use crate::held::is_held;
use crate::rows::{copy_row, row_fits};
use crate::whole::NO_CHECKS;
use std::alloc::{AllocError, Global};
use yw_base::{Ident, Row};
use yw_known::item_here;
use yw_spec::Task;
use yw_standing::Standing;
use yw_state::Stage;
use yw_task::items_in;
use yw_tree::Node;

/// Somebody is at work on it.
fn is_executing(stage: Stage) -> bool
    ensures { result ≡ is_executing stage }
{
    match stage {
        Stage::Executing => true,
        Stage::Ready | Stage::Completed => false,
    }
}

/// A person is at work on the item, and these values are of the sorts that its task makes.
fn can_make(item: &Node, task: &Task, out: &Row) -> bool
    ensures { result ≡ can_make item.now task.now out.now }
{
    is_executing(item.stage) && item.who.is_some() && row_fits(task.outs.as_slice(), out.as_slice())
}

/// Whether an item may be completed with these values: nothing holds work there, a person is at work on it, they are of the sorts that its task makes,
/// and each of the task's assignments is defined then. An `Err` says that no memory was left.
pub fn may_complete(
    alloc: Global,
    standing: &Standing,
    j: &Ident,
    out: &Row,
) -> Result<bool, AllocError>
    requires { MayStand standing.now }
    ensures { IfOk result (TellsLeads standing.now (events.Complete j.now out.now)) }
{
    if is_held(standing, j) {
        return Ok(false);
    }
    let Some(here) = item_here(&standing.known, &standing.forest, j) else {
        return Ok(false);
    };
    if !can_make(here.item, here.task, out) {
        return Ok(false);
    }
    let net = here.outer.state;
    let items = items_in(net, here.item.task);
    yw_steps::are_defined(alloc, here.task, items, &net.vals, j, out)
}

/// The person who started an item completes it with these values, as is allowed. An `Err` says that no memory was left.
pub fn act_complete(
    alloc: Global,
    standing: &mut Standing,
    j: &Ident,
    out: &Row,
) -> Result<(), AllocError>
    requires stands { MayStand standing.old }
    requires leads { LeadsOn standing.old (events.Complete j.now out.now) }
    ensures { OnOk result (IsDone standing.old (events.Complete j.now out.now) standing.new) }
{
    let made = copy_row(alloc, out)?;
    yw_steps::finish_at(&mut standing.forest, j, made, NO_CHECKS);
    Ok(())
}
