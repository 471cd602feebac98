// The loop over what comes of itself.
ghost use Rattle.std.specs.Prelude.{IfOk, OnOk};
ghost use Rattle.yw_settle.specs.Settled.{IsSettled};

use crate::Machine;
use std::alloc::AllocError;
use yw_state::EventList;

/// The most events that come of themselves behind a command's own.
const BUDGET: u16 = 4096;

/// Takes what comes of itself in the case until it is quiet, or until 4,096 events came, and adds these events to the list. It says
/// whether the case is quiet then: behind the last event of the budget the case is looked at once more. An `Err` says that no memory
/// was left; what the machine and the list hold then is told nowhere.
pub fn settle<M: Machine>(
    machine: &mut M,
    case: u64,
    events: &mut EventList,
) -> Result<bool, AllocError>
    requires { M.is_ready machine.old }
    ensures settled { IfOk result (IsSettled M.passes (M.state machine.old) case events.old (M.state machine.new) events.new) }
    ensures ready { OnOk result (M.is_ready machine.new) }
{
    for _taken in 0..BUDGET {
        match machine.step(case)? {
            Some(event) => events.push(event)?,
            None => return Ok(true),
        }
    }
    machine.is_quiet(case)
}
