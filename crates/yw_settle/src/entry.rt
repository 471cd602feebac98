// A command's own event, and what comes of itself behind it.
ghost use Rattle.std.specs.Prelude.{◌≡◌, ◌∷◌, true, IfOk, OnOk};
ghost use Rattle.std.specs.List.{list_all};
ghost use Rattle.yw_settle.specs.Settled.{AnswersWith};
ghost use Rattle.yw_state.specs.Automatic.{case_of};

use crate::{Machine, settle};
use std::alloc::{AllocError, Global};
use yw_state::{Event, EventList};

/// What an accepted command does.
#[derive(Debug, Drop)]
pub struct Entry {
    /// The command's own event, and after it what came of itself, at most 4,096 events.
    pub events: EventList,
    /// Nothing more comes of itself in the event's case. It is so too where the event has no case.
    pub quiet: bool,
}

/// The entry that begins with an event which the machine has done. The case is that of the event; what comes of itself in it is taken
/// until it is quiet or the budget is spent. The entry may answer each command that breaks no rule and asks for this event. An `Err`
/// says that no memory was left; what the machine holds then is told nowhere.
pub fn entry_of<M: Machine>(
    alloc: Global,
    machine: &mut M,
    first: Event,
    case: Option<u64>,
) -> Result<Entry, AllocError>
    requires ready { M.is_ready machine.old }
    requires case { case_of first ≡ case }
    requires passes { M.passes first ≡ true }
    ensures answers { IfOk result (AnswersWith first (M.state machine.old) (M.state machine.new)) }
    ensures pass { IfOk result (λ entry. list_all M.passes entry.events ≡ true) }
    ensures ready { OnOk result (M.is_ready machine.new) }
{
    let mut events = EventList::new(alloc);
    events.push(first)?;
    let quiet = match case {
        Some(case) => settle(machine, case, &mut events)?,
        None => true,
    };
    Ok(Entry { events, quiet })
}
