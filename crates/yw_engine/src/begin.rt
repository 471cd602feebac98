// A command's own event, and what comes of itself behind it.
ghost use Rattle.std.specs.Prelude.{◌≡◌, IfOk, false, true};
ghost use Rattle.yw_built.specs.Built.{is_built};
ghost use Rattle.yw_cases.specs.State.{MayStand};
ghost use Rattle.yw_cases.specs.Tried.{IsNumbered, is_apart};
ghost use Rattle.yw_engine.specs.Decides.{Answers, IsDone};
ghost use Rattle.yw_standing.specs.State.{state_of};
ghost use Rattle.yw_standing.specs.Tried.{LeadsOn};
ghost use Rattle.yw_standing.specs.declared.standing.Standing.{Standing};
ghost use Rattle.yw_state.specs.Automatic.{case_of};
ghost use Rattle.yw_walk.specs.Computed.{IsComputedOf, is_computed};

use crate::Decided;
use crate::work::Work;
use std::alloc::AllocError;
use yw_settle::entry_of;
use yw_state::Event;
use yw_walk::{Computed, Found};

/// The event that a launch or an addition asks for, with the number of its specification or of its task.
#[derive(Drop)]
pub struct Numbered {
    /// The event.
    pub event: Event,
    /// The number.
    pub number: usize,
}

/// What comes of itself in the case of an event that is done, behind it. An `Err` says that no memory was left; what is held then is
/// told nowhere.
pub fn behind(work: &mut Work, event: Event, case: Option<u64>) -> Result<Decided, AllocError>
    requires stands { MayStand work.old.standing }
    requires built { is_built event ≡ true }
    requires case { case_of event ≡ case }
    ensures { IfOk result (λ d. (old : Standing) → IsDone old event work.old.standing → Answers old event d work.new.standing) }
{
    let entry = entry_of(work.alloc, work, event, case)?;
    Ok(Decided {
        events: entry.events,
        quiet: entry.quiet,
    })
}

/// Does the event that a command asks for, with what was computed of it, and then what comes of itself in its case. An `Err` says that no memory
/// was left; what is held then is told nowhere.
pub fn begin_found(work: &mut Work, found: Found, case: Option<u64>) -> Result<Decided, AllocError>
    requires stands { MayStand work.old.standing }
    requires built { is_built found.event ≡ true }
    requires case { case_of found.event ≡ case }
    requires apart { is_apart found.event ≡ false }
    requires leads { LeadsOn work.old.standing found.event }
    requires computed { IsComputedOf (state_of work.old.standing) found.event found.computed }
    ensures { IfOk result (λ d. Answers work.old.standing found.event d work.new.standing) }
{
    let Found { event, computed } = found;
    work.take(&event, computed)?;
    behind(work, event, case)
}

/// The same of an event of which nothing is computed.
pub fn begin(work: &mut Work, event: Event, case: Option<u64>) -> Result<Decided, AllocError>
    requires stands { MayStand work.old.standing }
    requires built { is_built event ≡ true }
    requires case { case_of event ≡ case }
    requires apart { is_apart event ≡ false }
    requires leads { LeadsOn work.old.standing event }
    requires plain { is_computed event ≡ false }
    ensures { IfOk result (λ d. Answers work.old.standing event d work.new.standing) }
{
    work.take(&event, Computed::Nothing)?;
    behind(work, event, case)
}

/// The same of a launch and of an addition, by the number that its rules have found.
pub fn begin_numbered(
    work: &mut Work,
    asked: Numbered,
    case: Option<u64>,
) -> Result<Decided, AllocError>
    requires stands { MayStand work.old.standing }
    requires built { is_built asked.event ≡ true }
    requires case { case_of asked.event ≡ case }
    requires leads { LeadsOn work.old.standing asked.event }
    requires numbered { IsNumbered work.old.standing asked.event asked.number }
    ensures { IfOk result (λ d. Answers work.old.standing asked.event d work.new.standing) }
{
    let Numbered { event, number } = asked;
    work.take_numbered(&event, number)?;
    behind(work, event, case)
}
