// What is decided, and why nothing is done.
ghost use Rattle.std.specs.Prelude.{◌≡◌};
ghost use Rattle.yw_engine.specs.declared.fault.EngineFault.TheVariants.{Memory};

use std::alloc::AllocError;
use yw_state::{EventList, Refusal};

/// What an accepted command does.
#[derive(Debug, Drop)]
pub struct Decided {
    /// The command's own event, and after it what came of itself, at most 4,096 events. They are the command's entry.
    pub events: EventList,
    /// Nothing more comes of itself in the event's case. It is so too where the event has no case.
    pub quiet: bool,
}

/// Why an engine does nothing.
#[derive(Debug, Drop)]
pub enum EngineFault {
    /// A rule is broken: the first one. Nothing has changed.
    Refused(Refusal),
    /// No memory was left. What the engine holds is told no longer, and it does nothing more.
    Memory,
    /// No memory was left in an earlier call.
    Spent,
}

impl From<AllocError> for EngineFault {
    ghost from_gives = { λ _ fault. fault ≡ Memory };

    fn from(_error: AllocError) -> EngineFault {
        EngineFault::Memory
    }
}
