// Why a step isn't done.
ghost use Rattle.std.specs.Prelude.{◌≡◌};
ghost use Rattle.yw_task.specs.declared.fault.StepFault.TheVariants.{Memory};

use std::alloc::AllocError;
use yw_state::Refusal;

/// Why a step isn't done.
#[derive(Debug, Drop)]
pub enum StepFault {
    /// The first rule that it breaks, of those that the call names, with its place.
    Refused(Refusal),
    /// No memory was left.
    Memory,
}

impl From<AllocError> for StepFault {
    ghost from_gives = { λ _ e. e ≡ Memory };

    fn from(_error: AllocError) -> StepFault {
        StepFault::Memory
    }
}
