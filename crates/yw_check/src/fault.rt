// Why a specification isn't accepted.
ghost use Rattle.std.specs.Prelude.{◌≡◌};
ghost use Rattle.yw_check.specs.declared.fault.CheckFault.TheVariants.{Memory};

use std::alloc::AllocError;
use yw_base::Text;

/// Why a specification isn't accepted.
#[derive(Debug, Drop)]
pub enum CheckFault {
    /// The number, 1 to 12, of the first check that fails, and its text: `V`, the number, the net and what is
    /// at fault, with a space between each two, as in `V3 main x`.
    Broken(u32, Text),
    /// No memory was left.
    Memory,
}

impl From<AllocError> for CheckFault {
    ghost from_gives = { λ _ e. e ≡ Memory };

    fn from(_error: AllocError) -> CheckFault {
        CheckFault::Memory
    }
}
