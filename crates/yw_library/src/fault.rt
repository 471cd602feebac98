// Why a specification isn't loaded.
ghost use Rattle.std.specs.Prelude.{◌≡◌};
ghost use Rattle.yw_library.specs.declared.fault.LibraryFault.TheVariants.{Memory};

use std::alloc::AllocError;
use yw_state::Refusal;

/// Why a specification isn't loaded.
#[derive(Debug, Drop)]
pub enum LibraryFault {
    /// The first rule that the text breaks.
    Refused(Refusal),
    /// No memory was left.
    Memory,
}

impl From<AllocError> for LibraryFault {
    ghost from_gives = { λ _ e. e ≡ Memory };

    fn from(_error: AllocError) -> LibraryFault {
        LibraryFault::Memory
    }
}
