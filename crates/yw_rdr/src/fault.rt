// Why a rule isn't attached.
ghost use Rattle.std.specs.Prelude.{◌≡◌};
ghost use Rattle.yw_rdr.specs.declared.fault.RdrFault.TheVariants.{Memory};

use std::alloc::AllocError;

/// Why a rule isn't attached to a tree. The faults and their order are our own.
#[derive(Clone, Copy, Debug, PartialEq, Eq)]
pub enum RdrFault {
    /// The tree hasn't this node, or nothing stands at this side of it.
    UnknownPlace,
    /// A rule is attached there.
    PlaceTaken,
    /// The tree has as many rules as it may.
    Many,
    /// No memory was left.
    Memory,
}

impl From<AllocError> for RdrFault {
    ghost from_gives = { λ _ e. e ≡ Memory };

    fn from(_error: AllocError) -> RdrFault {
        RdrFault::Memory
    }
}
