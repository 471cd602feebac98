// Why a line isn't read.
use std::alloc::AllocError;
use yw_state::Rule;

/// Why a line isn't read as a command or a query: the first of these, in this order. Their names are our own.
#[derive(Clone, Copy, Debug, PartialEq, Eq)]
pub enum WireFault {
    /// The line has more than 1,048,576 bytes.
    LineTooLong,
    /// The line isn't UTF-8, or `serde_json` refuses it for another cause than memory.
    NotJson,
    /// The word under `cmd` is one of the seventeen, and isn't among those built.
    NotBuilt,
    /// The line is JSON of another shape: it is no object, or none of the words stands under `cmd`, or a field of
    /// the word is missing, unknown or of a wrong kind.
    NotCommand,
    /// No memory was left.
    Memory,
}

impl WireFault {
    ghost use Rattle.std.specs.Prelude.{◌≡◌};
    ghost use Rattle.yw_wire.specs.Faults.{rule_of};

    /// The rule that the line breaks, and `None` where memory ran out.
    pub fn rule(self) -> Option<Rule>
        ensures { result ≡ rule_of self }
    {
        match self {
            WireFault::LineTooLong => Some(Rule::LineTooLong),
            WireFault::NotJson => Some(Rule::NotJson),
            WireFault::NotBuilt => Some(Rule::NotBuilt),
            WireFault::NotCommand => Some(Rule::NotCommand),
            WireFault::Memory => None,
        }
    }
}

impl From<AllocError> for WireFault {
    ghost use Rattle.std.specs.Prelude.{◌≡◌};
    ghost use Rattle.yw_wire.specs.declared.fault.WireFault.TheVariants.{Memory};

    ghost from_gives = { λ _ fault. fault ≡ Memory };

    fn from(_fault: AllocError) -> WireFault {
        WireFault::Memory
    }
}

impl From<FieldFault> for WireFault {
    ghost use Rattle.std.specs.Prelude.{◌≡◌};
    ghost use Rattle.yw_wire.specs.Faults.{line_fault};

    ghost from_gives = { λ fault line. line ≡ line_fault fault };

    fn from(fault: FieldFault) -> WireFault {
        match fault {
            FieldFault::Kind => WireFault::NotCommand,
            FieldFault::Memory => WireFault::Memory,
        }
    }
}

/// Why a field isn't read.
#[derive(Clone, Copy, Debug, PartialEq, Eq)]
pub(crate) enum FieldFault {
    /// It is missing, or its value is of another kind.
    Kind,
    /// No memory was left.
    Memory,
}

impl From<AllocError> for FieldFault {
    ghost use Rattle.std.specs.Prelude.{◌≡◌};
    ghost use Rattle.yw_wire.specs.declared.fault.FieldFault.TheVariants.{Memory};

    ghost from_gives = { λ _ fault. fault ≡ Memory };

    fn from(_fault: AllocError) -> FieldFault {
        FieldFault::Memory
    }
}
