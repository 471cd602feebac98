// The reading of a text.
ghost use Rattle.std.specs.Prelude.{◌≡◌, ◌+◌, ◌<◌, ◌^◌, List, ℕ, take, Some, Err, IfOk};
ghost use Rattle.yw_judge.specs.Counts.{Reads};
ghost use Rattle.yw_judge.specs.Taken.{TakesAll, TakesSome};
ghost use Rattle.yw_judge.specs.declared.input.InputFault.TheVariants.{Memory, Unread};

use std::alloc::{AllocError, Global};
use yw_outside::{Failed, Source, new_piece, read_piece};

/// Why a text isn't read.
#[derive(Clone, Copy, Debug, PartialEq, Eq)]
pub enum InputFault {
    /// The source failed.
    Unread,
    /// No memory was left.
    Memory,
}

impl From<AllocError> for InputFault {
    ghost use Rattle.std.specs.Prelude.{◌≡◌};

    ghost from_gives = { λ _ fault. fault ≡ Memory };

    fn from(_fault: AllocError) -> InputFault {
        InputFault::Memory
    }
}

impl From<Failed> for InputFault {
    ghost use Rattle.std.specs.Prelude.{◌≡◌};

    ghost from_gives = { λ _ fault. fault ≡ Unread };

    fn from(_fault: Failed) -> InputFault {
        InputFault::Unread
    }
}

/// The bytes up to the end, or where there are more than the limit, one more than that. Reading ends there.
pub fn read_text<S: Source>(
    alloc: Global,
    limit: usize,
    source: &mut S,
) -> Result<Vec<u8>, InputFault>
    requires limit { limit < 2 ^ 32 }

    ensures ok { IfOk result (λ text. (bytes : List ℕ) → S.left source.old ≡ Some bytes
        → (text.items ≡ take (limit + 1) bytes) × TakesAll limit bytes (S.left source.new)) }
    ensures some { (bytes : List ℕ) → S.left source.old ≡ Some bytes
        → TakesSome limit bytes (S.left source.new) }
    ensures counts { Reads (S.faults source.old) (S.faults source.new) result }
{
    let mut piece = new_piece(alloc)?;
    let mut text = Vec::new(alloc);
    while text.len() <= limit {
        let count = read_piece(source, &mut piece, limit + 1 - text.len())?;
        if count == 0 {
            return Ok(text);
        }
        text.extend_from_slice(&piece[..count])?;
    }
    Ok(text)
}
