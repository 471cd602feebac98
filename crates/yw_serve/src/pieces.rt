// Lines out of pieces of the input.
ghost use Rattle.std.specs.Prelude.{◌≡◌, ◌+◌, ◌<◌, ◌≤◌, ◌∷◌, ◌++◌, length, MatchOption, OnOk, OnErr, vec_len};
ghost use Rattle.yw_lines.specs.Lines.{newline, HasNoNewline};
ghost use Rattle.yw_serve.specs.Kept.{kept_of};

use memchr::memchr;
use std::alloc::AllocError;
use yw_wire::LINE_LIMIT;

/// How much of a line is kept, in bytes: one more than a line may have.
pub const MOST_KEPT: usize = LINE_LIMIT + 1;

/// The bytes before the first newline, and those after it.
pub fn split_line(bytes: &[u8]) -> Option<(&[u8], &[u8])>
    ensures { MatchOption result (HasNoNewline bytes.now)
        (λ parts. HasNoNewline parts.0.now × (bytes.now ≡ parts.0.now ++ newline ∷ parts.1.now)) }
{
    let at = memchr(b'\n', bytes)?;
    Some((&bytes[..at], &bytes[at + 1..]))
}

/// Adds to what is kept of a line, which of one that is too long is one byte more than a line may have. An
/// `Err` says that no memory was left, and changes nothing.
pub fn keep(line: &mut Vec<u8>, part: &[u8]) -> Result<(), AllocError>
    requires { vec_len line.old ≤ MOST_KEPT }
    ensures ok { OnOk result (line.new.items ≡ kept_of (line.old.items ++ part.now)) }
    ensures err { OnErr result (line.new.items ≡ line.old.items) }
    ensures bound { vec_len line.new ≤ MOST_KEPT }
{
    let count = part.len().min(MOST_KEPT - line.len());
    line.extend_from_slice(&part[..count])
}
