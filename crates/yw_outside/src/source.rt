// A source of bytes.
ghost use Rattle.std.specs.Prelude.{◌≡◌, ◌<◌, ◌≤◌, ◌++◌, [], List, ℕ, length, take, drop, IfOk, OnErr, is_some};
ghost use Rattle.std.specs.declared.option.Option.{Option};
ghost use Rattle.std.specs.Io.{ReadsAtMost};
ghost use Rattle.std.specs.Io.KnownBytes.{ReadConsumes};
ghost use Rattle.yw_outside.specs.Causes.{HasCause};

/// A call failed outside.
#[derive(Clone, Copy, Debug, PartialEq, Eq)]
pub struct Failed;

/// Where the server's input comes from.
pub trait Source {
    /// The bytes still to come, where it tells them.
    ghost left: { Self → Option (List ℕ) };

    /// How many bytes the last read with `Ok` gave, and 0 before the first.
    ghost piece: { Self → ℕ };

    /// How often it has failed.
    ghost faults: { Self → ℕ };

    /// Gives the next bytes, and how many they are: none only at the end or where there is no room.
    /// `Failed` comes only where the count of faults rose, and takes nothing.
    fn read(&mut self, buf: &mut [u8]) -> Result<usize, Failed>
        ensures bound { ReadsAtMost result buf.new }
        ensures bytes { ReadConsumes (left self.old) (left self.new) result buf.new }
        ensures tells { is_some (left self.new) ≡ is_some (left self.old) }
        ensures piece { IfOk result (λ n. piece self.new ≡ n) }
        ensures piece_err { OnErr result (piece self.new ≡ piece self.old) }
        ensures cause { HasCause (faults self.old) (faults self.new) result };
}

/// Copies the first bytes, at most so many, and answers how many.
pub(crate) fn copy_prefix(bytes: &[u8], most: usize, buf: &mut [u8]) -> usize
    requires { 1 ≤ most }
    ensures within { result ≤ length bytes.now }
    ensures fits { result ≤ length buf.new }
    ensures prefix { bytes.now ≡ take result buf.new ++ drop result bytes.now }
    ensures end { result ≡ 0 → 0 < length buf.new → bytes.now ≡ [] }
    ensures most { result ≤ most }
{
    let count = bytes.len().min(most).min(buf.len());
    buf[..count].copy_from_slice(&bytes[..count]);
    count
}
