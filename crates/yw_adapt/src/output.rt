// The output of a desk.
ghost use Rattle.std.specs.Prelude.{◌≡◌, ◌<◌, ◌≤◌, IsTrue, IfOk, OnOk, length};
ghost use Rattle.std.specs.Io.KnownBytes.{Keeps, WriteAppends};
ghost use Rattle.yw_adapt.specs.Calls.{Counted, Counts};
ghost use Rattle.yw_adapt.specs.Handed.{Handed};

use crate::calls::Calls;
use std::io::Write;
use yw_outside::Failed;

/// What takes bytes, as standard output does. It tells what it was handed, or it tells nothing. Each call counts itself,
/// and itself once more where it fails. Our own.
pub trait Output {
    ghost use Rattle.std.specs.Prelude.{◌≡◌, ◌≤◌, ◌<◌, List, ℕ, Bool, IsTrue, IfOk, OnOk, length};
    ghost use Rattle.std.specs.declared.option.Option.{Option};
    ghost use Rattle.std.specs.Io.KnownBytes.{Keeps, WriteAppends};
    ghost use Rattle.yw_adapt.specs.Calls.{Counts};
    ghost use Rattle.yw_adapt.specs.declared.calls.Calls.{Calls};

    /// The bytes that it was handed, where they are told.
    ghost contents: { Self → Option (List ℕ) };

    /// Whether it holds back none of them.
    ghost is_flushed: { Self → Bool };

    /// The calls that were made.
    ghost calls: { Self → Calls };

    /// Takes a prefix of the bytes, and answers how much.
    fn take(&mut self, bytes: &[u8]) -> Result<usize, Failed>
        requires { 0 < length bytes.now }
        ensures some { IfOk result (λ n. 0 < n) }
        ensures bound { IfOk result (λ n. n ≤ length bytes.now) }
        ensures bytes { WriteAppends (contents self.old) (contents self.new) result bytes.now }
        ensures counts { Counts (calls self.old) (calls self.new) result };

    /// Holds back no more of what it took.
    fn flush(&mut self) -> Result<(), Failed>
        ensures flushed { OnOk result (IsTrue (is_flushed self.new)) }
        ensures bytes { Keeps (contents self.old) (contents self.new) }
        ensures counts { Counts (calls self.old) (calls self.new) result };
}

/// Standard output, or another writer. Of a flush no contract says what it does, so here that is trusted.
#[derive(Drop)]
pub struct Writer<W> {
    inner: W,
    calls: Calls,
}

impl<W> Writer<W> {
    /// No call was made yet.
    pub fn new(inner: W) -> Writer<W>
        ensures { result ≡ record { inner = inner; calls = record { made = 0; failed = 0 } } }
    {
        Writer {
            inner,
            calls: Calls::none(),
        }
    }

    /// The writer.
    pub fn get_ref(&self) -> &W
        ensures { result.now ≡ self.now.inner }
    {
        &self.inner
    }

    /// The calls that were made.
    pub fn calls(&self) -> Calls
        ensures { result ≡ self.now.calls }
    {
        self.calls
    }
}

impl<W: Write> Output for Writer<W> {
    ghost use Rattle.std.specs.Prelude.{true};

    ghost contents = { λ writer. W.contents writer.inner };

    ghost is_flushed = { λ _. true };

    ghost calls = { λ writer. writer.calls };

    fn take(&mut self, bytes: &[u8]) -> Result<usize, Failed> {
        while !self.calls.are_full() {
            if let Some(count) = self.calls.moved(self.inner.write(bytes))? {
                return Ok(count);
            }
        }
        Err(self.calls.give_up())
    }

    fn flush(&mut self) -> Result<(), Failed> {
        while !self.calls.are_full() {
            if self.calls.tried(self.inner.flush())?.is_some() {
                return Ok(());
            }
        }
        Err(self.calls.give_up())
    }
}

/// Hands over all of the bytes, and flushes them.
pub fn hand<O: Output>(out: &mut O, bytes: &[u8]) -> Result<(), Failed>
    ensures handed { Handed (O.contents out.old) (O.contents out.new) result bytes.now }
    ensures flushed { OnOk result (IsTrue (O.is_flushed out.new)) }
    ensures counts { Counted (O.calls out.old).failed (O.calls out.new).failed result }
{
    let mut rest = bytes;
    while !rest.is_empty() {
        let count = out.take(rest)?;
        rest = &rest[count..];
    }
    out.flush()
}
