// Standard input as a source.
ghost use Rattle.std.specs.Prelude.{◌≡◌};

use crate::calls::Calls;
use std::io::Read;
use yw_outside::{Failed, Source};

/// Standard input, or another reader. It doesn't tell what is still to come.
#[derive(Drop)]
pub struct StdSource<R> {
    inner: R,
    piece: usize,
    calls: Calls,
}

impl<R> StdSource<R> {
    ghost use Rattle.yw_adapt.specs.StdSource.{inner_of, piece_of, faults_of};

    /// A source over a reader. It takes no memory.
    pub fn new(inner: R) -> StdSource<R>
        ensures inner { inner_of result ≡ inner }
        ensures piece { piece_of result ≡ 0 }
        ensures faults { faults_of result ≡ 0 }
    {
        StdSource {
            inner,
            piece: 0,
            calls: Calls::none(),
        }
    }
}

impl<R: Read> Source for StdSource<R> {
    ghost use Rattle.std.specs.Prelude.{◌≡◌, None, IfOk, OnErr};
    ghost use Rattle.std.specs.Io.{ReadsAtMost};
    ghost use Rattle.std.specs.Io.KnownBytes.{ReadConsumes};
    ghost use Rattle.yw_outside.specs.Causes.{HasCause};
    ghost use Rattle.yw_adapt.specs.Calls.{Counts};
    ghost use Rattle.yw_adapt.specs.StdSource.{inner_of, piece_of, calls_of, faults_of};

    ghost left = { λ _. None };

    ghost piece = { piece_of };

    ghost faults = { faults_of };

    /// Gives the next bytes of the reader, and fails where that does. Each call of the reader is counted, and each failure.
    fn read(&mut self, buf: &mut [u8]) -> Result<usize, Failed>
        ensures bound { ReadsAtMost result buf.new }
        ensures bytes { ReadConsumes None None result buf.new }
        ensures given { ReadConsumes (R.remaining (inner_of self.old)) (R.remaining (inner_of self.new)) result buf.new }
        ensures piece { IfOk result (λ n. piece_of self.new ≡ n) }
        ensures piece_err { OnErr result (piece_of self.new ≡ piece_of self.old) }
        ensures counts { Counts (calls_of self.old) (calls_of self.new) result }
        ensures cause { HasCause (faults_of self.old) (faults_of self.new) result }
    {
        while !self.calls.are_full() {
            if let Some(count) = self.calls.tried(self.inner.read(buf))? {
                self.piece = count;
                return Ok(count);
            }
        }
        Err(self.calls.give_up())
    }
}
