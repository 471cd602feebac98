// A source that never fails.
ghost use Rattle.std.specs.Prelude.{◌≡◌, ◌≤◌, Some, vec_len, drop};

use crate::source::copy_prefix;
use crate::{Failed, Source};

/// Holds its bytes and never fails. Its count of faults is the constant 0.
#[derive(Drop)]
pub struct NeverSource {
    bytes: Vec<u8>,
    at: usize,
    piece: usize,
    ghost within: { at ≤ vec_len bytes },
}

impl NeverSource {
    ghost use Rattle.yw_outside.specs.NeverSource.{left_of, piece_of, faults_of};

    /// Gives these bytes, as many a read as there is room for.
    pub fn new(bytes: Vec<u8>) -> NeverSource
        ensures left { left_of result ≡ Some bytes.items }
        ensures piece { piece_of result ≡ 0 }
        ensures faults { faults_of result ≡ 0 }
    {
        NeverSource {
            bytes,
            at: 0,
            piece: 0,
        }
    }
}

impl Source for NeverSource {
    ghost use Rattle.std.specs.Prelude.{◌≡◌, ◌<◌, ◌≤◌, ◌++◌, [], List, ℕ, length, take, drop, IfOk, IsOk, OnErr, is_some, Some};
    ghost use Rattle.std.specs.Io.{ReadsAtMost};
    ghost use Rattle.std.specs.Io.KnownBytes.{ReadConsumes};
    ghost use Rattle.yw_outside.specs.Causes.{HasCause};
    ghost use Rattle.yw_outside.specs.NeverSource.{left_of, piece_of, faults_of};

    ghost left = { left_of };

    ghost piece = { piece_of };

    ghost faults = { faults_of };

    /// Never fails.
    fn read(&mut self, buf: &mut [u8]) -> Result<usize, Failed>
        ensures bound { ReadsAtMost result buf.new }
        ensures bytes { ReadConsumes (left_of self.old) (left_of self.new) result buf.new }
        ensures tells { is_some (left_of self.new) ≡ is_some (left_of self.old) }
        ensures piece { IfOk result (λ n. piece_of self.new ≡ n) }
        ensures piece_err { OnErr result (piece_of self.new ≡ piece_of self.old) }
        ensures cause { HasCause (faults_of self.old) (faults_of self.new) result }

        ensures never { IsOk result }
    {
        let count = copy_prefix(&self.bytes[self.at..], usize::MAX, buf);
        self.at += count;
        self.piece = count;
        Ok(count)
    }
}
