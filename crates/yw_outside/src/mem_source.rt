// A source in memory that fails where it is told to.
ghost use Rattle.std.specs.Prelude.{◌≡◌, ◌≤◌, Some, vec_len, drop};

use crate::source::copy_prefix;
use crate::{Failed, Source};

/// Gives its bytes in pieces, and fails at the reads that it is told.
#[derive(Drop)]
pub struct MemSource {
    bytes: Vec<u8>,
    at: usize,
    most: usize,
    fail: Vec<u64>,
    reads: u64,
    piece: usize,
    faults: u64,
    ghost within: { at ≤ vec_len bytes },
    ghost some: { 1 ≤ most },
}

impl MemSource {
    ghost use Rattle.yw_outside.specs.MemSource.{left_of, piece_of, faults_of, most_of, failing_reads, reads_of};

    /// Gives these bytes, at most `most` a read. The reads with the numbers in `fail`, from 1, fail.
    pub fn new(bytes: Vec<u8>, most: usize, fail: Vec<u64>) -> MemSource
        requires { 1 ≤ most }
        ensures left { left_of result ≡ Some bytes.items }
        ensures piece { piece_of result ≡ 0 }
        ensures faults { faults_of result ≡ 0 }
        ensures fail { failing_reads result ≡ fail.items }
        ensures reads { reads_of result ≡ 0 }
        ensures most { most_of result ≡ most }
    {
        MemSource {
            bytes,
            at: 0,
            most,
            fail,
            reads: 0,
            piece: 0,
            faults: 0,
        }
    }
}

impl Source for MemSource {
    ghost use Rattle.std.specs.Prelude.{◌≡◌, ◌<◌, ◌≤◌, ◌++◌, ◌↔◌, [], List, ℕ, length, take, drop, IfOk, OnErr, IsErr, Contains, is_some, Some};
    ghost use Rattle.std.specs.Io.{ReadsAtMost};
    ghost use Rattle.std.specs.Io.KnownBytes.{ReadConsumes};
    ghost use Rattle.yw_outside.specs.Causes.{HasCause};
    ghost use Rattle.yw_outside.specs.Counts.{one_more};
    ghost use Rattle.yw_outside.specs.MemSource.{left_of, piece_of, faults_of, most_of, failing_reads, reads_of};

    ghost left = { left_of };

    ghost piece = { piece_of };

    ghost faults = { faults_of };

    /// Fails exactly where its number is among those told.
    fn read(&mut self, buf: &mut [u8]) -> Result<usize, Failed>
        ensures bound { ReadsAtMost result buf.new }
        ensures bytes { ReadConsumes (left_of self.old) (left_of self.new) result buf.new }
        ensures tells { is_some (left_of self.new) ≡ is_some (left_of self.old) }
        ensures piece { IfOk result (λ n. piece_of self.new ≡ n) }
        ensures piece_err { OnErr result (piece_of self.new ≡ piece_of self.old) }
        ensures cause { HasCause (faults_of self.old) (faults_of self.new) result }

        ensures fails { IsErr result ↔ Contains (failing_reads self.old) (one_more (reads_of self.old)) }
        ensures most { IfOk result (λ n. n ≤ most_of self.old) }
        ensures reads { reads_of self.new ≡ one_more (reads_of self.old) }
        ensures same_fail { failing_reads self.new ≡ failing_reads self.old }
        ensures same_most { most_of self.new ≡ most_of self.old }
    {
        self.reads = self.reads.saturating_add(1);
        if self.fail.contains(&self.reads) {
            self.faults = self.faults.saturating_add(1);
            return Err(Failed);
        }
        let count = copy_prefix(&self.bytes[self.at..], self.most, buf);
        self.at += count;
        self.piece = count;
        Ok(count)
    }
}
