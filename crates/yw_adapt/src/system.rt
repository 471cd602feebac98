// The system that a desk of files stands on.
use crate::calls::Calls;
use std::path::Path;
use yw_outside::Failed;

/// A system with files in folders. It tells what an open file holds, or it tells nothing. Each call counts itself,
/// and itself once more where it fails. A read or a write of a piece moves some of its first bytes, at least one. Our own.
pub trait System {
    ghost use Rattle.std.specs.Prelude.{◌≡◌, ◌≤◌, ◌<◌, ◌+◌, ◌^◌, List, ℕ, Bool, IsTrue, IfOk, OnOk, length, take, drop};
    ghost use Rattle.std.specs.declared.option.Option.{Option};
    ghost use Rattle.std.specs.Option.{ForSome};
    ghost use Rattle.std.specs.Path.{path_bytes};
    ghost use Rattle.yw_adapt.specs.Calls.{Counts};
    ghost use Rattle.yw_adapt.specs.Files.{TornAt};
    ghost use Rattle.yw_adapt.specs.declared.calls.Calls.{Calls};

    /// An open file.
    type File: Drop;

    /// The path by which a file was opened, where it is told.
    ghost path: { Self.File → Option (List ℕ) };

    /// What a read of a file gives, where it is told.
    ghost holds: { Self.File → Option (List ℕ) };

    /// What a crash leaves of a file that it leaves, where it is told.
    ghost synced: { Self.File → Option (List ℕ) };

    /// Whether a crash leaves a file in the folder with this path.
    ghost is_kept: { Self.File → List ℕ → Bool };

    /// Whether this opening of a file has its exclusive lock.
    ghost is_locked: { Self.File → Bool };

    /// The calls that were made.
    ghost calls: { Self → Calls };

    /// Opens a file to read and write, and makes it where it isn't there.
    fn open(&mut self, at: Path<'_>) -> Result<Self::File, Failed>
        ensures path { IfOk result (λ file. ForSome (path file) (λ p. p ≡ path_bytes at.entry)) }
        ensures counts { Counts (calls self.old) (calls self.new) result };

    /// Takes the file's exclusive lock, and holds it until the file is closed. It fails where another opening of the file
    /// has it.
    fn lock(&mut self, file: &mut Self::File) -> Result<(), Failed>
        ensures locked { OnOk result (IsTrue (is_locked file.new)) }
        ensures path { path file.new ≡ path file.old }
        ensures counts { Counts (calls self.old) (calls self.new) result };

    /// How many bytes the file has. It fails where they are more than 2^63 - 1.
    fn len(&mut self, file: &Self::File) -> Result<u64, Failed>
        ensures value { ForSome (holds file.now) (λ held. IfOk result (λ n. n ≡ length held)) }
        ensures bound { IfOk result (λ n. n < 2 ^ 63) }
        ensures counts { Counts (calls self.old) (calls self.new) result };

    /// Reads a prefix of the piece that stands at this offset, and answers how much. It fails at the file's end.
    fn read_at(&mut self, file: &Self::File, at: u64, buf: &mut [u8]) -> Result<usize, Failed>
        requires { 0 < length buf.old }
        ensures some { IfOk result (λ n. 0 < n) }
        ensures bound { IfOk result (λ n. n ≤ length buf.new) }
        ensures bytes { ForSome (holds file.now) (λ held. IfOk result (λ n. (at + n < 2 ^ 63) × (take n buf.new ≡ take n (drop at held)))) }
        ensures counts { Counts (calls self.old) (calls self.new) result };

    /// Writes a prefix of the bytes at this offset, and answers how much. Whatever it answers, no other bytes of the
    /// file change.
    fn write_at(&mut self, file: &mut Self::File, at: u64, bytes: &[u8]) -> Result<usize, Failed>
        requires some { 0 < length bytes.now }
        requires fits { at + length bytes.now < 2 ^ 63 }
        ensures some { IfOk result (λ n. 0 < n) }
        ensures bound { IfOk result (λ n. n ≤ length bytes.now) }
        ensures bytes { ForSome (holds file.new) (λ held. IfOk result (λ n. take n (drop at held) ≡ take n bytes.now)) }
        ensures rest { TornAt at (length bytes.now) (holds file.old) (holds file.new) }
        ensures path { path file.new ≡ path file.old }
        ensures kept { is_kept file.new ≡ is_kept file.old }
        ensures locked { is_locked file.new ≡ is_locked file.old }
        ensures counts { Counts (calls self.old) (calls self.new) result };

    /// Syncs what the file holds and its length to the device.
    fn sync(&mut self, file: &mut Self::File) -> Result<(), Failed>
        ensures synced { OnOk result (synced file.new ≡ holds file.old) }
        ensures holds { holds file.new ≡ holds file.old }
        ensures path { path file.new ≡ path file.old }
        ensures kept { is_kept file.new ≡ is_kept file.old }
        ensures locked { is_locked file.new ≡ is_locked file.old }
        ensures counts { Counts (calls self.old) (calls self.new) result };

    /// Syncs the folder with this path, so that a crash leaves the file in it.
    fn keep(&mut self, file: &mut Self::File, folder: Path<'_>) -> Result<(), Failed>
        ensures kept { OnOk result (IsTrue (is_kept file.new (path_bytes folder.entry))) }
        ensures synced { synced file.new ≡ synced file.old }
        ensures holds { holds file.new ≡ holds file.old }
        ensures path { path file.new ≡ path file.old }
        ensures locked { is_locked file.new ≡ is_locked file.old }
        ensures counts { Counts (calls self.old) (calls self.new) result };
}
