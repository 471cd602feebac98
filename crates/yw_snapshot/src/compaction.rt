// One file is made of the other.
ghost use Rattle.std.specs.Prelude.{◌≡◌, ◌+◌, List, ℕ, IfOk, OnOk, Err, None, Some};
ghost use Rattle.yw_outside.specs.Since.{LeavesOnly};
ghost use Rattle.yw_outside.specs.declared.desk.File.{File};
ghost use Rattle.yw_journal.specs.Calls.{HasNoRoom, IsMadeOver, NonePending, Rewrites, StandsFor, made_journal};
ghost use Rattle.yw_journal.specs.Files.{number_of};
ghost use Rattle.yw_journal.specs.Journal.{IsBeforeOrMade, IsCurrent, IsReady, header_bytes, other_file};
ghost use Rattle.yw_journal.specs.Records.{IsFramedState};
ghost use Rattle.yw_snapshot.specs.Compacting.{CountsCompacting, ForCompaction, compacted, past_bounds};

use thiserror::Error;
use yw_journal::{AppendFault, Journal};
use yw_outside::{Desk, File};

const GREATEST: u64 = 1 << 62;

/// Why the files aren't compacted.
#[derive(Clone, Copy, Debug, Error, PartialEq, Eq)]
pub enum CompactFault {
    /// A call of the files failed.
    #[error("a call of the files failed")]
    Disk,
    /// The snapshot would end at this offset, past the limit.
    #[error("the snapshot would end at {0}, past the limit")]
    Full(u64),
    /// The next generation, or the number of entries held, would pass its bound, which stands at this offset of the file.
    #[error("file {0:?} passes a bound at byte {1}")]
    Damaged(File, u64),
}

// The other file.
fn other(file: File) -> File
    ensures { result ≡ other_file file }
{
    match file {
        File::A => File::B,
        File::B => File::A,
    }
}

// The place of the first bound that is passed.
fn bound_passed(old: &Journal) -> Option<u64>
    ensures { result ≡ past_bounds old.now }
{
    if old.generation >= GREATEST {
        return Some(5);
    }
    if old.number > GREATEST {
        return Some(13);
    }
    None
}

/// Makes the other file: the next generation, the number held, this snapshot and no entry. A crash at any moment leaves what was
/// held before, or the new file whole, and after `Ok` it leaves the new one. The old file keeps each byte. It takes no memory.
///
/// `Damaged` comes exactly where the next generation or the number held would pass 2^62, with the place of the first of them in
/// the current file. Then `Full` comes exactly where the snapshot would end past the limit. Both come before any call of the
/// desk. `Disk` comes only where a call of the files failed.
pub fn compact<D: Desk>(
    desk: &mut D,
    old: Journal,
    framed_state: &[u8],
) -> Result<Journal, CompactFault>
    requires ready { IsReady old }
    requires framed { (snapshot : List ℕ) × IsFramedState framed_state.now snapshot }
    requires current { StandsFor D.Desk old desk.old }
    requires settled { NonePending D.Desk desk.old }

    ensures journal { IfOk result (λ j. j ≡ made_journal (other_file old.file)
        (old.generation + 1) old.number framed_state.now old.limit) }
    ensures ready { IfOk result IsReady }
    ensures rewrites { OnOk result (Rewrites D.Desk (other_file old.file)
        (IsMadeOver (header_bytes (old.generation + 1) old.number) framed_state.now)
        desk.old desk.new) }
    ensures current { IfOk result (λ j. ForCompaction D.Desk old framed_state.now desk.old
        (λ c snapshot. IsCurrent j (compacted c snapshot) (D.state desk.new))) }

    // A crash at any moment leaves what was held before, or the new file.
    ensures any_moment { ForCompaction D.Desk old framed_state.now desk.old (λ c snapshot.
        LeavesOnly D.Desk desk.old desk.new
        (IsBeforeOrMade (other_file old.file) c (compacted c snapshot) (D.state desk.old))) }

    ensures faults { CountsCompacting result (D.disk_faults desk.old) (D.disk_faults desk.new) }
    ensures say_faults { D.say_faults desk.new ≡ D.say_faults desk.old }
    ensures tells { D.tells desk.new ≡ D.tells desk.old }
    ensures full { (n : ℕ) → result ≡ Err (CompactFault.Full n)
        → HasNoRoom old.limit 21 framed_state.now n × (desk.new ≡ desk.old) }
    ensures fits { (n : ℕ) → past_bounds old ≡ None → HasNoRoom old.limit 21 framed_state.now n
        → result ≡ Err (CompactFault.Full n) }
    ensures damaged { (f : File) (place : ℕ) → result ≡ Err (CompactFault.Damaged f place)
        → (past_bounds old ≡ Some place) × (f ≡ old.file) × (desk.new ≡ desk.old) }
    ensures past { (place : ℕ) → past_bounds old ≡ Some place
        → result ≡ Err (CompactFault.Damaged old.file place) }
{
    if let Some(place) = bound_passed(&old) {
        return Err(CompactFault::Damaged(old.file, place));
    }
    let file = other(old.file);
    let generation = old.generation + 1;
    match Journal::make(desk, file, generation, old.number, framed_state, old.limit) {
        Ok(journal) => Ok(journal),
        Err(AppendFault::Disk) => Err(CompactFault::Disk),
        Err(AppendFault::Full(end)) => Err(CompactFault::Full(end)),
    }
}
