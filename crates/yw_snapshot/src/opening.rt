// The pair of files, opened.
ghost use Rattle.std.specs.Prelude.{◌≡◌, ◌≤◌, ◌+◌, ◌^◌, ◌⊎◌, ℕ, IsTrue, IfOk, OnOk, IfSome, MatchOption, Some, Err, length, take, drop};
ghost use Rattle.yw_journal.specs.Calls.{Leaves, NonePending};
ghost use Rattle.yw_journal.specs.Files.{NoneIsLive, SnapshotIsCut};
ghost use Rattle.yw_outside.specs.Causes.{HasCause};
ghost use Rattle.yw_outside.specs.Image.{file_in};
ghost use Rattle.yw_outside.specs.Moments.{IsSettled};
ghost use Rattle.yw_outside.specs.declared.image.Image.{Image};
ghost use Rattle.yw_snapshot.specs.Heads.{HasOpenCause, IsChoice, IsCounted, IsSized, OnlyLooked};
ghost use Rattle.yw_snapshot.specs.Opening.{IsAtFirst, IsBegun, IsFoundIn, IsFrontIn, IsFrontInRange, IsOpened, IsUnsynced, LeftAfterSyncs, OnDamage, OpensBy, ShowsDamage, StartsIn};
ghost use Rattle.yw_snapshot.specs.Reading.{IsInRange};
ghost use Rattle.yw_snapshot.specs.Window.{IsRoomy};

use crate::choosing::{Chosen, OpenFault, choose};
use crate::header::u64_in;
use crate::window::Window;
use std::alloc::Global;
use yw_base::Bytes;
use yw_journal::{AppendFault, Journal};
use yw_outside::{Desk, Failed, File};

/// The pair of files, opened: the file that is current, its snapshot, and how far its records are read. `advance` reads
/// one record after another.
#[derive(Drop)]
pub struct Opening {
    /// The live file of higher generation.
    pub file: File,
    /// That file's generation, 1 to 2^62.
    pub generation: u64,
    /// How many entries are held up to the gate that is read next: those of the snapshot and the records read so far.
    pub number: u64,
    /// The snapshot's bytes.
    pub snapshot: Bytes,
    /// The offset of the gate that is read next, 29 to 2^63 - 1.
    pub at: u64,
    /// Whether the last call found the gate at `at`, and that it is closed.
    pub done: bool,
    /// The offset of the gate before the record that was read last.
    pub gate: u64,
    /// How many entries the snapshot stands for, at most 2^62.
    pub(crate) count: u64,
    /// The offset of the gate after the snapshot.
    pub(crate) first: u64,
    /// How many bytes the file has.
    pub(crate) len: u64,
    /// How many bytes the record has that was read last.
    pub(crate) size: usize,
    pub(crate) window: Window,
    pub(crate) alloc: Global,
}

/// The file that is opened, and what its header says.
#[derive(Clone, Copy)]
pub struct Front {
    pub file: File,
    pub len: u64,
    pub generation: u64,
    pub count: u64,
    /// How many bytes the snapshot has.
    pub size: u64,
}

/// Syncs both files, so that a crash leaves of them what a read gives.
fn sync_both<D: Desk>(desk: &mut D) -> Result<(), Failed>
    ensures settled { OnOk result (IsSettled (D.state desk.new) (D.may_leave desk.new)) }
    ensures looked { OnlyLooked D.Desk desk.old desk.new }
    ensures cause { HasCause (D.disk_faults desk.old) (D.disk_faults desk.new) result }
{
    desk.sync(File::A)?;
    desk.sync(File::B)
}

/// What the header of the chosen file says, or `None` where the snapshot passes the end.
fn front_of(chosen: &Chosen) -> Option<Front>
    requires size { IsSized chosen.now.head }
    requires counted { IsCounted chosen.now.head }
    ensures front { (i : Image) → IsChoice i (Some chosen.now) → MatchOption result
        (SnapshotIsCut (file_in chosen.now.file i)) (λ front. IsFrontIn front i) }
    ensures range { IfSome result IsFrontInRange }
{
    let len = chosen.head.len;
    let size = u64_in(&chosen.head.bytes, 21);
    if size > len - 29 {
        return None;
    }
    Some(Front {
        file: chosen.file,
        len,
        generation: u64_in(&chosen.head.bytes, 5),
        count: u64_in(&chosen.head.bytes, 13),
        size,
    })
}

/// Makes file A, where no file is live.
fn begin_file<D: Desk>(desk: &mut D, limit: u64) -> Result<(), OpenFault>
    requires some { 64 ≤ limit }
    requires small { limit ≤ 2 ^ 62 }
    requires none { IsTrue (D.tells desk.old) → NoneIsLive (D.state desk.old) }
    requires settled { NonePending D.Desk desk.old }
    ensures begun { OnOk result (IsTrue (D.tells desk.old)
        → IsBegun (D.state desk.old) (D.state desk.new)) }
    ensures settled { OnOk result (NonePending D.Desk desk.new) }
    ensures any_moment { Leaves D.Desk LeftAfterSyncs desk.old desk.new }
    ensures tells { D.tells desk.new ≡ D.tells desk.old }
    ensures say_faults { D.say_faults desk.new ≡ D.say_faults desk.old }
    ensures later { D.disk_faults desk.old ≤ D.disk_faults desk.new }
    ensures cause { HasOpenCause D.Desk result (λ f place. ⊥) desk.old desk.new }
{
    match Journal::make(desk, File::A, 1, 0, &[0; 9], limit) {
        Ok(_) => Ok(()),
        Err(AppendFault::Disk) => Err(OpenFault::Disk),
        Err(AppendFault::Full(_)) => unreachable!(),
    }
}

/// Makes file A, where no file is live, and answers what its header says then.
fn begin<D: Desk>(desk: &mut D, limit: u64) -> Result<Front, OpenFault>
    requires some { 64 ≤ limit }
    requires small { limit ≤ 2 ^ 62 }
    requires none { IsTrue (D.tells desk.old) → NoneIsLive (D.state desk.old) }
    requires settled { NonePending D.Desk desk.old }
    ensures front { IfOk result (λ front. IsTrue (D.tells desk.old)
        → IsFoundIn front (D.state desk.old) (D.state desk.new)) }
    ensures range { IfOk result IsFrontInRange }
    ensures settled { OnOk result (NonePending D.Desk desk.new) }
    ensures any_moment { Leaves D.Desk LeftAfterSyncs desk.old desk.new }
    ensures tells { D.tells desk.new ≡ D.tells desk.old }
    ensures say_faults { D.say_faults desk.new ≡ D.say_faults desk.old }
    ensures later { D.disk_faults desk.old ≤ D.disk_faults desk.new }
    ensures cause { HasOpenCause D.Desk result (λ f place. ⊥) desk.old desk.new }
{
    begin_file(desk, limit)?;
    let len = desk.len(File::A)?;
    Ok(Front {
        file: File::A,
        len: len.max(30),
        generation: 1,
        count: 0,
        size: 0,
    })
}

/// Chooses the file that is opened, or makes file A where none is live.
fn find_front<D: Desk>(desk: &mut D, limit: u64) -> Result<Front, OpenFault>
    requires some { 64 ≤ limit }
    requires small { limit ≤ 2 ^ 62 }
    requires settled { NonePending D.Desk desk.old }
    ensures front { IfOk result (λ front. IsTrue (D.tells desk.old)
        → IsFoundIn front (D.state desk.old) (D.state desk.new)) }
    ensures range { IfOk result IsFrontInRange }
    ensures settled { OnOk result (NonePending D.Desk desk.new) }
    ensures any_moment { Leaves D.Desk LeftAfterSyncs desk.old desk.new }
    ensures damaged { OnDamage result (λ f place. OnlyLooked D.Desk desk.old desk.new) }
    ensures tells { D.tells desk.new ≡ D.tells desk.old }
    ensures say_faults { D.say_faults desk.new ≡ D.say_faults desk.old }
    ensures later { D.disk_faults desk.old ≤ D.disk_faults desk.new }
    ensures cause { HasOpenCause D.Desk result (λ f place. IsTrue (D.tells desk.old)
        → ShowsDamage (D.state desk.old) f place) desk.old desk.new }
{
    match choose(desk)? {
        Some(chosen) => match front_of(&chosen) {
            Some(front) => Ok(front),
            None => Err(OpenFault::Damaged(chosen.file, 21)),
        },
        None => begin(desk, limit),
    }
}

/// So many bytes of a file from an offset on.
fn bytes_at<D: Desk>(
    alloc: Global,
    desk: &mut D,
    f: File,
    at: u64,
    size: u64,
) -> Result<Bytes, OpenFault>
    requires within { IsTrue (D.tells desk.old)
        → at + size ≤ length (file_in f (D.state desk.old)) }
    ensures bytes { IfOk result (λ bytes. IsTrue (D.tells desk.old)
        → bytes ≡ take size (drop at (file_in f (D.state desk.old)))) }
    ensures looked { OnlyLooked D.Desk desk.old desk.new }
    ensures cause { HasOpenCause D.Desk result (λ f place. ⊥) desk.old desk.new }
{
    let mut bytes = vec![in alloc; 0u8; size as usize]?;
    desk.read(f, at, &mut bytes)?;
    Ok(Bytes::from_vec(bytes))
}

/// Reads the snapshot, and stands before the first record.
fn open_front<D: Desk>(
    alloc: Global,
    desk: &mut D,
    front: &Front,
    window: Window,
) -> Result<Opening, OpenFault>
    requires range { IsFrontInRange front.now }
    requires front { IsTrue (D.tells desk.old) → IsFrontIn front.now (D.state desk.old) }
    requires roomy { IsRoomy window }
    requires none { window.count ≡ 0 }
    ensures stands { IfOk result (λ o. IsTrue (D.tells desk.old)
        → StartsIn o (D.state desk.old)) }
    ensures range { IfOk result IsInRange }
    ensures first { IfOk result IsAtFirst }
    ensures looked { OnlyLooked D.Desk desk.old desk.new }
    ensures cause { HasOpenCause D.Desk result (λ f place. ⊥) desk.old desk.new }
{
    let snapshot = bytes_at(alloc, desk, front.file, 29, front.size)?;
    let first = 29 + front.size;
    Ok(Opening {
        file: front.file,
        generation: front.generation,
        number: front.count,
        snapshot,
        at: first,
        done: false,
        gate: first,
        count: front.count,
        first,
        len: front.len,
        size: 0,
        window,
        alloc,
    })
}

/// Opens the pair of files: syncs both, chooses the live one of higher generation, makes file A where none is live, and reads
/// the snapshot. The records are read then, by `advance` or `next`.
///
/// `Damaged` names the first damage that the headers and the length of the snapshot show, and no byte is changed then. `Disk`
/// comes only where a call of the files failed, and `Memory` where no memory was left. Up to the syncs a crash leaves what it
/// might have left before. After them it leaves the files as they are; or, where no file is live, none that is, or file A
/// begun with generation 1, number 0 and no record. It takes the memory of the snapshot and of a piece that is read at once.
pub fn open_pair<D: Desk>(alloc: Global, desk: &mut D, limit: u64) -> Result<Opening, OpenFault>
    requires some { 64 ≤ limit }
    requires small { limit ≤ 2 ^ 62 }

    // At Ok it stands before the first record.
    ensures opened { IfOk result (λ o. IsTrue (D.tells desk.old)
        → IsOpened o (D.state desk.old) (D.state desk.new)) }
    ensures range { IfOk result IsInRange }
    ensures first { IfOk result IsAtFirst }
    ensures settled { OnOk result (NonePending D.Desk desk.new) }

    // A crash before the syncs leaves what it might have left at the start, and after them the files as they are, or file A
    // being begun.
    ensures any_moment { IsTrue (D.tells desk.old) → OpensBy D.Desk desk.old desk.new
        ⊎ ((result ≡ Err OpenFault.Disk) × IsUnsynced D.Desk desk.old desk.new) }
    ensures said { IsTrue (D.tells desk.old)
        → (D.state desk.new).said ≡ (D.state desk.old).said }

    // Each other answer has its cause.
    ensures cause { HasOpenCause D.Desk result (λ f place. IsTrue (D.tells desk.old)
        → ShowsDamage (D.state desk.old) f place) desk.old desk.new }
    ensures unchanged { OnDamage result (λ f place. D.state desk.new ≡ D.state desk.old) }
    ensures damaged_settled { OnDamage result (λ f place.
        IsSettled (D.state desk.new) (D.may_leave desk.new)) }
    ensures tells { D.tells desk.new ≡ D.tells desk.old }
    ensures later { D.disk_faults desk.old ≤ D.disk_faults desk.new }
    ensures say_faults { D.say_faults desk.new ≡ D.say_faults desk.old }
{
    sync_both(desk)?;
    let window = Window::new(alloc)?;
    let front = find_front(desk, limit)?;
    open_front(alloc, desk, &front, window)
}
