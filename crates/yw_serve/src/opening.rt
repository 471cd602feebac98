// The opening of the files, before any line is read.
ghost use Rattle.std.specs.Prelude.{◌≡◌, ◌≤◌, ◌^◌, ◌⊎◌, ℕ, IsTrue, IfOk, OnOk, IfSome, IsSome, if◌then◌else◌, Err, None, Some, length, slice_index};
ghost use Rattle.yw_journal.specs.Calls.{Leaves, NonePending};
ghost use Rattle.yw_journal.specs.Files.{count_of, greatest};
ghost use Rattle.yw_outside.specs.declared.image.Image.{Image};
ghost use Rattle.yw_outside.specs.Causes.{HasCause};
ghost use Rattle.yw_outside.specs.Moments.{IsSettled};
ghost use Rattle.yw_serve.specs.Damage.{heads_damage, IsDamagedNow};
ghost use Rattle.yw_serve.specs.Desks.{Stands, KeepsCounts};
ghost use Rattle.yw_serve.specs.Opening.{DamageIsAnswered, HasOpenCause, HeldIsAnswered, IsChosen, IsHeadRead, IsOpenedAt, IsSized, IsUnsynced, LeftAfterSyncs, OnDamage, OnlyLooked, OpenFaults, OpensBy};

use crate::header::{Head, header_fault, read_head, u64_in};
use crate::opening_entries::read_entries;
use crate::server::Server;
use std::alloc::{AllocError, Global};
use thiserror::Error;
use yw_engine::Engine;
use yw_journal::{AppendFault, Journal};
use yw_office::Office;
use yw_outside::{Desk, Failed, File};

/// Why a server isn't started.
#[derive(Clone, Copy, Debug, Error, PartialEq, Eq)]
pub enum StartFault {
    /// A call of the desk's files failed.
    #[error("a call of the files failed")]
    Disk,
    /// The files hold no state: this one has its first damage at this offset.
    #[error("file {0:?} is damaged at byte {1}")]
    Damaged(File, u64),
    /// No memory was left.
    #[error("no memory was left")]
    Memory,
}

impl From<Failed> for StartFault {
    ghost use Rattle.std.specs.Prelude.{◌≡◌};
    ghost use Rattle.yw_serve.specs.declared.opening.StartFault.TheVariants.{Disk};

    ghost from_gives = { λ _ e. e ≡ Disk };

    fn from(_: Failed) -> StartFault {
        StartFault::Disk
    }
}

impl From<AllocError> for StartFault {
    ghost use Rattle.std.specs.Prelude.{◌≡◌};
    ghost use Rattle.yw_serve.specs.declared.opening.StartFault.TheVariants.{Memory};

    ghost from_gives = { λ _ e. e ≡ Memory };

    fn from(_: AllocError) -> StartFault {
        StartFault::Memory
    }
}

/// Syncs both files, so that a crash leaves of them what a read gives.
fn sync_both<D: Desk>(desk: &mut D) -> Result<(), Failed>
    ensures settled { OnOk result (IsSettled (D.state desk.new) (D.may_leave desk.new)) }
    ensures looked { OnlyLooked D.Desk desk.old desk.new }
    ensures cause { HasCause (D.disk_faults desk.old) (D.disk_faults desk.new) result }
{
    desk.sync(File::A)?;
    desk.sync(File::B)
}

/// After a sound header of file A: a live file B, or a snapshot in file A.
fn later_fault(has_snapshot: bool, b: &Option<Head>) -> Option<(File, u64)>
    ensures live { IsSome b.now → result ≡ Some (File.B, 0) }
    ensures snapshot { b.now ≡ None → result ≡ (if has_snapshot then Some (File.A, 21) else None) }
{
    if b.is_some() {
        Some((File::B, 0))
    } else if has_snapshot {
        Some((File::A, 21))
    } else {
        None
    }
}

/// The first damage of a live file A's header, then a live file B, then a snapshot in file A.
fn heads_fault(a: &Option<Head>, b: &Option<Head>) -> Option<(File, u64)>
    requires { IfSome a.now (λ head. slice_index head.bytes 0 ≡ 1) }
    ensures damage { (i : Image) → IsHeadRead i.a a.now → IsHeadRead i.b b.now
        → result ≡ heads_damage i }
    ensures counted { result ≡ None → IfSome a.now (λ head. count_of head.bytes ≤ greatest) }
{
    let Some(head) = a else {
        return later_fault(false, b);
    };
    match header_fault(&head.bytes) {
        Some(place) => Some((File::A, place)),
        None => later_fault(u64_in(&head.bytes, 21) != 0, b),
    }
}

/// Looks at the headers of both files. It answers the head of a live file A, or `None` where no file is live.
fn choose<D: Desk>(desk: &mut D) -> Result<Option<Head>, StartFault>
    ensures chosen { IsTrue (D.tells desk.old) → IfOk result (IsChosen (D.state desk.old)) }
    ensures size { IfOk result (λ found. IfSome found IsSized) }
    ensures counted { IfOk result (λ found. IfSome found (λ head. count_of head.bytes ≤ greatest)) }
    ensures looked { OnlyLooked D.Desk desk.old desk.new }
    ensures cause { HasOpenCause D.Desk result (λ f place. IsTrue (D.tells desk.old)
        → heads_damage (D.state desk.old) ≡ Some (f, place)) desk.old desk.new }
{
    let a = read_head(desk, File::A)?;
    let b = read_head(desk, File::B)?;
    match heads_fault(&a, &b) {
        Some((f, place)) => Err(StartFault::Damaged(f, place)),
        None => Ok(a),
    }
}

/// Goes on in file A, whose head this is.
fn resume<D: Desk>(
    alloc: Global,
    limit: u64,
    piece: &mut [u8],
    desk: &mut D,
    head: &Head,
) -> Result<Server, StartFault>
    requires limit { limit ≤ 2 ^ 62 }
    requires room { 5 ≤ length piece.old }
    requires size { IsSized head.now }
    requires counted { count_of head.now.bytes ≤ greatest }
    requires chosen { IsTrue (D.tells desk.old) → IsChosen (D.state desk.old) (Some head.now) }
    requires settled { NonePending D.Desk desk.old }

    ensures opened { IfOk result (λ server. IsOpenedAt D.Desk server desk.old desk.new) }
    ensures stands { IfOk result (λ server. Stands D.Desk server.journal desk.new) }
    ensures limited { IfOk result (λ server. server.journal.limit ≡ limit) }
    ensures file { IfOk result (λ server. server.journal.file ≡ File.A) }
    ensures looked { OnlyLooked D.Desk desk.old desk.new }
    ensures cause { HasOpenCause D.Desk result (λ f place. IsTrue (D.tells desk.old)
        → IsDamagedNow (D.state desk.old) f place) desk.old desk.new }
{
    let mut engine = Engine::opening(alloc);
    let tail = read_entries(alloc, piece, desk, head.len, &mut engine)?;
    let journal = Journal {
        file: File::A,
        generation: u64_in(&head.bytes, 5),
        end: tail.gate + 1,
        limit,
        number: u64_in(&head.bytes, 13) + tail.records,
    };
    let office = Office::of(alloc, engine)?;
    Ok(Server::new(alloc, office, journal))
}

/// Makes file A, where no file is live.
fn begin<D: Desk>(alloc: Global, limit: u64, desk: &mut D) -> Result<Server, StartFault>
    requires some { 64 ≤ limit }
    requires limit { limit ≤ 2 ^ 62 }
    requires chosen { IsTrue (D.tells desk.old) → IsChosen (D.state desk.old) None }
    requires settled { NonePending D.Desk desk.old }

    ensures opened { IfOk result (λ server. IsOpenedAt D.Desk server desk.old desk.new) }
    ensures stands { IfOk result (λ server. Stands D.Desk server.journal desk.new) }
    ensures limited { IfOk result (λ server. server.journal.limit ≡ limit) }
    ensures file { IfOk result (λ server. server.journal.file ≡ File.A) }
    ensures any_moment { Leaves D.Desk LeftAfterSyncs desk.old desk.new }
    ensures counts { KeepsCounts D.Desk desk.old desk.new }
    ensures say_faults { D.say_faults desk.new ≡ D.say_faults desk.old }
    ensures cause { HasOpenCause D.Desk result (λ f place. ⊥) desk.old desk.new }
{
    match Journal::make(desk, File::A, 1, 0, &[0; 9], limit) {
        Ok(journal) => {
            let office = Office::opening(alloc);
            Ok(Server::new(alloc, office, journal))
        }
        Err(AppendFault::Disk) => Err(StartFault::Disk),
        Err(AppendFault::Full(_)) => unreachable!(),
    }
}

impl Server {
    /// Starts a server on the files of a desk: syncs both, looks at their headers, makes file A where none is live, and else
    /// reads its entries one after another. Lines are then answered one by one. No entry that is taken ends past the limit.
    ///
    /// `Damaged` names the first damage, and comes only where the synced files hold no state that is read, and there unless
    /// a call failed or no memory was left; not one byte is changed then. `Disk` comes only where a call of the files failed,
    /// and `Memory` where no memory was left. Up to the syncs a crash leaves what it might have left before. After them it
    /// leaves the files as they are; or, where no file is live, none that is, or file A begun with generation 1, number 0 and
    /// no record. The memory that it takes is that of what the files hold, of the work lists and of the longest entry. The
    /// entries are read through the piece, so that one read serves as many as it has room for; what it had is lost.
    pub fn start<D: Desk>(
        alloc: Global,
        limit: u64,
        piece: &mut [u8],
        desk: &mut D,
    ) -> Result<Server, StartFault>
        requires some { 64 ≤ limit }
        requires room { 5 ≤ length piece.old }
        requires limit { limit ≤ 2 ^ 62 }

        // At Ok the files held this state and hold it, and the journal stands for them.
        ensures opened { IfOk result (λ server. IsOpenedAt D.Desk server desk.old desk.new) }
        ensures stands { IfOk result (λ server. Stands D.Desk server.journal desk.new) }
        ensures limited { IfOk result (λ server. server.journal.limit ≡ limit) }
        ensures file { IfOk result (λ server. server.journal.file ≡ File.A) }

        // A crash before the syncs leaves what it might have left at the start, and after them the files as they are, or the
        // file being begun.
        ensures any_moment { IsTrue (D.tells desk.old) → OpensBy D.Desk desk.old desk.new
            ⊎ ((result ≡ Err StartFault.Disk) × IsUnsynced D.Desk desk.old desk.new) }
        ensures said { IsTrue (D.tells desk.old)
            → (D.state desk.new).said ≡ (D.state desk.old).said }

        ensures counts { KeepsCounts D.Desk desk.old desk.new }
        ensures say_faults { D.say_faults desk.new ≡ D.say_faults desk.old }

        // Each other answer has its cause.
        ensures faults { OpenFaults D.Desk result desk.old desk.new }
        ensures damaged { IsTrue (D.tells desk.old)
            → OnDamage result (IsDamagedNow (D.state desk.old)) }
        ensures unchanged { OnDamage result (λ f place. D.state desk.new ≡ D.state desk.old) }
        ensures settled { OnDamage result (λ f place.
            IsSettled (D.state desk.new) (D.may_leave desk.new)) }

        // A state that is held is the one answered, and a damage is the one answered; they exclude each other.
        ensures held { IsTrue (D.tells desk.old) → HeldIsAnswered (D.state desk.old) result }
        ensures first { IsTrue (D.tells desk.old) → DamageIsAnswered (D.state desk.old) result }
    {
        sync_both(desk)?;
        match choose(desk)? {
            Some(head) => resume(alloc, limit, piece, desk, &head),
            None => begin(alloc, limit, desk),
        }
    }
}
