// The live file of higher generation.
ghost use Rattle.std.specs.Prelude.{◌≡◌, ◌⊎◌, ℕ, List, IsTrue, IfOk, IfSome, None, Some, Err, slice_index};
ghost use Rattle.yw_journal.specs.Files.{choice, header_damage, higher};
ghost use Rattle.yw_outside.specs.declared.image.Image.{Image};
ghost use Rattle.yw_snapshot.specs.Heads.{HasOpenCause, HigherIs, IsChoice, IsCounted, IsHeadRead, IsSized, OnlyLooked};

use crate::header::{Head, header_fault, read_head, u64_in};
use std::alloc::AllocError;
use thiserror::Error;
use yw_outside::{Desk, Failed, File};

/// Why the files aren't opened.
#[derive(Clone, Copy, Debug, Error, PartialEq, Eq)]
pub enum OpenFault {
    /// A call of the desk's files failed.
    #[error("a call of the files failed")]
    Disk,
    /// The files hold no state: this one has its first damage at this offset.
    #[error("file {0:?} is damaged at byte {1}")]
    Damaged(File, u64),
    /// No memory was left.
    #[error("no memory was left")]
    Memory,
}

impl From<Failed> for OpenFault {
    ghost use Rattle.std.specs.Prelude.{◌≡◌};
    ghost use Rattle.yw_snapshot.specs.declared.choosing.OpenFault.TheVariants.{Disk};

    ghost from_gives = { λ _ e. e ≡ Disk };

    fn from(_: Failed) -> OpenFault {
        OpenFault::Disk
    }
}

impl From<AllocError> for OpenFault {
    ghost use Rattle.std.specs.Prelude.{◌≡◌};
    ghost use Rattle.yw_snapshot.specs.declared.choosing.OpenFault.TheVariants.{Memory};

    ghost from_gives = { λ _ e. e ≡ Memory };

    fn from(_: AllocError) -> OpenFault {
        OpenFault::Memory
    }
}

/// The live file of higher generation, and its head.
#[derive(Clone, Copy)]
pub struct Chosen {
    pub file: File,
    pub head: Head,
}

// The damage that the header of a live file shows.
fn fault_of(head: &Option<Head>) -> Option<u64>
    requires { IfSome head.now (λ head. slice_index head.bytes 0 ≡ 1) }
    ensures damage { (file : List ℕ) → IsHeadRead file head.now → result ≡ header_damage file }
    ensures counted { result ≡ None → IfSome head.now IsCounted }
{
    match head {
        Some(head) => header_fault(&head.bytes),
        None => None,
    }
}

// Of two files whose headers are sound.
fn higher_of(a: &Option<Head>, b: &Option<Head>) -> Result<Option<Chosen>, u64>
    ensures none { (i : Image) → IsHeadRead i.a a.now → IsHeadRead i.b b.now
        → IfOk result (HigherIs i) }
    ensures err { (i : Image) → IsHeadRead i.a a.now → IsHeadRead i.b b.now
        → (place : ℕ) → result ≡ Err place → higher i.a i.b ≡ Err (File.B, place) }
    ensures of_these { IfOk result (λ found. IfSome found (λ c.
        (a.now ≡ Some c.head) ⊎ (b.now ≡ Some c.head))) }
{
    match (a, b) {
        (Some(a), Some(b)) => {
            let first = u64_in(&a.bytes, 5);
            let second = u64_in(&b.bytes, 5);
            if first == second {
                Err(5)
            } else if second < first {
                Ok(Some(Chosen {
                    file: File::A,
                    head: *a,
                }))
            } else {
                Ok(Some(Chosen {
                    file: File::B,
                    head: *b,
                }))
            }
        }
        (Some(a), None) => Ok(Some(Chosen {
            file: File::A,
            head: *a,
        })),
        (None, Some(b)) => Ok(Some(Chosen {
            file: File::B,
            head: *b,
        })),
        (None, None) => Ok(None),
    }
}

/// Looks at the headers of both files, and answers the live one of higher generation, or `None` where none is live.
/// `Damaged` names the first damage that they show: the magic, the generation or the count of a live file A, then those of a
/// live file B, then the generation of file B where both have the same. `Disk` comes only where a call of the files failed.
/// It takes no memory.
pub fn choose<D: Desk>(desk: &mut D) -> Result<Option<Chosen>, OpenFault>
    ensures chosen { IsTrue (D.tells desk.old) → IfOk result (IsChoice (D.state desk.old)) }
    ensures size { IfOk result (λ found. IfSome found (λ c. IsSized c.head)) }
    ensures counted { IfOk result (λ found. IfSome found (λ c. IsCounted c.head)) }
    ensures looked { OnlyLooked D.Desk desk.old desk.new }
    ensures cause { HasOpenCause D.Desk result (λ f place. IsTrue (D.tells desk.old)
        → choice (D.state desk.old) ≡ Err (f, place)) desk.old desk.new }
{
    let a = read_head(desk, File::A)?;
    let b = read_head(desk, File::B)?;
    if let Some(place) = fault_of(&a) {
        return Err(OpenFault::Damaged(File::A, place));
    }
    if let Some(place) = fault_of(&b) {
        return Err(OpenFault::Damaged(File::B, place));
    }
    match higher_of(&a, &b) {
        Ok(found) => Ok(found),
        Err(place) => Err(OpenFault::Damaged(File::B, place)),
    }
}
