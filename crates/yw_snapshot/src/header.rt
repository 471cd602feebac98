// The head of a file: its header, as far as a snapshot's length, and the gate after an empty snapshot.
ghost use Rattle.std.specs.Prelude.{◌≡◌, ◌≤◌, ◌+◌, IsTrue, IfOk, IfSome, None, Some, slice_index};
ghost use Rattle.yw_journal.specs.Files.{count_of, greatest, header_damage, u64_at};
ghost use Rattle.yw_outside.specs.Causes.{HasCause};
ghost use Rattle.yw_outside.specs.Image.{file_in};
ghost use Rattle.yw_snapshot.specs.Heads.{IsHeadRead, IsSized, OnlyLooked};

use yw_outside::{Desk, Failed, File};

const HEAD: usize = 30;

const GREATEST: u64 = 1 << 62;

/// The length of a live file and its first bytes.
#[derive(Clone, Copy)]
pub struct Head {
    pub len: u64,
    pub bytes: [u8; HEAD],
}

/// The head of a file, or `None` where the file isn't live: it has fewer than 30 bytes, or its first gate is
/// closed.
pub fn read_head<D: Desk>(desk: &mut D, f: File) -> Result<Option<Head>, Failed>
    ensures head { IsTrue (D.tells desk.old)
        → IfOk result (IsHeadRead (file_in f (D.state desk.old))) }
    ensures size { IfOk result (λ found. IfSome found IsSized) }
    ensures gate { IfOk result (λ found. IfSome found (λ head. slice_index head.bytes 0 ≡ 1)) }
    ensures looked { OnlyLooked D.Desk desk.old desk.new }
    ensures cause { HasCause (D.disk_faults desk.old) (D.disk_faults desk.new) result }
{
    let len = desk.len(f)?;
    if len < HEAD as u64 {
        return Ok(None);
    }
    let mut bytes = [0; HEAD];
    desk.read(f, 0, &mut bytes)?;
    if bytes[0] != 1 {
        return Ok(None);
    }
    Ok(Some(Head { len, bytes }))
}

/// The number in the eight bytes at this offset.
pub fn u64_in(bytes: &[u8; HEAD], at: usize) -> u64
    requires { at + 8 ≤ 30 }
    ensures { result ≡ u64_at at bytes.now }
{
    let mut field = [0; 8];
    field.copy_from_slice(&bytes[at..at + 8]);
    u64::from_be_bytes(field)
}

/// The offset of the first damage that a live file's header shows: of the magic, the generation or the count.
pub fn header_fault(bytes: &[u8; HEAD]) -> Option<u64>
    requires { slice_index bytes.now 0 ≡ 1 }
    ensures damage { result ≡ header_damage bytes.now }
    ensures counted { result ≡ None → count_of bytes.now ≤ greatest }
{
    if &bytes[1..5] != b"YWJ1".as_slice() {
        return Some(1);
    }
    let generation = u64_in(bytes, 5);
    if generation == 0 || generation > GREATEST {
        return Some(5);
    }
    if u64_in(bytes, 13) > GREATEST {
        return Some(13);
    }
    None
}
