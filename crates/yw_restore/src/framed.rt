// A state as it is handed to a journal.
ghost use Rattle.std.specs.Prelude.{◌≡◌, ◌≤◌, ℕ, List, drop, length, IfOk, OnOk};
ghost use Rattle.yw_journal.specs.Records.{IsFramedState};
ghost use Rattle.yw_restore.specs.Standing.{IsFramedOf};

use crate::kept::Kept;
use crate::write::write_state;
use byteorder::{BigEndian, ByteOrder};
use std::alloc::{AllocError, Global};

// How many bytes say how long a snapshot is.
const ROOM: usize = 8;

/// Writes in the first eight bytes the length of those after them, and after these a closed gate. An `Err` says that no memory was left.
pub fn frame(out: &mut Vec<u8>) -> Result<(), AllocError>
    requires { 8 ≤ length out.old.items }
    ensures { OnOk result (IsFramedState out.new.items (drop 8 out.old.items)) }
{
    let size = (out.len() - ROOM) as u64;
    BigEndian::write_u64(out.as_mut_slice(), size);
    out.push(0)?;
    Ok(())
}

/// The bytes of the state of which this is kept, as a journal is made with them: their length in eight bytes, the bytes, and a closed gate. An
/// `Err` is that of `write_state`.
pub fn framed_state(alloc: Global, kept: &Kept<'_>) -> Result<Vec<u8>, AllocError>
    ensures { IfOk result (λ framed. IsFramedOf kept.now framed.items) }
{
    let mut out = vec![in alloc; 0u8; ROOM]?;
    write_state(alloc, kept, &mut out)?;
    frame(&mut out)?;
    Ok(out)
}
