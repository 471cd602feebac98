// What stands at a gate.
ghost use Rattle.std.specs.Prelude.{◌≡◌, ◌≤◌, ◌<◌, ◌+◌, ◌^◌, ℕ, IsTrue, IfOk, Ok, length, drop};
ghost use Rattle.yw_outside.specs.Causes.{HasCause};
ghost use Rattle.yw_outside.specs.Image.{file_in};
ghost use Rattle.yw_snapshot.specs.Heads.{OnlyLooked};
ghost use Rattle.yw_snapshot.specs.Reading.{StandsHere};
ghost use Rattle.yw_snapshot.specs.Window.{IsRoomy, Shows};

use crate::window::Window;
use yw_outside::{Desk, Failed, File};

/// What stands at a gate.
pub enum GateByte {
    /// A closed gate, which ends the records.
    Closed,
    /// An open gate, and after it a whole record of so many bytes.
    Open(u32),
    /// No gate, or an open one whose record passes the end.
    Cut,
}

/// Looks at the gate at an offset of a file, which has `len` bytes, and at the length after it.
pub fn gate_at<D: Desk>(
    window: &mut Window,
    desk: &mut D,
    f: File,
    len: u64,
    at: u64,
) -> Result<GateByte, Failed>
    requires len { IsTrue (D.tells desk.old) → len ≡ length (file_in f (D.state desk.old)) }
    requires bound { len < 2 ^ 63 }
    requires within { at ≤ len }
    requires roomy { IsRoomy window.old }
    requires shows { IsTrue (D.tells desk.old)
        → Shows (file_in f (D.state desk.old)) window.old }
    ensures stands { IsTrue (D.tells desk.old)
        → IfOk result (StandsHere (drop at (file_in f (D.state desk.old)))) }
    ensures within { (size : ℕ) → result ≡ Ok (GateByte.Open size) → at + 5 + size ≤ len }
    ensures roomy { IsRoomy window.new }
    ensures shows { IsTrue (D.tells desk.old)
        → Shows (file_in f (D.state desk.old)) window.new }
    ensures looked { OnlyLooked D.Desk desk.old desk.new }
    ensures cause { HasCause (D.disk_faults desk.old) (D.disk_faults desk.new) result }
{
    if len - at < 5 {
        return short_gate_at(desk, f, len, at);
    }
    window.reach(desk, f, len, at, 5)?;
    let start = window.part(at, 5);
    if start[0] != 1 {
        return Ok(GateByte::Closed);
    }
    let size = u32::from_be_bytes([start[1], start[2], start[3], start[4]]);
    if u64::from(size) > len - at - 5 {
        return Ok(GateByte::Cut);
    }
    Ok(GateByte::Open(size))
}

/// The same where no length can stand after the gate.
fn short_gate_at<D: Desk>(desk: &mut D, f: File, len: u64, at: u64) -> Result<GateByte, Failed>
    requires len { IsTrue (D.tells desk.old) → len ≡ length (file_in f (D.state desk.old)) }
    requires within { at ≤ len }
    requires short { len < at + 5 }
    ensures stands { IsTrue (D.tells desk.old)
        → IfOk result (StandsHere (drop at (file_in f (D.state desk.old)))) }
    ensures within { (size : ℕ) → result ≡ Ok (GateByte.Open size) → at + 5 + size ≤ len }
    ensures looked { OnlyLooked D.Desk desk.old desk.new }
    ensures cause { HasCause (D.disk_faults desk.old) (D.disk_faults desk.new) result }
{
    if at == len {
        return Ok(GateByte::Cut);
    }
    let mut gate = [0];
    desk.read(f, at, &mut gate)?;
    if gate[0] == 1 {
        Ok(GateByte::Cut)
    } else {
        Ok(GateByte::Closed)
    }
}
