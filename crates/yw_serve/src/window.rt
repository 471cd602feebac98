// What was read last of file A, so that one read serves many entries.
ghost use Rattle.std.specs.Prelude.{◌≡◌, ◌≤◌, ◌+◌, List, ℕ, IsTrue, OnOk, drop, length, take};
ghost use Rattle.yw_outside.specs.Causes.{HasCause};
ghost use Rattle.yw_serve.specs.Opening.{OnlyLooked};
ghost use Rattle.yw_serve.specs.Window.{Covers, IsAtHand, LeavesAtHand, Shows};

use yw_outside::{Desk, Failed, File};

/// Which bytes of file A a piece of memory has at its front.
#[derive(Clone, Copy)]
pub struct Window {
    /// Where the first of them stands in the file.
    pub at: u64,
    /// How many there are.
    pub count: usize,
}

/// Sees that the piece has so many bytes of file A from an offset on. Where it lacks them, it is filled from there on,
/// as far as the file goes, which has `len` bytes.
pub fn reach<D: Desk>(
    window: &mut Window,
    piece: &mut [u8],
    desk: &mut D,
    len: u64,
    at: u64,
    count: usize,
) -> Result<(), Failed>
    requires room { count ≤ length piece.old }
    requires within { at + count ≤ len }
    requires at_hand { IsAtHand D.Desk desk.old len window.old piece.old }
    ensures covers { OnOk result (Covers window.new at count) }
    ensures at_hand { LeavesAtHand D.Desk desk.old window.new piece.new result }
    ensures looked { OnlyLooked D.Desk desk.old desk.new }
    ensures cause { HasCause (D.disk_faults desk.old) (D.disk_faults desk.new) result }
{
    let end = at + count as u64;
    if window.at <= at && end - window.at <= window.count as u64 {
        return Ok(());
    }
    let room = piece.len().min((len - at) as usize);
    desk.read(File::A, at, &mut piece[..room])?;
    window.at = at;
    window.count = room;
    Ok(())
}

/// So many bytes of file A from an offset on, which the piece has.
pub fn part<'a>(window: &Window, piece: &'a [u8], at: u64, count: usize) -> &'a [u8]
    requires covers { Covers window.now at count }
    requires fits { window.now.count ≤ length piece.now }
    ensures bytes { (file : List ℕ) → Shows file piece.now window.now
        → result.now ≡ take count (drop at file) }
    ensures count { length result.now ≡ count }
{
    let from = (at - window.at) as usize;
    &piece[from..from + count]
}
