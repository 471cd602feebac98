// What was read last of a file, so that one read serves many records.
ghost use Rattle.std.specs.Prelude.{◌≡◌, ◌≤◌, ◌<◌, ◌+◌, ◌^◌, List, ℕ, IsTrue, IfOk, OnOk, drop, length, take};
ghost use Rattle.yw_outside.specs.Causes.{HasCause};
ghost use Rattle.yw_outside.specs.Image.{file_in};
ghost use Rattle.yw_snapshot.specs.Heads.{OnlyLooked};
ghost use Rattle.yw_snapshot.specs.Window.{Covers, IsRoomy, Shows, part_of, room_of};

use std::alloc::{AllocError, Global};
use yw_outside::{Desk, Failed, File, new_piece};

/// Some bytes of a file, at the front of a piece of memory.
#[derive(Drop)]
pub struct Window {
    /// The memory.
    pub bytes: Vec<u8>,
    /// Where the first of them stands in the file.
    pub at: u64,
    /// How many there are.
    pub count: usize,
}

/// Reads so many bytes of a file from an offset on, to the front of the memory.
fn read_front<D: Desk>(
    memory: &mut [u8],
    desk: &mut D,
    f: File,
    at: u64,
    count: usize,
) -> Result<(), Failed>
    requires room { count ≤ length memory.old }
    requires within { IsTrue (D.tells desk.old)
        → at + count ≤ length (file_in f (D.state desk.old)) }
    ensures bytes { IsTrue (D.tells desk.old) → OnOk result
        (take count memory.new ≡ take count (drop at (file_in f (D.state desk.old)))) }
    ensures room { length memory.new ≡ length memory.old }
    ensures looked { OnlyLooked D.Desk desk.old desk.new }
    ensures cause { HasCause (D.disk_faults desk.old) (D.disk_faults desk.new) result }
{
    desk.read(f, at, &mut memory[..count])
}

impl Window {
    /// A window that has no bytes yet. An `Err` says that no memory was left.
    pub fn new(alloc: Global) -> Result<Window, AllocError>
        ensures roomy { IfOk result IsRoomy }
        ensures none { IfOk result (λ window. window.count ≡ 0) }
    {
        let bytes = new_piece(alloc)?;
        Ok(Window {
            bytes,
            at: 0,
            count: 0,
        })
    }

    /// Sees that there is room for so many bytes, which it may cost what it has. An `Err` says that no memory was left.
    pub fn make_room(&mut self, alloc: Global, count: usize) -> Result<(), AllocError>
        requires { IsRoomy self.old }
        ensures room { OnOk result (count ≤ length (room_of self.new)) }
        ensures roomy { IsRoomy self.new }
        ensures shows { (file : List ℕ) → Shows file self.old → Shows file self.new }
    {
        if count > self.bytes.len() {
            self.bytes = vec![in alloc; 0u8; count]?;
            self.count = 0;
        }
        Ok(())
    }

    /// Sees that it has so many bytes of a file from an offset on. Where it lacks them, it is filled from there on, as far as
    /// the file goes, which has `len` bytes. After an `Err` it has none.
    pub fn reach<D: Desk>(
        &mut self,
        desk: &mut D,
        f: File,
        len: u64,
        at: u64,
        count: usize,
    ) -> Result<(), Failed>
        requires len { IsTrue (D.tells desk.old) → len ≡ length (file_in f (D.state desk.old)) }
        requires bound { len < 2 ^ 63 }
        requires within { at + count ≤ len }
        requires room { count ≤ length (room_of self.old) }
        requires roomy { IsRoomy self.old }
        ensures covers { OnOk result (Covers self.new at count) }
        ensures roomy { IsRoomy self.new }
        ensures shows { IsTrue (D.tells desk.old)
            → Shows (file_in f (D.state desk.old)) self.old
            → Shows (file_in f (D.state desk.old)) self.new }
        ensures looked { OnlyLooked D.Desk desk.old desk.new }
        ensures cause { HasCause (D.disk_faults desk.old) (D.disk_faults desk.new) result }
    {
        let end = at + count as u64;
        if self.at <= at && end - self.at <= self.count as u64 {
            return Ok(());
        }
        let room = self.bytes.len().min((len - at) as usize);
        self.count = 0;
        read_front(&mut self.bytes, desk, f, at, room)?;
        self.at = at;
        self.count = room;
        Ok(())
    }

    /// So many bytes of the file from an offset on, which it has.
    pub fn part(&self, at: u64, count: usize) -> &[u8]
        requires covers { Covers self.now at count }
        requires roomy { IsRoomy self.now }
        ensures bytes { result.now ≡ part_of self.now at count }
        ensures shown { (file : List ℕ) → Shows file self.now
            → result.now ≡ take count (drop at file) }
        ensures count { length result.now ≡ count }
    {
        let from = (at - self.at) as usize;
        &self.bytes[from..from + count]
    }
}
