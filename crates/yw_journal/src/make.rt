// A file made anew.
ghost use Rattle.std.specs.Prelude.{◌≡◌, ◌≤◌, ◌<◌, ◌+◌, ◌^◌, List, ℕ, IsTrue, IfOk, OnOk, Err, false, length};
ghost use Rattle.yw_outside.specs.declared.image.Image.{Image};
ghost use Rattle.yw_outside.specs.Image.{file_in};
ghost use Rattle.yw_outside.specs.Since.{LeavesOnly, OfFiles};
ghost use Rattle.yw_journal.specs.Calls.{Counts, ForSnapshot, HasNoRoom, IsFilledAfter, IsMade, IsMadeOver, IsOpenOrEmpty, IsShut, IsShutOf, Leaves, Rewrites, NonePending, made_journal};
ghost use Rattle.yw_journal.specs.Journal.{IsReady, IsCurrent, IsAboveOther, IsBeforeOrMade, IsBeforeOrShut, IsBeforeShutOrMade, KeepsGateByte, made, header_bytes};
ghost use Rattle.yw_journal.specs.Records.{IsFramedState};

use crate::synced::write_synced;
use crate::{AppendFault, Journal};
use byteorder::{BigEndian, ByteOrder};
use yw_outside::{Desk, Failed, File};

const HEADER: usize = 20;

// What stands between the gate and the snapshot's length.
fn header(generation: u64, number: u64) -> [u8; HEADER]
    ensures { result ≡ header_bytes generation number }
{
    let mut bytes = [0; HEADER];
    bytes[..4].copy_from_slice(b"YWJ1");
    BigEndian::write_u64(&mut bytes[4..12], generation);
    BigEndian::write_u64(&mut bytes[12..], number);
    bytes
}

// The file is empty, or its gate is open.
fn is_open<D: Desk>(desk: &mut D, f: File) -> Result<bool, Failed>
    ensures open { IsTrue (D.tells desk.old) → IfOk result (λ yes. IsTrue yes
        → IsOpenOrEmpty (file_in f (D.state desk.old))) }
    ensures shut { IsTrue (D.tells desk.old) → IfOk result (λ yes. yes ≡ false
        → IsShut (file_in f (D.state desk.old))) }
    ensures state { D.state desk.new ≡ D.state desk.old }
    ensures crash { (c : Image) → D.may_leave desk.new c → D.may_leave desk.old c }
    ensures any_moment { LeavesOnly D.Desk desk.old desk.new (D.may_leave desk.old) }
    ensures counts { OfFiles D.Desk desk.old desk.new result }
{
    if desk.len(f)? == 0 {
        return Ok(true);
    }
    let mut gate = [0];
    desk.read(f, 0, &mut gate)?;
    Ok(gate[0] == 1)
}

// Closes the gate of a file, where it isn't closed already.
fn shut<D: Desk>(desk: &mut D, f: File) -> Result<(), Failed>
    requires { NonePending D.Desk desk.old }
    ensures rewrites { OnOk result (Rewrites D.Desk f IsShutOf desk.old desk.new) }
    ensures any_moment { Leaves D.Desk (IsBeforeOrShut f) desk.old desk.new }
    ensures counts { OfFiles D.Desk desk.old desk.new result }
{
    if !is_open(desk, f)? {
        return Ok(());
    }
    write_synced(desk, f, 0, &[0])
}

// Writes all after the gate.
fn write_rest<D: Desk>(
    desk: &mut D,
    f: File,
    header: &[u8; HEADER],
    framed: &[u8],
) -> Result<(), Failed>
    requires some { IsTrue (D.tells desk.old) → 1 ≤ length (file_in f (D.state desk.old)) }
    requires fits { 21 + length framed.now < 2 ^ 63 }
    requires settled { NonePending D.Desk desk.old }
    ensures rewrites { OnOk result (Rewrites D.Desk f
        (IsFilledAfter header.now framed.now) desk.old desk.new) }
    ensures any_moment { Leaves D.Desk (KeepsGateByte f) desk.old desk.new }
    ensures counts { OfFiles D.Desk desk.old desk.new result }
{
    desk.write(f, 1, header)?;
    write_synced(desk, f, 21, framed)
}

// Makes the file of these parts.
fn make_of<D: Desk>(
    desk: &mut D,
    f: File,
    header: &[u8; HEADER],
    framed: &[u8],
) -> Result<(), Failed>
    requires fits { 21 + length framed.now < 2 ^ 63 }
    requires settled { NonePending D.Desk desk.old }
    ensures rewrites { OnOk result (Rewrites D.Desk f
        (IsMadeOver header.now framed.now) desk.old desk.new) }
    ensures any_moment { Leaves D.Desk
        (IsBeforeShutOrMade f header.now framed.now) desk.old desk.new }
    ensures counts { OfFiles D.Desk desk.old desk.new result }
{
    shut(desk, f)?;
    write_rest(desk, f, header, framed)?;
    write_synced(desk, f, 0, &[1])
}

impl Journal {
    /// Makes the file: this generation and number, a snapshot (its length as a u64, so many bytes, and a closed
    /// gate) and no record. Its gate is opened last, when all after it is on the disk. A crash at any moment
    /// leaves what the other file holds, or the new file whole, and after `Ok` it leaves the new one. Of what this
    /// file held before only bytes past the snapshot's gate stay, as they were, and they are no part of its content.
    /// `Full` comes exactly where the snapshot would end past the limit, before any call of the desk;
    /// `Disk` only where a call of the files failed. It takes no memory.
    pub fn make<D: Desk>(
        desk: &mut D,
        file: File,
        generation: u64,
        number: u64,
        framed_state: &[u8],
        limit: u64,
    ) -> Result<Journal, AppendFault>
        requires some { 1 ≤ generation }
        requires small { generation ≤ 2 ^ 62 }
        requires few { number ≤ 2 ^ 62 }
        requires limited { limit ≤ 2 ^ 62 }
        requires framed { (snapshot : List ℕ) × IsFramedState framed_state.now snapshot }
        requires above { IsTrue (D.tells desk.old)
            → IsAboveOther file generation (D.state desk.old) }
        requires settled { NonePending D.Desk desk.old }

        // At Ok the file is made, byte for byte, and nothing else has changed.
        ensures journal { IfOk result (λ j.
            j ≡ made_journal file generation number framed_state.now limit) }
        ensures ready { IfOk result IsReady }
        ensures rewrites { OnOk result (Rewrites D.Desk file
            (IsMadeOver (header_bytes generation number) framed_state.now) desk.old desk.new) }
        ensures made { IfOk result (λ j. IsMade D.Desk j framed_state.now desk.old desk.new) }
        ensures current { IfOk result (λ j. ForSnapshot D.Desk file framed_state.now desk.old
            (λ c snapshot. IsCurrent j (made generation number snapshot) (D.state desk.new))) }

        // A crash at any moment leaves what was held before, or the new file.
        ensures any_moment { ForSnapshot D.Desk file framed_state.now desk.old (λ c snapshot.
            LeavesOnly D.Desk desk.old desk.new
            (IsBeforeOrMade file c (made generation number snapshot) (D.state desk.old))) }

        // Each other answer has its cause, and no failed call is passed over.
        ensures counts { Counts D.Desk desk.old desk.new result }
        ensures full { (n : ℕ) → result ≡ Err (AppendFault.Full n)
            → HasNoRoom limit 21 framed_state.now n × (desk.new ≡ desk.old) }
        ensures fits { (n : ℕ) → HasNoRoom limit 21 framed_state.now n
            → result ≡ Err (AppendFault.Full n) }
    {
        let end = HEADER as u64 + 1 + framed_state.len() as u64;
        if end > limit {
            return Err(AppendFault::Full(end));
        }
        let Ok(()) = make_of(desk, file, &header(generation, number), framed_state) else {
            return Err(AppendFault::Disk);
        };
        Ok(Journal {
            file,
            generation,
            end,
            limit,
            number,
        })
    }
}
