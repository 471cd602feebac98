// The entries of file A, one gate after another.
ghost use Rattle.std.specs.Prelude.{◌≡◌, ◌≤◌, ◌<◌, ◌+◌, ◌^◌, [], List, ℕ, IsTrue, IfOk, IsErr, OnOk, IfSome, Some, None, length, drop, true};
ghost use Rattle.std.specs.List.{list_all};
ghost use Rattle.yw_built.specs.Built.{is_built};
ghost use Rattle.yw_engine.specs.Held as held;
ghost use Rattle.yw_outside.specs.Causes.{HasCause};
ghost use Rattle.yw_serve.specs.Opening.{AreApplied, EndsAt, EntryIsApplied, HasOpenCause, IsApplied, IsDamagedFrom, IsReached, OnlyLooked, ReachesNext, StandsHere, record_at};
ghost use Rattle.yw_serve.specs.Window.{IsAtHand, LeavesAtHand};

use crate::opening::StartFault;
use crate::window::{Window, part, reach};
use std::alloc::{AllocError, Global};
use yw_codec::{CodecFault, read_entry};
use yw_engine::{Engine, EngineFault};
use yw_outside::{Desk, Failed, File};
use yw_state::Event;

/// What stands at a gate.
pub enum GateByte {
    /// A closed gate, which ends the records.
    Closed,
    /// An open gate, and after it a whole record of so many bytes.
    Open(u32),
    /// No gate, or an open one whose record passes the end.
    Cut,
}

/// Looks at the gate at an offset of file A, which has so many bytes, and at the length after it.
fn gate_at<D: Desk>(
    window: &mut Window,
    piece: &mut [u8],
    desk: &mut D,
    len: u64,
    at: u64,
) -> Result<GateByte, Failed>
    requires room { 5 ≤ length piece.old }
    requires within { at ≤ len }
    requires at_hand { IsAtHand D.Desk desk.old len window.old piece.old }
    ensures stands { IsTrue (D.tells desk.old)
        → IfOk result (StandsHere (drop at (D.state desk.old).a)) }
    ensures within { (size : ℕ) → result ≡ Ok (GateByte.Open size) → at + 5 + size ≤ len }
    ensures at_hand { LeavesAtHand D.Desk desk.old window.new piece.new result }
    ensures looked { OnlyLooked D.Desk desk.old desk.new }
    ensures cause { HasCause (D.disk_faults desk.old) (D.disk_faults desk.new) result }
{
    if len - at < 5 {
        return short_gate_at(desk, len, at);
    }
    reach(window, piece, desk, len, at, 5)?;
    let start = part(window, piece, at, 5);
    if start[0] != 1 {
        return Ok(GateByte::Closed);
    }
    let size = u32::from_be_bytes([start[1], start[2], start[3], start[4]]);
    if u64::from(size) > len - at - 5 {
        return Ok(GateByte::Cut);
    }
    Ok(GateByte::Open(size))
}

/// The same where no length can stand after the gate.
fn short_gate_at<D: Desk>(desk: &mut D, len: u64, at: u64) -> Result<GateByte, Failed>
    requires len { IsTrue (D.tells desk.old) → len ≡ length (D.state desk.old).a }
    requires within { at ≤ len }
    requires short { len < at + 5 }
    ensures stands { IsTrue (D.tells desk.old)
        → IfOk result (StandsHere (drop at (D.state desk.old).a)) }
    ensures within { (size : ℕ) → result ≡ Ok (GateByte.Open size) → at + 5 + size ≤ len }
    ensures looked { OnlyLooked D.Desk desk.old desk.new }
    ensures cause { HasCause (D.disk_faults desk.old) (D.disk_faults desk.new) result }
{
    if at == len {
        return Ok(GateByte::Cut);
    }
    let mut gate = [0];
    desk.read(File::A, at, &mut gate)?;
    if gate[0] == 1 {
        Ok(GateByte::Cut)
    } else {
        Ok(GateByte::Closed)
    }
}

/// The record of so many bytes after the gate at this offset.
fn record_at<D: Desk>(
    alloc: Global,
    desk: &mut D,
    at: u64,
    size: u32,
) -> Result<Vec<u8>, StartFault>
    requires within { IsTrue (D.tells desk.old) → at + 5 + size ≤ length (D.state desk.old).a }
    requires fits { at + 5 < 2 ^ 64 }
    ensures bytes { IfOk result (λ bytes. IsTrue (D.tells desk.old)
        → bytes.items ≡ record_at (D.state desk.old).a at size) }
    ensures looked { OnlyLooked D.Desk desk.old desk.new }
    ensures cause { HasOpenCause D.Desk result (λ f place. ⊥) desk.old desk.new }
{
    let mut bytes = vec![in alloc; 0u8; size as usize]?;
    desk.read(File::A, at + 5, &mut bytes)?;
    Ok(bytes)
}

/// Whether an event is allowed. The engine is then that after it. An `Err` says that no memory was left, and the engine is spent then.
fn apply_event(engine: &mut Engine, event: Event) -> Result<bool, AllocError>
    requires { is_built event ≡ true }
    ensures applied { IfOk result (λ allowed.
        IsApplied (held.state_of engine.old) event allowed (held.state_of engine.new)) }
    ensures spent { IsErr result → engine.new.spent ≡ true }
{
    match engine.apply(event) {
        Ok(()) => Ok(true),
        Err(EngineFault::Refused(_)) => Ok(false),
        Err(EngineFault::Memory) => Err(AllocError),
        Err(EngineFault::Spent) => Err(AllocError),
    }
}

/// Whether each event is allowed in its turn. The engine is then that after all, and spent at an `Err`.
fn apply_events(engine: &mut Engine, events: Vec<Event>) -> Result<bool, AllocError>
    requires { list_all is_built events.items ≡ true }
    ensures applied { IfOk result (λ allowed.
        AreApplied (held.state_of engine.old) events.items allowed (held.state_of engine.new)) }
    ensures spent { IsErr result → engine.new.spent ≡ true }
{
    for event in events {
        if !apply_event(engine, event)? {
            return Ok(false);
        }
    }
    Ok(true)
}

/// Whether these are an entry's bytes, each event of which is allowed in its turn. The engine is then that after it.
fn apply_entry(alloc: Global, engine: &mut Engine, bytes: &[u8]) -> Result<bool, AllocError>
    ensures { IfOk result (λ allowed.
        EntryIsApplied (held.state_of engine.old) bytes.now allowed (held.state_of engine.new)) }
{
    match read_entry(alloc, bytes) {
        Ok((events, size)) => {
            if size == bytes.len() {
                apply_events(engine, events.into_vec())
            } else {
                Ok(false)
            }
        }
        Err(CodecFault::Bad) => Ok(false),
        Err(CodecFault::Memory) => Err(AllocError),
    }
}

/// The same of the record of so many bytes after the gate at an offset of file A. One that is longer than the piece is read
/// by itself.
fn apply_record<D: Desk>(
    alloc: Global,
    window: &mut Window,
    piece: &mut [u8],
    desk: &mut D,
    len: u64,
    at: u64,
    size: u32,
    engine: &mut Engine,
) -> Result<bool, StartFault>
    requires bound { len < 2 ^ 63 }
    requires within { at + 5 + size ≤ len }
    requires at_hand { IsAtHand D.Desk desk.old len window.old piece.old }
    ensures applied { IsTrue (D.tells desk.old) → IfOk result (λ allowed.
        EntryIsApplied (held.state_of engine.old) (record_at (D.state desk.old).a at size)
        allowed (held.state_of engine.new)) }
    ensures at_hand { LeavesAtHand D.Desk desk.old window.new piece.new result }
    ensures looked { OnlyLooked D.Desk desk.old desk.new }
    ensures cause { HasOpenCause D.Desk result (λ f place. ⊥) desk.old desk.new }
{
    let count = size as usize;
    if count > piece.len() {
        let bytes = record_at(alloc, desk, at, size)?;
        return Ok(apply_entry(alloc, engine, &bytes)?);
    }
    reach(window, piece, desk, len, at + 5, count)?;
    let bytes = part(window, piece, at + 5, count);
    Ok(apply_entry(alloc, engine, bytes)?)
}

/// Reads the entry after the gate at an offset of file A, and answers the offset of the next gate, or `None`
/// where this one is closed. The engine is then that after the entry.
fn next_entry<D: Desk>(
    alloc: Global,
    window: &mut Window,
    piece: &mut [u8],
    desk: &mut D,
    len: u64,
    at: u64,
    engine: &mut Engine,
) -> Result<Option<u64>, StartFault>
    requires bound { len < 2 ^ 63 }
    requires room { 5 ≤ length piece.old }
    requires within { at ≤ len }
    requires at_hand { IsAtHand D.Desk desk.old len window.old piece.old }
    ensures reached { IsTrue (D.tells desk.old) → (records : List (List ℕ))
        → IsReached (D.state desk.old).a at records (held.state_of engine.old)
        → IfOk result (ReachesNext (D.state desk.old).a at records (held.state_of engine.new)) }
    ensures same { result ≡ Ok None → engine.new ≡ engine.old }
    ensures progress { IfOk result (λ next. IfSome next (λ after. (at < after) × (after ≤ len))) }
    ensures at_hand { LeavesAtHand D.Desk desk.old window.new piece.new result }
    ensures looked { OnlyLooked D.Desk desk.old desk.new }
    ensures cause { (records : List (List ℕ)) → HasOpenCause D.Desk result
        (IsDamagedFrom D.Desk desk.old at records (held.state_of engine.old)) desk.old desk.new }
{
    match gate_at(window, piece, desk, len, at)? {
        GateByte::Closed => Ok(None),
        GateByte::Cut => Err(StartFault::Damaged(File::A, at)),
        GateByte::Open(size) => {
            if apply_record(alloc, window, piece, desk, len, at, size, engine)? {
                Ok(Some(at + 5 + u64::from(size)))
            } else {
                Err(StartFault::Damaged(File::A, at))
            }
        }
    }
}

/// Where the records end: the offset of the closed gate, and how many there are.
#[derive(Clone, Copy)]
pub struct Tail {
    pub gate: u64,
    pub records: u64,
}

/// Reads all entries of file A, which has so many bytes and no snapshot, a piece at a time. The engine is then that after them.
pub fn read_entries<D: Desk>(
    alloc: Global,
    piece: &mut [u8],
    desk: &mut D,
    len: u64,
    engine: &mut Engine,
) -> Result<Tail, StartFault>
    requires len { IsTrue (D.tells desk.old) → len ≡ length (D.state desk.old).a }
    requires bound { len < 2 ^ 63 }
    requires room { 5 ≤ length piece.old }
    requires within { 29 ≤ len }
    ensures reached { IsTrue (D.tells desk.old)
        → IsReached (D.state desk.old).a 29 [] (held.state_of engine.old)
        → IfOk result (EndsAt (D.state desk.old).a (held.state_of engine.new)) }
    ensures bound { IfOk result (λ tail.
        (29 ≤ tail.gate) × (tail.gate ≤ len) × (tail.records ≤ tail.gate)) }
    ensures looked { OnlyLooked D.Desk desk.old desk.new }
    ensures cause { HasOpenCause D.Desk result
        (IsDamagedFrom D.Desk desk.old 29 [] (held.state_of engine.old)) desk.old desk.new }
{
    let mut window = Window { at: 0, count: 0 };
    let mut gate: u64 = 29;
    let mut records: u64 = 0;
    while let Some(next) = next_entry(alloc, &mut window, piece, desk, len, gate, engine)? {
        gate = next;
        records += 1;
    }
    Ok(Tail { gate, records })
}
