// Entries: a count and events.
ghost use Rattle.std.specs.Prelude.{◌≡◌, ◌++◌, ◌∷◌, ◌≤◌, [], List, ℕ, true, IfOk, IfErr, OnOk, drop, take, length, slice_index};
ghost use Rattle.std.specs.List.{flat_map, list_all};
ghost use Rattle.byteorder.specs.Endian.{big_bytes};
ghost use Rattle.yw_built.specs.Built.{is_built};
ghost use Rattle.yw_codec.specs.Entries.{is_writable, is_kept, has_form, IsEntry, entry_bytes, framed};
ghost use Rattle.yw_codec.specs.Events.{event_bytes, is_event};
ghost use Rattle.yw_codec.specs.Forms.{Stands, NoneStands, are_counted};
ghost use Rattle.yw_journal.specs.Records.{IsFramed};
ghost use Rattle.yw_state.specs.declared.event.Event.{Event};

use crate::event::{push_event, read_tagged};
use crate::field::Field;
use crate::reader::{CodecFault, Reader};
use byteorder::{BigEndian, ByteOrder};
use std::alloc::{AllocError, Global};
use yw_base::Bytes;
use yw_state::{Event, EventList};

const MOST_EVENTS: u16 = 4097;

// How many bytes an entry has room for before it asks for more memory.
const ENTRY_ROOM: usize = 128;

// Whether events with this tag are such as the server does today.
fn is_built_tag(tag: u8) -> bool
    ensures { (event : Event) (rest : List ℕ) → slice_index (event_bytes event ++ rest) 0 ≡ tag → is_built event ≡ result }
{
    matches!(tag, 1 | 2 | 4..=14 | 22..=24)
}

// The event at the front, where the server does such today.
fn read_kept(alloc: Global, reader: &mut Reader<'_>) -> Result<Event, CodecFault>
    ensures ok { IfOk result (λ event. Stands is_kept event_bytes reader.old event reader.new) }
    ensures bad { IfErr result (λ fault. fault ≡ CodecFault.Bad → NoneStands is_kept event_bytes reader.old) }
{
    let tag = reader.byte()?;
    if !is_built_tag(tag) {
        return Err(CodecFault::Bad);
    }
    read_tagged(alloc, reader, tag)
}

// So many such events.
fn read_events(alloc: Global, reader: &mut Reader<'_>, count: u16) -> Result<EventList, CodecFault>
    ensures ok { IfOk result (λ events. Stands (are_counted is_kept count) (flat_map event_bytes) reader.old events reader.new) }
    ensures bad { IfErr result (λ fault. fault ≡ CodecFault.Bad → NoneStands (are_counted is_kept count) (flat_map event_bytes) reader.old) }
{
    let mut events = EventList::new(alloc);
    for _i in 0..count {
        events.push(read_kept(alloc, reader)?)?;
    }
    Ok(events)
}

/// Reads the entry at the front of the bytes, and says how many bytes it has. Its events are such as the server does
/// today. `Bad` comes exactly where no prefix of the bytes is an entry's bytes, unless memory runs out first, which is
/// `Memory`.
pub fn read_entry(alloc: Global, bytes: &[u8]) -> Result<(EventList, usize), CodecFault>
    ensures within { IfOk result (λ v. v.1 ≤ length bytes.now) }
    ensures ok { IfOk result (λ v. IsEntry v.0 (take v.1 bytes.now)) }
    // No entry's bytes are a prefix of another's.
    ensures only { IfOk result (λ v. (events : List Event) (entry rest : List ℕ) → IsEntry events entry → bytes.now ≡ entry ++ rest → (events ≡ v.0) × (entry ≡ take v.1 bytes.now)) }
    ensures built { IfOk result (λ v. list_all is_built v.0 ≡ true) }
    ensures bad { IfErr result (λ fault. fault ≡ CodecFault.Bad → (events : List Event) (entry rest : List ℕ) → IsEntry events entry → bytes.now ≡ entry ++ rest → ⊥) }
{
    let mut reader = Reader::new(bytes);
    let field = reader.take(2)?;
    let count = BigEndian::read_u16(field);
    if count == 0 || count > MOST_EVENTS {
        return Err(CodecFault::Bad);
    }
    let events = read_events(alloc, &mut reader, count)?;
    Ok((events, bytes.len() - reader.left()))
}

fn push_u16(out: &mut Vec<u8>, number: u16) -> Result<(), AllocError>
    ensures { OnOk result (out.new.items ≡ out.old.items ++ big_bytes 2 number) }
{
    let mut field = [0; 2];
    BigEndian::write_u16(&mut field, number);
    out.extend_from_slice(&field)
}

fn push_events(out: &mut Vec<u8>, events: &[Event]) -> Result<(), AllocError>
    requires { list_all is_writable events.now ≡ true }
    ensures bytes { OnOk result (out.new.items ≡ out.old.items ++ flat_map event_bytes events.now) }
    ensures events { OnOk result (list_all is_event events.now ≡ true) }
    ensures built { OnOk result (list_all is_built events.now ≡ true) }
{
    for event in events {
        push_event(out, event)?;
    }
    Ok(())
}

// The entry without its length.
#[tactic(auto, unfolding(crate::specs::Entries::entry_bytes))]
fn push_entry(out: &mut Vec<u8>, events: &[Event]) -> Result<(), AllocError>
    requires some { 1 ≤ length events.now }
    requires few { length events.now ≤ 4097 }
    requires writable { list_all is_writable events.now ≡ true }
    ensures bytes { OnOk result (out.new.items ≡ out.old.items ++ entry_bytes events.now) }
    ensures entry { OnOk result (IsEntry events.now (entry_bytes events.now)) }
{
    push_u16(out, events.len() as u16)?;
    push_events(out, events)
}

// Writes in the first four bytes the length of those behind them, and behind these a closed gate.
fn frame(out: &mut Vec<u8>) -> Result<(), AllocError>
    requires { 4 ≤ length out.old.items }
    ensures bytes { OnOk result (out.new.items ≡ (big_bytes 4 (length (drop 4 out.old.items)) ++ drop 4 out.old.items) ++ 0 ∷ []) }
    ensures frame { OnOk result (IsFramed out.new.items (drop 4 out.old.items)) }
{
    let Ok(size) = u32::try_from(out.len() - 4) else {
        return Err(AllocError);
    };
    BigEndian::write_u32(out.as_mut_slice(), size);
    out.push(0)?;
    Ok(())
}

/// Makes of `out` the bytes of an entry as they are appended: the entry's length as a u32, the entry, and a closed gate.
/// What stood in `out` goes and its room stays, so that one buffer serves many entries. An entry has 1 to 4,097 events,
/// each such as the server does today. A person has at most 64 roles. An `Err` says that no memory was left, or
/// that the length of the entry or of a text in it doesn't fit a u32; what `out` has then is told nowhere.
pub fn write_entry_into(out: &mut Vec<u8>, events: &EventList) -> Result<(), AllocError>
    requires some { 1 ≤ length events.now }
    requires few { length events.now ≤ 4097 }
    requires writable { list_all is_writable events.now ≡ true }
    ensures bytes { OnOk result (out.new.items ≡ framed events.now) }
    ensures entry { OnOk result (IsEntry events.now (entry_bytes events.now)) }
    ensures frame { OnOk result (IsFramed out.new.items (entry_bytes events.now)) }
{
    out.clear();
    0u32.write(out)?;
    push_entry(out, events.as_slice())?;
    frame(out)
}

/// The bytes of an entry as they are appended: the entry's length as a u32, the entry, and a closed gate. It has 1 to
/// 4,097 events, each such as the server does today. A person has at most 64 roles. An
/// `Err` says that no memory was left, or that the length of the entry or of a text in it doesn't fit a u32.
pub fn write_entry(alloc: Global, events: &EventList) -> Result<Bytes, AllocError>
    requires some { 1 ≤ length events.now }
    requires few { length events.now ≤ 4097 }
    requires writable { list_all is_writable events.now ≡ true }
    ensures bytes { IfOk result (λ b. b ≡ framed events.now) }
    ensures entry { IfOk result (λ _. IsEntry events.now (entry_bytes events.now)) }
    ensures frame { IfOk result (λ b. IsFramed b (entry_bytes events.now)) }
{
    let mut entry = Vec::with_capacity(alloc, ENTRY_ROOM)?;
    write_entry_into(&mut entry, events)?;
    Ok(Bytes::from_vec(entry))
}
