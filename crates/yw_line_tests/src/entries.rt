// Events and entries as bytes, both ways.
ghost use Rattle.std.specs.Prelude.{◌≡◌, ◌≤◌, IsTrue, length, true};
ghost use Rattle.std.specs.List.{list_all};
ghost use Rattle.yw_codec.specs.Entries.{has_form, has_words, is_word, is_writable};

use crate::bytes::{bytes_of, push_hex};
use crate::replies::push_reply;
use std::alloc::{AllocError, Global};
use yw_codec::{CodecFault, push_event, read_entry, read_event, write_entry, write_entry_into};
use yw_state::{Conclusion, Event, EventList, Primitive};

const MOST_ROLES: usize = 64;

const MOST_EVENTS: usize = 4097;

/// Adds the fault's name.
pub(crate) fn push_fault(out: &mut String, fault: &CodecFault) -> Result<(), AllocError> {
    match fault {
        CodecFault::Bad => out.push_str("Bad"),
        CodecFault::Memory => out.push_str("Memory"),
    }
}

/// The primitive is one of the words.
fn is_word(primitive: &Primitive) -> bool
    ensures { result ≡ is_word primitive.now }
{
    !matches!(primitive, Primitive::Unknown(_))
}

/// Each primitive is one of the words.
fn are_words(steps: &[Primitive]) -> bool
    ensures { result ≡ list_all is_word steps.now }
{
    steps.iter().all(|step| is_word(step))
}

/// What is concluded is written in words.
fn has_words(conclusion: &Conclusion) -> bool
    ensures { result ≡ has_words conclusion.now }
{
    match conclusion {
        Conclusion::Worklet(_) => true,
        Conclusion::Exlet(steps) => are_words(steps.as_slice()),
    }
}

/// The event has bytes.
fn has_form(event: &Event) -> bool
    ensures { result ≡ has_form event.now }
{
    match event {
        Event::Person { roles, .. } => roles.len() <= MOST_ROLES,
        Event::AddRule { conclusion, .. } => has_words(conclusion),
        Event::Prim { primitive, .. } => is_word(primitive),
        _ => true,
    }
}

/// An entry may have the event.
fn is_writable(event: &Event) -> bool
    ensures { result ≡ is_writable event.now }
{
    match event {
        Event::Person { roles, .. } => roles.len() <= MOST_ROLES,
        Event::Load { .. }
        | Event::Launch { .. }
        | Event::Enter { .. }
        | Event::Start { .. }
        | Event::Complete { .. }
        | Event::Exit { .. }
        | Event::Add { .. }
        | Event::Finish { .. }
        | Event::Cancel { .. }
        | Event::StartSub { .. }
        | Event::CompleteSub { .. }
        | Event::CompleteEmpty { .. }
        | Event::Suspend { .. }
        | Event::Continue { .. }
        | Event::Advance { .. } => true,
        _ => false,
    }
}

fn all_writable(events: &[Event]) -> bool
    ensures { result ≡ list_all is_writable events.now }
{
    events.iter().all(|event| is_writable(event))
}

/// An entry may have these events.
fn are_writable(events: &EventList) -> bool
    ensures some { IsTrue result → 1 ≤ length events.now }
    ensures few { IsTrue result → length events.now ≤ 4097 }
    ensures writable { IsTrue result → list_all is_writable events.now ≡ true }
{
    if events.len() < 1 || events.len() > MOST_EVENTS {
        return false;
    }
    all_writable(events.as_slice())
}

/// Adds the bytes of an event.
fn push_written(alloc: Global, event: &Event, out: &mut String) -> Result<(), AllocError> {
    if !has_form(event) {
        return out.push('?');
    }
    let mut bytes = Vec::new(alloc);
    push_event(&mut bytes, event)?;
    push_hex(out, bytes.as_slice())
}

fn listed(alloc: Global, event: Event) -> Result<EventList, AllocError> {
    let mut events = EventList::new(alloc);
    events.push(event)?;
    Ok(events)
}

fn push_each_written(
    alloc: Global,
    events: &EventList,
    out: &mut String,
) -> Result<(), AllocError> {
    for event in events.as_slice() {
        push_written(alloc, event, out)?;
    }
    Ok(())
}

/// Adds what was read of so many bytes.
fn push_event_read(
    alloc: Global,
    events: &EventList,
    size: usize,
    out: &mut String,
) -> Result<(), AllocError> {
    write!(out, "{size} bytes, written ")?;
    push_each_written(alloc, events, out)?;
    out.push_str(", shown ")?;
    push_reply(alloc, events, out)
}

/// `0a 0000000000000007`: how a reply shows the event that stands at the front of these bytes, how many bytes it has, and the bytes that are written of
/// it; or the fault.
pub(crate) fn event(alloc: Global, hex: &str, out: &mut String) -> Result<(), AllocError> {
    let bytes = bytes_of(alloc, hex)?;
    match read_event(alloc, bytes.as_slice()) {
        Ok((event, size)) => push_event_read(alloc, &listed(alloc, event)?, size, out),
        Err(fault) => push_fault(out, &fault),
    }
}

/// Adds the bytes of an entry as it is appended, if they are the same in a buffer that held others.
fn push_framed(alloc: Global, events: &EventList, out: &mut String) -> Result<(), AllocError> {
    if !are_writable(events) {
        return out.push('?');
    }
    let framed = write_entry(alloc, events)?;
    let mut over = Vec::from_slice(alloc, b"what stood here")?;
    write_entry_into(&mut over, events)?;
    if over.as_slice() == framed.as_slice() {
        push_hex(out, framed.as_slice())
    } else {
        out.push('?')
    }
}

/// Adds what was read of so many bytes.
fn push_entry_read(
    alloc: Global,
    events: &EventList,
    size: usize,
    out: &mut String,
) -> Result<(), AllocError> {
    write!(out, "{size} bytes, appended ")?;
    push_framed(alloc, events, out)?;
    out.push_str(", shown ")?;
    push_reply(alloc, events, out)
}

/// `0001 0a 0000000000000007`: the same of the entry at the front of these bytes, whose bytes are written as they are appended.
pub(crate) fn entry(alloc: Global, hex: &str, out: &mut String) -> Result<(), AllocError> {
    let bytes = bytes_of(alloc, hex)?;
    match read_entry(alloc, bytes.as_slice()) {
        Ok((events, size)) => push_entry_read(alloc, &events, size, out),
        Err(fault) => push_fault(out, &fault),
    }
}
