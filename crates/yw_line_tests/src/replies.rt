// The lines that are said.
use serde_json::Value as JsonValue;
use std::alloc::{AllocError, Global};
use yw_base::Text;
use yw_state::{EventList, Refusal, Rule};
use yw_wire::{reply_done, reply_refused, value_line};

/// Adds a line that is said, without its newline.
fn push_line(out: &mut String, line: &[u8]) -> Result<(), AllocError> {
    match line.strip_suffix(b"\n") {
        Some(line) => match std::str::from_utf8(line) {
            Ok(text) => out.push_str(text),
            Err(_) => out.push('?'),
        },
        None => out.push('?'),
    }
}

/// Adds the reply to line 10 that is done by these events.
pub(crate) fn push_reply(
    alloc: Global,
    events: &EventList,
    out: &mut String,
) -> Result<(), AllocError> {
    let reply = reply_done(alloc, 10, events, events.len() != 1)?;
    push_line(out, reply.as_slice())
}

/// The reply that shows no event.
pub(crate) fn none_done(alloc: Global, out: &mut String) -> Result<(), AllocError> {
    push_reply(alloc, &EventList::new(alloc), out)
}

/// `7 place`: the reply to the line of this number, which isn't built, with this place between two quotes, a backslash, a newline and a letter of two bytes.
pub(crate) fn refused(alloc: Global, text: &str, out: &mut String) -> Result<(), AllocError> {
    let (number, place) = text.split_once(' ').unwrap_or((text, ""));
    let mut at = String::from_str(alloc, "\"")?;
    at.push_str(place)?;
    at.push_str("\"\\\né")?;
    let refusal = Refusal {
        rule: Rule::NotBuilt,
        at: Text::copy_of(alloc, at.as_str())?,
    };
    let reply = reply_refused(alloc, number.parse::<u64>().unwrap_or(0), &refusal)?;
    push_line(out, reply.as_slice())
}

/// ` { "a" : 7 } `: the line of this value.
pub(crate) fn value(alloc: Global, text: &str, out: &mut String) -> Result<(), AllocError> {
    match JsonValue::from_str(alloc, text) {
        Ok(value) => push_line(out, value_line(alloc, &value)?.as_slice()),
        Err(_) => out.push('?'),
    }
}
