// The lines that are said.
ghost use Rattle.std.specs.Prelude.{◌≡◌, false, IfOk};
ghost use Rattle.serde_json.specs.Events.{SendsValue};
ghost use Rattle.serde_json.specs.View.{view};
ghost use Rattle.serde_json.specs.Written.{has_float};
ghost use Rattle.yw_lines.specs.Replies.{done_line, done_data, line_of, refused_line, refused_data};

use crate::sent::{Scratch, Sent, sent_line};
use serde::{Described, Serialize, Serializer};
use serde_json::Value as JsonValue;
use std::alloc::{AllocError, Global};
use yw_base::Bytes;
use yw_state::{EventList, Refusal};

/// A value without floats as a line: its text without blanks, and a newline. No contract says the digits of a
/// float. An `Err` says that no memory was left.
pub fn value_line(alloc: Global, value: &JsonValue) -> Result<Bytes, AllocError>
    ensures { has_float (view value.now) ≡ false → IfOk result (λ line. line ≡ line_of (view value.now)) }
{
    let mut line = value.to_string(alloc)?;
    line.push('\n')?;
    Ok(Bytes::from_vec(line.into_bytes()))
}

/// The reply to the refused line of this number.
#[derive(Drop)]
struct Refused<'a> {
    n: u64,
    refusal: &'a Refusal,
}

impl Described for Refused<'_> {
    ghost writes = { λ r. SendsValue (refused_data r.n r.refusal.now) };
}

impl Serialize for Refused<'_> {
    fn serialize<S: Serializer>(&self, out: &mut S) -> Result<(), S::Error> {
        out.begin_map(Some(4))?;
        out.key("at")?;
        out.str(self.refusal.at.as_str())?;
        out.key("n")?;
        out.u64(self.n)?;
        out.key("ok")?;
        out.bool(false)?;
        out.key("rule")?;
        out.str(self.refusal.rule.text())?;
        out.end_map()
    }
}

/// The reply to the refused line of this number: `{"at":..,"n":..,"ok":false,"rule":..}` and a newline. An `Err`
/// says that no memory was left.
pub fn reply_refused(alloc: Global, n: u64, refusal: &Refusal) -> Result<Bytes, AllocError>
    ensures { IfOk result (λ line. line ≡ refused_line n refusal.now) }
{
    sent_line(alloc, &Refused { n, refusal })
}

/// The reply to the accepted command of this number.
#[derive(Drop)]
struct Done<'a> {
    alloc: Global,
    n: u64,
    events: &'a EventList,
    quiet: bool,
}

impl Described for Done<'_> {
    ghost writes = { λ r. SendsValue (done_data r.n r.events.now r.quiet) };
}

impl Serialize for Done<'_> {
    fn serialize<S: Serializer>(&self, out: &mut S) -> Result<(), S::Error> {
        let mut scratch = Scratch::new(self.alloc, out)?;
        out.begin_map(Some(4))?;
        out.key("n")?;
        out.u64(self.n)?;
        out.key("ok")?;
        out.bool(true)?;
        out.key("quiet")?;
        out.bool(self.quiet)?;
        out.key("steps")?;
        self.events.send(&mut scratch, out)?;
        out.end_map()
    }
}

/// The reply to the accepted command of this number, with a step for each of its events:
/// `{"n":..,"ok":true,"quiet":..,"steps":[..]}` and a newline. An `Err` says that no memory was left.
pub fn reply_done(
    alloc: Global,
    n: u64,
    events: &EventList,
    quiet: bool,
) -> Result<Bytes, AllocError>
    ensures { IfOk result (λ line. line ≡ done_line n events.now quiet) }
{
    sent_line(
        alloc,
        &Done {
            alloc,
            n,
            events,
            quiet,
        },
    )
}
