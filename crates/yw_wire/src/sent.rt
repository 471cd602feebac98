// What is sent as a value, event by event.
ghost use Rattle.std.specs.Prelude.{◌≡◌, [], Some, false, IfOk, OnOk};
ghost use Rattle.serde.specs.Event.{Log};
ghost use Rattle.serde_json.specs.Data.{Data, string};
ghost use Rattle.serde_json.specs.Events.{SendsValue};
ghost use Rattle.serde_json.specs.Written.{has_float};
ghost use Rattle.yw_lines.specs.Answers.{ident_data, list_data, place_data, primitive_data};
ghost use Rattle.yw_lines.specs.Replies.{line_of};
ghost use Rattle.yw_wire.specs.Sent.{step_data};

use crate::steps::{push_dotted, push_place, push_primitive, put_step};
use serde::{Serialize, Serializer};
use std::alloc::{AllocError, Global};
use yw_base::{Bytes, Ident, Items, Name, Text};
use yw_spec::Place;
use yw_state::{Event, Primitive};

/// Where a text is written that stands nowhere, before it is sent: in place of the one before.
#[derive(Drop)]
pub struct Scratch {
    pub alloc: Global,
    pub text: String,
}

/// What is sent as one value.
pub trait Sent {
    /// The value.
    ghost said: { Self → Data };

    /// Sends it. An `Err` is the serializer's, or says that no memory was left.
    fn send<S: Serializer>(&self, scratch: &mut Scratch, out: &mut S) -> Result<(), S::Error>
        ensures { OnOk result (SendsValue (said self.now) (S.written out.old) (S.written out.new)) };
}

/// How many bytes a text has room for before it asks for more memory.
const TEXT_ROOM: usize = 80;

/// The serializer's error that says that no memory was left.
pub fn no_memory<S: Serializer>(out: &S) -> S::Error {
    out.custom("no memory was left")
}

impl Scratch {
    /// An empty one, with room. An `Err` says that no memory was left.
    pub fn new<S: Serializer>(alloc: Global, out: &S) -> Result<Scratch, S::Error> {
        match String::with_capacity(alloc, TEXT_ROOM) {
            Ok(text) => Ok(Scratch { alloc, text }),
            Err(AllocError) => Err(no_memory(out)),
        }
    }
}

/// What is sent as a value without floats, as a line: the value's text without blanks, and a newline. An `Err` says
/// that no memory was left.
pub fn sent_line<T: Serialize>(alloc: Global, sent: &T) -> Result<Bytes, AllocError>
    ensures { (d : Data) → ((log : Log) → T.writes sent.now (Some []) log → SendsValue d (Some []) log) → has_float d ≡ false → IfOk result (λ line. line ≡ line_of d) }
{
    let Ok(mut line) = serde_json::to_vec(alloc, sent) else {
        return Err(AllocError);
    };
    line.push(b'\n')?;
    Ok(Bytes::from_vec(line))
}

/// Sends each in turn, as a list.
pub fn send_list<T: Sent, S: Serializer>(
    items: &[T],
    scratch: &mut Scratch,
    out: &mut S,
) -> Result<(), S::Error>
    ensures { OnOk result (SendsValue (list_data T.said items.now) (S.written out.old) (S.written out.new)) }
{
    out.begin_seq(Some(items.len()))?;
    for item in items {
        item.send(scratch, out)?;
    }
    out.end_seq()
}

impl<T: Sent + Drop> Sent for Items<T> {
    ghost said = { list_data T.said };

    fn send<S: Serializer>(&self, scratch: &mut Scratch, out: &mut S) -> Result<(), S::Error> {
        send_list(self.as_slice(), scratch, out)
    }
}

impl Sent for Name {
    ghost said = { string };

    fn send<S: Serializer>(&self, _scratch: &mut Scratch, out: &mut S) -> Result<(), S::Error> {
        out.str(self.as_str())
    }
}

impl Sent for Text {
    ghost said = { string };

    fn send<S: Serializer>(&self, _scratch: &mut Scratch, out: &mut S) -> Result<(), S::Error> {
        out.str(self.as_str())
    }
}

impl Sent for Ident {
    ghost said = { ident_data };

    fn send<S: Serializer>(&self, scratch: &mut Scratch, out: &mut S) -> Result<(), S::Error> {
        scratch.text.clear();
        if push_dotted(&mut scratch.text, self.numbers()).is_err() {
            return Err(no_memory(out));
        }
        out.str(scratch.text.as_str())
    }
}

impl Sent for Place {
    ghost said = { place_data };

    fn send<S: Serializer>(&self, scratch: &mut Scratch, out: &mut S) -> Result<(), S::Error> {
        scratch.text.clear();
        if push_place(&mut scratch.text, self).is_err() {
            return Err(no_memory(out));
        }
        out.str(scratch.text.as_str())
    }
}

impl Sent for Primitive {
    ghost said = { primitive_data };

    fn send<S: Serializer>(&self, scratch: &mut Scratch, out: &mut S) -> Result<(), S::Error> {
        scratch.text.clear();
        if push_primitive(&mut scratch.text, self).is_err() {
            return Err(no_memory(out));
        }
        out.str(scratch.text.as_str())
    }
}

impl Sent for Event {
    ghost said = { step_data };

    fn send<S: Serializer>(&self, scratch: &mut Scratch, out: &mut S) -> Result<(), S::Error> {
        if put_step(&mut scratch.text, self).is_err() {
            return Err(no_memory(out));
        }
        out.str(scratch.text.as_str())
    }
}
