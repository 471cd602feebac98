// The lines that answer queries.
ghost use Rattle.std.specs.Prelude.{◌≡◌, IfOk};
ghost use Rattle.serde_json.specs.Data.{string};
ghost use Rattle.serde_json.specs.Events.{SendsValue};
ghost use Rattle.yw_lines.specs.Answers.{answer_data, answer_line, names_data, rows_data, shown_data};

use crate::sent::{Scratch, Sent, sent_line};
use serde::{Described, Serialize, Serializer};
use std::alloc::{AllocError, Global};
use yw_base::{Bytes, NameList, Text};
use yw_state::{Shown, WorkList};

/// The reply to the answered query of this number.
#[derive(Drop)]
struct Answer<'a, T: Sent> {
    alloc: Global,
    n: u64,
    answer: &'a T,
}

impl<T: Sent> Described for Answer<'_, T> {
    ghost writes = { λ r. SendsValue (answer_data r.n (T.said r.answer.now)) };
}

impl<T: Sent> Serialize for Answer<'_, T> {
    fn serialize<S: Serializer>(&self, out: &mut S) -> Result<(), S::Error> {
        let mut scratch = Scratch::new(self.alloc, out)?;
        out.begin_map(Some(3))?;
        out.key("answer")?;
        self.answer.send(&mut scratch, out)?;
        out.key("n")?;
        out.u64(self.n)?;
        out.key("ok")?;
        out.bool(true)?;
        out.end_map()
    }
}

/// The answer to a query of this number that asks for a person's work: a list of objects
/// `{"case":..,"task":..,"what":"enter"}` and `{"item":..,"task":..,"what":..}`. The line is
/// `{"answer":[..],"n":..,"ok":true}` and a newline. An `Err` says that no memory was left.
pub fn reply_rows(alloc: Global, n: u64, rows: &WorkList) -> Result<Bytes, AllocError>
    ensures { IfOk result (λ line. line ≡ answer_line n (rows_data rows.now)) }
{
    let answer = rows;
    sent_line(alloc, &Answer { alloc, n, answer })
}

/// The answer to a query of this number that asks for a case: an object with `due`, `items`, `nets`, `runs`, `suspended`
/// and `tokens`, each a list of rows. The variables of a net are an object with its keys in byte order. An `Err` says
/// that no memory was left.
pub fn reply_shown(alloc: Global, n: u64, shown: &Shown) -> Result<Bytes, AllocError>
    ensures { IfOk result (λ line. line ≡ answer_line n (shown_data shown.now)) }
{
    let answer = shown;
    sent_line(alloc, &Answer { alloc, n, answer })
}

/// The answer to a query of this number that is a text: `{"answer":"..","n":..,"ok":true}` and a newline. An `Err` says
/// that no memory was left.
pub fn reply_text(alloc: Global, n: u64, text: &Text) -> Result<Bytes, AllocError>
    ensures { IfOk result (λ line. line ≡ answer_line n (string text.now)) }
{
    let answer = text;
    sent_line(alloc, &Answer { alloc, n, answer })
}

/// The answer to a query of this number that is a list of names, in their order:
/// `{"answer":["..",..],"n":..,"ok":true}` and a newline. An `Err` says that no memory was left.
pub fn reply_names(alloc: Global, n: u64, names: &NameList) -> Result<Bytes, AllocError>
    ensures { IfOk result (λ line. line ≡ answer_line n (names_data names.now)) }
{
    let answer = names;
    sent_line(alloc, &Answer { alloc, n, answer })
}
