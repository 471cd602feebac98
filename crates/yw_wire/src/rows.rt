// What a query is told of work and of a case, as values.
ghost use Rattle.std.specs.Prelude.{◌≡◌, IfOk, OnOk};
ghost use Rattle.serde_json.specs.Data.{object};
ghost use Rattle.serde_json.specs.Events.{SendsValue};
ghost use Rattle.yw_lines.specs.Answers.{at_key, due_data, int_data, item_data, members_data, net_data, run_data, shown_data, stage_text, token_data, value_data, what_text, who_text, work_data};
ghost use Rattle.yw_wire.specs.Sent.{entry_members};

use crate::sent::{Scratch, Sent, no_memory};
use crate::steps::kind_text;
use serde::Serializer;
use std::alloc::{AllocError, Global};
use std::collections::BTreeMap;
use yw_base::{Name, Value};
use yw_state::{
    DueRow, ItemRow, NamedValue, NamedValueList, NetRow, RunRow, Shown, Stage, TokenRow, What,
    WorkRow,
};

// ---- work

fn what_text(what: What) -> &'static str
    ensures { result.now ≡ what_text what }
{
    match what {
        What::Enter => "enter",
        What::Start => "start",
        What::Complete => "complete",
    }
}

/// The key under which the identity stands: a net's or an item's.
fn at_key(what: What) -> &'static str
    ensures { result.now ≡ at_key what }
{
    match what {
        What::Enter => "case",
        What::Start | What::Complete => "item",
    }
}

impl Sent for WorkRow {
    ghost said = { work_data };

    fn send<S: Serializer>(&self, scratch: &mut Scratch, out: &mut S) -> Result<(), S::Error> {
        out.begin_map(Some(3))?;
        out.key(at_key(self.what))?;
        self.at.send(scratch, out)?;
        out.key("task")?;
        self.task.send(scratch, out)?;
        out.key("what")?;
        out.str(what_text(self.what))?;
        out.end_map()
    }
}

// ---- values

impl Sent for i64 {
    ghost said = { int_data };

    fn send<S: Serializer>(&self, _scratch: &mut Scratch, out: &mut S) -> Result<(), S::Error> {
        match u64::try_from(*self) {
            Ok(number) => out.u64(number),
            Err(_) => out.i64(*self),
        }
    }
}

impl Sent for Value {
    ghost said = { value_data };

    fn send<S: Serializer>(&self, scratch: &mut Scratch, out: &mut S) -> Result<(), S::Error> {
        match self {
            Value::Bool(truth) => out.bool(*truth),
            Value::Int(int) => int.send(scratch, out),
            Value::Text(chars) => chars.send(scratch, out),
            Value::Ints(ints) => ints.send(scratch, out),
            Value::Texts(texts) => texts.send(scratch, out),
        }
    }
}

/// Values by name, in order.
type ByName<'a> = BTreeMap<&'a str, &'a Value>;

fn by_name(alloc: Global, values: &NamedValueList) -> Result<ByName<'_>, AllocError>
    ensures { IfOk result (λ map. entry_members map.entries ≡ members_data values.now) }
{
    let mut map = BTreeMap::new(alloc);
    for value in values.as_slice() {
        map.insert(value.name.as_str(), &value.value)?;
    }
    Ok(map)
}

fn send_members<S: Serializer>(
    map: &ByName<'_>,
    scratch: &mut Scratch,
    out: &mut S,
) -> Result<(), S::Error>
    ensures { OnOk result (SendsValue (object (entry_members map.now.entries)) (S.written out.old) (S.written out.new)) }
{
    out.begin_map(Some(map.len()))?;
    for (name, value) in map {
        out.key(name)?;
        value.send(scratch, out)?;
    }
    out.end_map()
}

/// The values as an object, in order of their names.
fn send_values<S: Serializer>(
    values: &NamedValueList,
    scratch: &mut Scratch,
    out: &mut S,
) -> Result<(), S::Error>
    ensures { OnOk result (SendsValue (object (members_data values.now)) (S.written out.old) (S.written out.new)) }
{
    match by_name(scratch.alloc, values) {
        Ok(map) => send_members(&map, scratch, out),
        Err(AllocError) => Err(no_memory(out)),
    }
}

// ---- what stands in a case: each row is a list

impl Sent for DueRow {
    ghost said = { due_data };

    fn send<S: Serializer>(&self, scratch: &mut Scratch, out: &mut S) -> Result<(), S::Error> {
        out.begin_seq(Some(2))?;
        self.at.send(scratch, out)?;
        out.str(kind_text(self.check))?;
        out.end_seq()
    }
}

fn stage_text(stage: Stage) -> &'static str
    ensures { result.now ≡ stage_text stage }
{
    match stage {
        Stage::Ready => "ready",
        Stage::Executing => "executing",
        Stage::Completed => "completed",
    }
}

/// The person who started an item, and the empty text where there is none.
fn who_text(who: &Option<Name>) -> &str
    ensures { result.now ≡ who_text who.now }
{
    match who {
        Some(who) => who.as_str(),
        None => "",
    }
}

impl Sent for ItemRow {
    ghost said = { item_data };

    fn send<S: Serializer>(&self, scratch: &mut Scratch, out: &mut S) -> Result<(), S::Error> {
        out.begin_seq(Some(4))?;
        self.item.send(scratch, out)?;
        self.task.send(scratch, out)?;
        out.str(stage_text(self.stage))?;
        out.str(who_text(&self.who))?;
        out.end_seq()
    }
}

impl Sent for NetRow {
    ghost said = { net_data };

    fn send<S: Serializer>(&self, scratch: &mut Scratch, out: &mut S) -> Result<(), S::Error> {
        out.begin_seq(Some(4))?;
        self.net.send(scratch, out)?;
        self.spec.send(scratch, out)?;
        self.name.send(scratch, out)?;
        send_values(&self.values, scratch, out)?;
        out.end_seq()
    }
}

impl Sent for RunRow {
    ghost said = { run_data };

    fn send<S: Serializer>(&self, scratch: &mut Scratch, out: &mut S) -> Result<(), S::Error> {
        out.begin_seq(Some(3))?;
        self.run.send(scratch, out)?;
        out.bool(self.waiting)?;
        self.rest.send(scratch, out)?;
        out.end_seq()
    }
}

impl Sent for TokenRow {
    ghost said = { token_data };

    fn send<S: Serializer>(&self, scratch: &mut Scratch, out: &mut S) -> Result<(), S::Error> {
        out.begin_seq(Some(3))?;
        self.net.send(scratch, out)?;
        self.place.send(scratch, out)?;
        out.u64(u64::from(self.count))?;
        out.end_seq()
    }
}

impl Sent for Shown {
    ghost said = { shown_data };

    fn send<S: Serializer>(&self, scratch: &mut Scratch, out: &mut S) -> Result<(), S::Error> {
        out.begin_map(Some(6))?;
        out.key("due")?;
        self.due.send(scratch, out)?;
        out.key("items")?;
        self.items.send(scratch, out)?;
        out.key("nets")?;
        self.nets.send(scratch, out)?;
        out.key("runs")?;
        self.runs.send(scratch, out)?;
        out.key("suspended")?;
        self.suspended.send(scratch, out)?;
        out.key("tokens")?;
        self.tokens.send(scratch, out)?;
        out.end_map()
    }
}
