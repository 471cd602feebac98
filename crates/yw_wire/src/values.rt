// The values that JSON values stand for, and what is given under names.
ghost use Rattle.std.specs.Prelude.{◌≡◌, IfErr, Some, nat_le};
ghost use Rattle.serde_json.specs.Events.{items_len};
ghost use Rattle.serde_json.specs.View.{items_view, members_view, view};
ghost use Rattle.yw_base.specs.Values.{most_elements};
ghost use Rattle.yw_lines.specs.Fields.{any_value_of, givens_of};
ghost use Rattle.yw_lines.specs.Values.{each_of, givens_in, if_short, int_of, list_value, short_of, value_in};
ghost use Rattle.yw_wire.specs.Faults.{Says};

use crate::fault::FieldFault;
use crate::fields::{FromValue, each_of};
use serde_json::{Map, Value as JsonValue};
use std::alloc::Global;
use yw_base::{IntList, Items, MOST_ELEMENTS, MOST_TEXT_BYTES, Text, TextList, Value};
use yw_state::{Given, GivenList};

impl FromValue for i64 {
    ghost kind = { int_of };

    fn from_value(_alloc: Global, value: &JsonValue) -> Result<i64, FieldFault>
        ensures says { Says result (int_of (view value.now)) }
        ensures takes_none { IfErr result (λ fault. fault ≡ FieldFault.Kind) }
    {
        value.as_i64().ok_or(FieldFault::Kind)
    }
}

fn short_text(alloc: Global, text: &str) -> Result<Text, FieldFault>
    ensures { Says result (if_short text.now) }
{
    if text.len() > MOST_TEXT_BYTES {
        return Err(FieldFault::Kind);
    }
    Ok(Text::copy_of(alloc, text)?)
}

/// A text that isn't too long.
fn short_in(alloc: Global, value: &JsonValue) -> Result<Text, FieldFault>
    ensures { Says result (short_of (view value.now)) }
{
    match value.as_str() {
        None => Err(FieldFault::Kind),
        Some(text) => short_text(alloc, text),
    }
}

fn texts_in(alloc: Global, values: &[JsonValue]) -> Result<TextList, FieldFault>
    ensures { Says result (each_of short_of (items_view values.now)) }
{
    let mut texts = Items::new(alloc);
    for value in values {
        texts.push(short_in(alloc, value)?)?;
    }
    Ok(texts)
}

fn are_few(values: &[JsonValue]) -> bool
    ensures { result ≡ nat_le (items_len (items_view values.now)) most_elements }
{
    values.len() <= MOST_ELEMENTS
}

/// Whole numbers alone or texts alone.
fn list_value(alloc: Global, values: &[JsonValue]) -> Result<Value, FieldFault>
    ensures { Says result (list_value (items_view values.now)) }
{
    if !are_few(values) {
        return Err(FieldFault::Kind);
    }
    match each_of::<i64>(alloc, values) {
        Ok(ints) => Ok(Value::Ints(ints)),
        Err(FieldFault::Memory) => Err(FieldFault::Memory),
        Err(FieldFault::Kind) => Ok(Value::Texts(texts_in(alloc, values)?)),
    }
}

/// The value for which a JSON value stands. It is `Kind` exactly where it has no sort, unless memory ran out.
#[tactic(auto, unfolding(yw_lines::specs::Values::value_in))]
fn value_in(alloc: Global, value: &JsonValue) -> Result<Value, FieldFault>
    ensures { Says result (value_in (view value.now)) }
{
    match value {
        JsonValue::Null => Err(FieldFault::Kind),
        JsonValue::Bool(truth) => Ok(Value::Bool(*truth)),
        JsonValue::Number(number) => Ok(Value::Int(number.as_i64().ok_or(FieldFault::Kind)?)),
        JsonValue::String(text) => Ok(Value::Text(short_text(alloc, text.as_str())?)),
        JsonValue::Array(values) => list_value(alloc, values),
        JsonValue::Object(_) => Err(FieldFault::Kind),
    }
}

impl FromValue for Option<Value> {
    ghost kind = { any_value_of };

    fn from_value(alloc: Global, value: &JsonValue) -> Result<Option<Value>, FieldFault> {
        match value_in(alloc, value) {
            Ok(value) => Ok(Some(value)),
            Err(FieldFault::Kind) => Ok(None),
            Err(FieldFault::Memory) => Err(FieldFault::Memory),
        }
    }
}

fn givens_in(alloc: Global, members: &Map<String, JsonValue>) -> Result<GivenList, FieldFault>
    ensures { Says result (Some (givens_in (members_view members.now.entries))) }
{
    let mut givens = Items::new(alloc);
    for (name, value) in members.iter() {
        let name = Text::copy_of(alloc, name.as_str())?;
        let value = Option::<Value>::from_value(alloc, value)?;
        givens.push(Given { name, value })?;
    }
    Ok(givens)
}

impl FromValue for GivenList {
    ghost kind = { givens_of };

    fn from_value(alloc: Global, value: &JsonValue) -> Result<GivenList, FieldFault> {
        match value.as_object() {
            None => Err(FieldFault::Kind),
            Some(members) => givens_in(alloc, members),
        }
    }
}
