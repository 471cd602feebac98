// The kinds of values that keys hold.
ghost use Rattle.std.specs.Prelude.{◌≡◌, IfOk, Option};
ghost use Rattle.toml.specs.Data.{Data, as_bool, as_integer, as_str};
ghost use Rattle.toml.specs.View.{items_view, view};
ghost use Rattle.yw_read.specs.Kinds.{any_value, each_of, flow_between, flow_in, flow_of, gate_words, kind_words, list_of, one_of, small_value, sort_words, usage_words};

use crate::raw::{RawFlow, RawKind};
use std::alloc::{AllocError, Global};
use toml::Value as TomlValue;
use yw_base::{Gate, IntList, Items, Sort, Text, TextList, Usage, Value};

/// What a key may hold: values of one kind.
pub trait FromValue: Sized + Drop {
    /// What a value says, if it is of the kind.
    ghost kind: { Data → Option Self };

    /// What a value says, or `None` where it isn't of the kind. An `Err` says that no memory was left.
    fn from_value(alloc: Global, value: &TomlValue) -> Result<Option<Self>, AllocError>
        ensures { IfOk result (λ said. said ≡ kind (view value.now)) };
}

impl FromValue for Text {
    ghost kind = { as_str };

    fn from_value(alloc: Global, value: &TomlValue) -> Result<Option<Text>, AllocError> {
        match value.as_str() {
            None => Ok(None),
            Some(text) => Ok(Some(Text::copy_of(alloc, text)?)),
        }
    }
}

impl FromValue for i64 {
    ghost kind = { as_integer };

    fn from_value(_alloc: Global, value: &TomlValue) -> Result<Option<i64>, AllocError> {
        Ok(value.as_integer())
    }
}

impl FromValue for bool {
    ghost kind = { as_bool };

    fn from_value(_alloc: Global, value: &TomlValue) -> Result<Option<bool>, AllocError> {
        Ok(value.as_bool())
    }
}

/// What these values say, if each is of the kind.
fn each_of<T: FromValue>(
    alloc: Global,
    values: &[TomlValue],
) -> Result<Option<Items<T>>, AllocError>
    ensures { IfOk result (λ said. said ≡ each_of T.kind (items_view values.now)) }
{
    let mut items = Items::new(alloc);
    for value in values {
        match T::from_value(alloc, value)? {
            Some(item) => items.push(item)?,
            None => return Ok(None),
        }
    }
    Ok(Some(items))
}

impl<T: FromValue> FromValue for Items<T> {
    ghost kind = { list_of T.kind };

    fn from_value(alloc: Global, value: &TomlValue) -> Result<Option<Items<T>>, AllocError> {
        match value.as_array() {
            None => Ok(None),
            Some(values) => each_of(alloc, values),
        }
    }
}

/// The flow between two nodes, if both are texts.
fn flow_between(
    alloc: Global,
    from: &TomlValue,
    to: &TomlValue,
) -> Result<Option<RawFlow>, AllocError>
    ensures { IfOk result (λ said. said ≡ flow_between (as_str (view from.now)) (as_str (view to.now))) }
{
    let Some(from) = Text::from_value(alloc, from)? else {
        return Ok(None);
    };
    match Text::from_value(alloc, to)? {
        None => Ok(None),
        Some(to) => Ok(Some(RawFlow { from, to })),
    }
}

fn flow_in(alloc: Global, values: &[TomlValue]) -> Result<Option<RawFlow>, AllocError>
    ensures { IfOk result (λ said. said ≡ flow_in (items_view values.now)) }
{
    if values.len() != 2 {
        return Ok(None);
    }
    flow_between(alloc, &values[0], &values[1])
}

impl FromValue for RawFlow {
    ghost kind = { flow_of };

    fn from_value(alloc: Global, value: &TomlValue) -> Result<Option<RawFlow>, AllocError> {
        match value.as_array() {
            None => Ok(None),
            Some(values) => flow_in(alloc, values),
        }
    }
}

fn sort_of(word: &str) -> Option<Sort>
    ensures { result ≡ sort_words word.now }
{
    match word {
        "bool" => Some(Sort::Bool),
        "int" => Some(Sort::Int),
        "text" => Some(Sort::Text),
        "ints" => Some(Sort::Ints),
        "texts" => Some(Sort::Texts),
        _ => None,
    }
}

impl FromValue for Sort {
    ghost kind = { one_of sort_words };

    fn from_value(_alloc: Global, value: &TomlValue) -> Result<Option<Sort>, AllocError> {
        match value.as_str() {
            None => Ok(None),
            Some(word) => Ok(sort_of(word)),
        }
    }
}

fn usage_of(word: &str) -> Option<Usage>
    ensures { result ≡ usage_words word.now }
{
    match word {
        "in" => Some(Usage::In),
        "out" => Some(Usage::Out),
        "inout" => Some(Usage::InOut),
        "local" => Some(Usage::Local),
        _ => None,
    }
}

impl FromValue for Usage {
    ghost kind = { one_of usage_words };

    fn from_value(_alloc: Global, value: &TomlValue) -> Result<Option<Usage>, AllocError> {
        match value.as_str() {
            None => Ok(None),
            Some(word) => Ok(usage_of(word)),
        }
    }
}

fn kind_of(word: &str) -> Option<RawKind>
    ensures { result ≡ kind_words word.now }
{
    match word {
        "atomic" => Some(RawKind::Atomic),
        "empty" => Some(RawKind::Empty),
        "sub" => Some(RawKind::Sub),
        _ => None,
    }
}

impl FromValue for RawKind {
    ghost kind = { one_of kind_words };

    fn from_value(_alloc: Global, value: &TomlValue) -> Result<Option<RawKind>, AllocError> {
        match value.as_str() {
            None => Ok(None),
            Some(word) => Ok(kind_of(word)),
        }
    }
}

fn gate_of(word: &str) -> Option<Gate>
    ensures { result ≡ gate_words word.now }
{
    match word {
        "and" => Some(Gate::And),
        "xor" => Some(Gate::Xor),
        "or" => Some(Gate::Or),
        _ => None,
    }
}

impl FromValue for Gate {
    ghost kind = { one_of gate_words };

    fn from_value(_alloc: Global, value: &TomlValue) -> Result<Option<Gate>, AllocError> {
        match value.as_str() {
            None => Ok(None),
            Some(word) => Ok(gate_of(word)),
        }
    }
}

/// The value of a sort that a value says, whatever its size.
fn any_value(alloc: Global, sort: Sort, value: &TomlValue) -> Result<Option<Value>, AllocError>
    ensures { IfOk result (λ said. said ≡ any_value sort (view value.now)) }
{
    match sort {
        Sort::Bool => Ok(value.as_bool().map(Value::Bool)),
        Sort::Int => Ok(value.as_integer().map(Value::Int)),
        Sort::Text => Ok(Text::from_value(alloc, value)?.map(Value::Text)),
        Sort::Ints => Ok(IntList::from_value(alloc, value)?.map(Value::Ints)),
        Sort::Texts => Ok(TextList::from_value(alloc, value)?.map(Value::Texts)),
    }
}

/// The value of a sort that a value says, or `None` where it isn't of the sort or is past the limits. An `Err`
/// says that no memory was left.
pub fn small_value(
    alloc: Global,
    sort: Sort,
    value: &TomlValue,
) -> Result<Option<Value>, AllocError>
    ensures { IfOk result (λ said. said ≡ small_value sort (view value.now)) }
{
    match any_value(alloc, sort, value)? {
        None => Ok(None),
        Some(value) => {
            if value.is_small() {
                Ok(Some(value))
            } else {
                Ok(None)
            }
        }
    }
}
