// The kinds of fields: names, identities, words and numbers.
ghost use Rattle.std.specs.Prelude.{◌≡◌, IfErr, codes};
ghost use Rattle.serde_json.specs.Find.{as_str};
ghost use Rattle.yw_lines.specs.Kinds.{kind_words, raised_words};
ghost use Rattle.yw_lines.specs.Fields.{field, identity_of, line_text_of, may_be_name, name_of, node_of, one_of, only_if, optional_name_of, roles_of, side_words};
ghost use Rattle.serde_json.specs.View.{view};
ghost use Rattle.yw_base.specs.Spelling.{is_name};
ghost use Rattle.yw_lines.specs.Identities.{identity_in};
ghost use Rattle.yw_wire.specs.Faults.{Says};

use crate::fault::FieldFault;
use crate::fields::{FromValue, list_of};
use serde_json::Value as JsonValue;
use std::alloc::Global;
use yw_base::{Ident, IdentFault, Name, NameFault, NameList, Text};
use yw_state::TreeKind;

/// The most bytes of a line, without its newline, and of a text in it.
pub const LINE_LIMIT: usize = 1_048_576;

/// The most roles of a person.
const MOST_ROLES: usize = 64;

/// The greatest number of a tree's node.
const MOST_NODE: u64 = 65_535;

impl FromValue for Text {
    ghost kind = { as_str };

    fn from_value(alloc: Global, value: &JsonValue) -> Result<Text, FieldFault> {
        match value.as_str() {
            None => Err(FieldFault::Kind),
            Some(text) => Ok(Text::copy_of(alloc, text)?),
        }
    }
}

fn line_text_in(alloc: Global, value: &JsonValue) -> Result<Text, FieldFault>
    ensures { Says result (line_text_of (view value.now)) }
{
    match value.as_str() {
        None => Err(FieldFault::Kind),
        Some(text) => {
            if text.len() > LINE_LIMIT {
                return Err(FieldFault::Kind);
            }
            Ok(Text::copy_of(alloc, text)?)
        }
    }
}

/// A field's text that is no longer than a line, as each text in a line is.
pub fn line_text(alloc: Global, line: &JsonValue, key: &str) -> Result<Text, FieldFault>
    ensures { Says result (field line_text_of key.now (view line.now)) }
{
    match line.get(key) {
        None => Err(FieldFault::Kind),
        Some(value) => line_text_in(alloc, value),
    }
}

/// The name that a text is.
pub fn name_in(alloc: Global, text: &str) -> Result<Name, FieldFault>
    ensures { Says result (only_if is_name text.now) }
{
    match Name::read(alloc, text) {
        Ok(name) => Ok(name),
        Err(NameFault::Shape) => Err(FieldFault::Kind),
        Err(NameFault::Memory) => Err(FieldFault::Memory),
    }
}

impl FromValue for Name {
    ghost kind = { name_of };

    fn from_value(alloc: Global, value: &JsonValue) -> Result<Name, FieldFault> {
        match value.as_str() {
            None => Err(FieldFault::Kind),
            Some(text) => name_in(alloc, text),
        }
    }
}

fn may_be_name(alloc: Global, text: &str) -> Result<Option<Name>, FieldFault>
    ensures { Says result (may_be_name text.now) }
{
    if text.is_empty() {
        return Ok(None);
    }
    Ok(Some(name_in(alloc, text)?))
}

impl FromValue for Option<Name> {
    ghost kind = { optional_name_of };

    fn from_value(alloc: Global, value: &JsonValue) -> Result<Option<Name>, FieldFault> {
        match value.as_str() {
            None => Err(FieldFault::Kind),
            Some(text) => may_be_name(alloc, text),
        }
    }
}

impl FromValue for NameList {
    ghost kind = { roles_of };

    fn from_value(alloc: Global, value: &JsonValue) -> Result<NameList, FieldFault> {
        let names = list_of::<Name>(alloc, value)?;
        if names.len() > MOST_ROLES || !names.are_distinct() {
            return Err(FieldFault::Kind);
        }
        Ok(names)
    }
}

fn identity_in(alloc: Global, text: &str) -> Result<Ident, FieldFault>
    ensures { Says result (identity_in text.now) }
{
    match Ident::read(alloc, text) {
        Ok(ident) => Ok(ident),
        Err(IdentFault::Shape) => Err(FieldFault::Kind),
        Err(IdentFault::Memory) => Err(FieldFault::Memory),
    }
}

impl FromValue for Ident {
    ghost kind = { identity_of };

    fn from_value(alloc: Global, value: &JsonValue) -> Result<Ident, FieldFault> {
        match value.as_str() {
            None => Err(FieldFault::Kind),
            Some(text) => identity_in(alloc, text),
        }
    }
}

fn kind_in(word: &str) -> Option<TreeKind>
    ensures { result ≡ kind_words word.now }
{
    match word {
        "pre" => Some(TreeKind::Pre),
        "post" => Some(TreeKind::Post),
        "select" => Some(TreeKind::Select),
        "external" => Some(TreeKind::External),
        "timeout" => Some(TreeKind::Timeout),
        "abort" => Some(TreeKind::Abort),
        _ => None,
    }
}

impl FromValue for TreeKind {
    ghost kind = { one_of kind_words };

    fn from_value(_alloc: Global, value: &JsonValue) -> Result<TreeKind, FieldFault>
        ensures says { Says result (one_of kind_words (view value.now)) }
        ensures takes_none { IfErr result (λ fault. fault ≡ FieldFault.Kind) }
    {
        value.as_str().and_then(kind_in).ok_or(FieldFault::Kind)
    }
}

fn raised_in(word: &str) -> Option<TreeKind>
    ensures { result ≡ raised_words word.now }
{
    match word {
        "external" => Some(TreeKind::External),
        "timeout" => Some(TreeKind::Timeout),
        "abort" => Some(TreeKind::Abort),
        _ => None,
    }
}

/// What happened outside, which the field `kind` says. It takes no memory.
pub fn raised_kind(value: &JsonValue) -> Result<TreeKind, FieldFault>
    ensures says { Says result (field (one_of raised_words) (codes "kind") (view value.now)) }
    ensures takes_none { IfErr result (λ fault. fault ≡ FieldFault.Kind) }
{
    value
        .get("kind")
        .and_then(JsonValue::as_str)
        .and_then(raised_in)
        .ok_or(FieldFault::Kind)
}

fn side_in(word: &str) -> Option<bool>
    ensures { result ≡ side_words word.now }
{
    match word {
        "true" => Some(true),
        "false" => Some(false),
        _ => None,
    }
}

impl FromValue for bool {
    ghost kind = { one_of side_words };

    fn from_value(_alloc: Global, value: &JsonValue) -> Result<bool, FieldFault>
        ensures says { Says result (one_of side_words (view value.now)) }
        ensures takes_none { IfErr result (λ fault. fault ≡ FieldFault.Kind) }
    {
        value.as_str().and_then(side_in).ok_or(FieldFault::Kind)
    }
}

impl FromValue for u32 {
    ghost kind = { node_of };

    fn from_value(_alloc: Global, value: &JsonValue) -> Result<u32, FieldFault>
        ensures says { Says result (node_of (view value.now)) }
        ensures takes_none { IfErr result (λ fault. fault ≡ FieldFault.Kind) }
    {
        match value.as_u64() {
            Some(number) if number <= MOST_NODE => Ok(number as u32),
            _ => Err(FieldFault::Kind),
        }
    }
}
