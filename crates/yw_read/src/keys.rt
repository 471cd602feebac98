// The keys of a table.
ghost use Rattle.std.specs.Prelude.{◌≡◌, ◌++◌, List, ℕ, Option, Result, Ok, Err, IfNone, IfOk, IfSome, MatchResult, codes, map, option_map, string_bytes};
ghost use Rattle.std.specs.List.{list_any};
ghost use Rattle.std.specs.Str.{bytes_eq};
ghost use Rattle.toml.specs.Data.{Members, as_array, as_table, get_member};
ghost use Rattle.toml.specs.View.{items_view, table_view, view};
ghost use Rattle.yw_read.specs.Keys.{Fails, Gives, HasKnownKeys, IsLeastUnknown, element, elements, optional, optional_tables, place, required, required_tables, tables_in, unknown_key, value_or, with_no_other};
ghost use Rattle.yw_read.specs.Kinds.{small_value};

use crate::kinds::{FromValue, small_value};
use crate::raw::ReadFault;
use std::alloc::{AllocError, Global};
use toml::{Table, Value as TomlValue};
use yw_base::{Items, Sort, Text, Value};

/// What is at a key.
fn at<'a>(table: &'a Table, key: &str) -> Option<&'a TomlValue>
    ensures { option_map (λ value. view value.now) result ≡ get_member key.now (table_view table.now) }
{
    table.get(key)
}

/// The fault at a path.
fn fault_at(alloc: Global, path: &str) -> ReadFault
    ensures { Fails {A = ℕ} result (Err path.now) }
{
    match Text::copy_of(alloc, path) {
        Ok(path) => ReadFault::Shape(path),
        Err(AllocError) => ReadFault::Memory,
    }
}

/// What a key says that has to be there.
pub fn required<T: FromValue>(alloc: Global, table: &Table, key: &str) -> Result<T, ReadFault>
    ensures { Gives result (required T.kind key.now (table_view table.now)) }
{
    match at(table, key) {
        None => Err(fault_at(alloc, key)),
        Some(value) => match T::from_value(alloc, value)? {
            None => Err(fault_at(alloc, key)),
            Some(said) => Ok(said),
        },
    }
}

/// What a key says that may be missing.
pub fn optional<T: FromValue>(
    alloc: Global,
    table: &Table,
    key: &str,
) -> Result<Option<T>, ReadFault>
    ensures { Gives result (optional T.kind key.now (table_view table.now)) }
{
    match at(table, key) {
        None => Ok(None),
        Some(value) => match T::from_value(alloc, value)? {
            None => Err(fault_at(alloc, key)),
            Some(said) => Ok(Some(said)),
        },
    }
}

/// What a key says that stands for a default where it is missing.
pub fn value_or<T: FromValue>(
    alloc: Global,
    table: &Table,
    key: &str,
    default: T,
) -> Result<T, ReadFault>
    ensures { Gives result (value_or T.kind default key.now (table_view table.now)) }
{
    match at(table, key) {
        None => Ok(default),
        Some(value) => match T::from_value(alloc, value)? {
            None => Err(fault_at(alloc, key)),
            Some(said) => Ok(said),
        },
    }
}

/// The value of a sort that a key says, within the limits. The key may be missing.
pub fn optional_value(
    alloc: Global,
    table: &Table,
    key: &str,
    sort: Sort,
) -> Result<Option<Value>, ReadFault>
    ensures { Gives result (optional (small_value sort) key.now (table_view table.now)) }
{
    match at(table, key) {
        None => Ok(None),
        Some(value) => match small_value(alloc, sort, value)? {
            None => Err(fault_at(alloc, key)),
            Some(said) => Ok(Some(said)),
        },
    }
}

/// What a table may be: tables of one shape.
pub trait FromTable: Sized + Drop {
    /// What a table says, or the path to its first fault.
    ghost shape: { Members → Result Self (List ℕ) };

    /// What a table says, or the path to its first fault. It is `Memory` only where no memory was left.
    fn from_table(alloc: Global, table: &Table) -> Result<Self, ReadFault>
        ensures { Gives result (shape (table_view table.now)) };
}

/// The place of an element: `key[k]`.
fn place_of(alloc: Global, key: &str, k: usize) -> Result<String, AllocError>
    ensures { IfOk result (λ path. string_bytes path ≡ place key.now k) }
{
    Ok(format!(in alloc; "{key}[{k}]")?)
}

/// A path within an element, seen from the table above: `key[k].path`.
fn path_below(alloc: Global, key: &str, k: usize, path: &str) -> Result<String, AllocError>
    ensures { IfOk result (λ whole. string_bytes whole ≡ place key.now k ++ codes "." ++ path.now) }
{
    Ok(format!(in alloc; "{key}[{k}].{path}")?)
}

fn fault_of(path: Result<String, AllocError>) -> ReadFault
    ensures { MatchResult path (λ path. result ≡ ReadFault.Shape (string_bytes path)) (λ _. result ≡ ReadFault.Memory) }
{
    match path {
        Ok(path) => ReadFault::Shape(Text::from_string(path)),
        Err(AllocError) => ReadFault::Memory,
    }
}

/// The fault that an element is no table.
fn fault_at_element(alloc: Global, key: &str, k: usize) -> ReadFault
    ensures { Fails {A = ℕ} result (Err (place key.now k)) }
{
    fault_of(place_of(alloc, key, k))
}

/// A fault within an element.
fn fault_below(alloc: Global, key: &str, k: usize, path: &str) -> ReadFault
    ensures { Fails {A = ℕ} result (Err (place key.now k ++ codes "." ++ path.now)) }
{
    fault_of(path_below(alloc, key, k, path))
}

/// What an element says, which has to be a table.
fn element<T: FromTable>(
    alloc: Global,
    key: &str,
    k: usize,
    value: &TomlValue,
) -> Result<T, ReadFault>
    ensures { Gives result (element T.shape (place key.now k) (as_table (view value.now))) }
{
    match value.as_table() {
        None => Err(fault_at_element(alloc, key, k)),
        Some(table) => match T::from_table(alloc, table) {
            Ok(said) => Ok(said),
            Err(ReadFault::Shape(path)) => Err(fault_below(alloc, key, k, path.as_str())),
            Err(ReadFault::Memory) => Err(ReadFault::Memory),
            Err(ReadFault::NotToml) => Err(ReadFault::NotToml),
        },
    }
}

/// What elements say, each of which has to be a table.
fn elements<T: FromTable>(
    alloc: Global,
    key: &str,
    values: &[TomlValue],
) -> Result<Items<T>, ReadFault>
    ensures { Gives result (elements T.shape key.now 0 (items_view values.now)) }
{
    let mut items = Items::new(alloc);
    for (k, value) in values.iter().enumerate() {
        let item = element(alloc, key, k, value)?;
        items.push(item)?;
    }
    Ok(items)
}

fn tables_in<T: FromTable>(
    alloc: Global,
    key: &str,
    value: &TomlValue,
) -> Result<Items<T>, ReadFault>
    ensures { Gives result (tables_in T.shape key.now (as_array (view value.now))) }
{
    match value.as_array() {
        None => Err(fault_at(alloc, key)),
        Some(values) => elements(alloc, key, values),
    }
}

/// What the tables at a key say, which has to be there.
pub fn required_tables<T: FromTable>(
    alloc: Global,
    table: &Table,
    key: &str,
) -> Result<Items<T>, ReadFault>
    ensures { Gives result (required_tables T.shape key.now (table_view table.now)) }
{
    match at(table, key) {
        None => Err(fault_at(alloc, key)),
        Some(value) => tables_in(alloc, key, value),
    }
}

/// What the tables at a key say, of which there are none where it is missing.
pub fn optional_tables<T: FromTable>(
    alloc: Global,
    table: &Table,
    key: &str,
) -> Result<Items<T>, ReadFault>
    ensures { Gives result (optional_tables T.shape key.now (table_view table.now)) }
{
    match at(table, key) {
        None => Ok(Items::new(alloc)),
        Some(value) => tables_in(alloc, key, value),
    }
}

fn is_among(word: &str, words: &[&str]) -> bool
    ensures { result ≡ list_any (λ other. bytes_eq word.now other.now) words.now }
{
    words.iter().any(|other| word == *other)
}

/// The least key in byte order that is none of those known. A table's keys stand in this order, so it is the
/// first.
fn unknown_key<'a>(table: &'a Table, known: &[&str]) -> Option<&'a String>
    ensures value { option_map (λ key. string_bytes key.now) result ≡ unknown_key (map (λ key. key.now) known.now) (table_view table.now) }
    ensures least { IfSome result (λ key. IsLeastUnknown (map (λ word. word.now) known.now) (table_view table.now) (string_bytes key.now)) }
    ensures none { IfNone result (HasKnownKeys (map (λ word. word.now) known.now) (table_view table.now)) }
{
    for key in table.keys() {
        if !is_among(key.as_str(), known) {
            return Some(key);
        }
    }
    None
}

/// What a table says, where no key stands in it but those known.
pub fn with_no_other<T: Drop>(
    alloc: Global,
    table: &Table,
    known: &[&str],
    said: T,
) -> Result<T, ReadFault>
    ensures { Gives result (with_no_other (map (λ key. key.now) known.now) (table_view table.now) said) }
{
    match unknown_key(table, known) {
        None => Ok(said),
        Some(key) => Err(fault_at(alloc, key.as_str())),
    }
}
