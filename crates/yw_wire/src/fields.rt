// The fields of a line.
ghost use Rattle.std.specs.Prelude.{◌≡◌, IfErr, Option};
ghost use Rattle.serde_json.specs.Data.{Data};
ghost use Rattle.serde_json.specs.View.{items_view, view};
ghost use Rattle.yw_lines.specs.Fields.{field, has_members, list_of};
ghost use Rattle.yw_lines.specs.Shapes.{asked_by};
ghost use Rattle.yw_lines.specs.Values.{each_of};
ghost use Rattle.yw_wire.specs.Faults.{Says};

use crate::fault::FieldFault;
use serde_json::Value as JsonValue;
use std::alloc::Global;
use yw_base::Items;
use yw_state::Asked;

/// What a field may be: values of one kind.
pub trait FromValue: Sized + Drop {
    /// What a value says, if it is of the kind.
    ghost kind: { Data → Option Self };

    /// What a value says. It is `Kind` exactly where the value isn't of the kind, unless memory ran out.
    fn from_value(alloc: Global, value: &JsonValue) -> Result<Self, FieldFault>
        ensures { Says result (kind (view value.now)) };
}

/// What a field says. It is `Kind` exactly where it is missing or its value isn't of the kind, unless memory
/// ran out.
pub fn field<T: FromValue>(alloc: Global, value: &JsonValue, key: &str) -> Result<T, FieldFault>
    ensures { Says result (field T.kind key.now (view value.now)) }
{
    match value.get(key) {
        None => Err(FieldFault::Kind),
        Some(value) => T::from_value(alloc, value),
    }
}

/// What these values say, if each is of the kind.
pub fn each_of<T: FromValue>(alloc: Global, values: &[JsonValue]) -> Result<Items<T>, FieldFault>
    ensures { Says result (each_of T.kind (items_view values.now)) }
{
    let mut items = Items::new(alloc);
    for value in values {
        items.push(T::from_value(alloc, value)?)?;
    }
    Ok(items)
}

/// What a list says, if each of its items is of the kind.
pub fn list_of<T: FromValue>(alloc: Global, value: &JsonValue) -> Result<Items<T>, FieldFault>
    ensures { Says result (list_of T.kind (view value.now)) }
{
    match value.as_array() {
        None => Err(FieldFault::Kind),
        Some(values) => each_of(alloc, values),
    }
}

/// The value is an object with so many members.
pub fn has_members(value: &JsonValue, n: usize) -> bool
    ensures { result ≡ has_members n (view value.now) }
{
    match value.as_object() {
        Some(map) => map.len() == n,
        None => false,
    }
}

/// What is asked, where the value has so many members. It takes no memory.
pub fn asked_by(value: &JsonValue, n: usize, asked: Asked) -> Result<Asked, FieldFault>
    ensures says { Says result (asked_by n (view value.now) asked) }
    ensures takes_none { IfErr result (λ fault. fault ≡ FieldFault.Kind) }
{
    if has_members(value, n) {
        Ok(asked)
    } else {
        Err(FieldFault::Kind)
    }
}
