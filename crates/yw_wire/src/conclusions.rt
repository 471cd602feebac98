// What a rule concludes: a worklet, or an exlet with its steps.
ghost use Rattle.std.specs.Prelude.{◌≡◌, ◌&&◌, true, false, take, length, IfOk, MatchOption, None, Some, codes, if◌then◌else◌, option_map};
ghost use Rattle.std.specs.Str.{bytes_eq};
ghost use Rattle.serde_json.specs.View.{view};
ghost use Rattle.yw_base.specs.Spelling.{is_name};
ghost use Rattle.yw_lines.specs.Fields.{conclusion_of, exlet_of, worklet_of};
ghost use Rattle.yw_lines.specs.Primitives.{behind_compensate, compensate_front, compensation_in, primitive_in};
ghost use Rattle.yw_wire.specs.Faults.{Says};
ghost use Rattle.yw_wire.specs.Steps.{compensated, has_front, step_of, steps_of};

use crate::fault::FieldFault;
use crate::fields::{FromValue, field, has_members, list_of};
use crate::kinds::name_in;
use serde_json::Value as JsonValue;
use std::alloc::{AllocError, Global};
use yw_base::{Name, Text};
use yw_state::{Conclusion, Primitive, PrimitiveList};

fn behind_compensate(text: &str) -> Option<&str>
    ensures { MatchOption result (has_front text.now ≡ false) (λ rest. (has_front text.now ≡ true) × (rest.now ≡ behind_compensate text.now)) }
{
    text.strip_prefix("compensate ")
}

fn compensated(alloc: Global, text: &str) -> Result<Name, FieldFault>
    ensures { Says result (compensated text.now) }
{
    match behind_compensate(text) {
        None => Err(FieldFault::Kind),
        Some(name) => name_in(alloc, name),
    }
}

fn compensation_in(alloc: Global, text: &str) -> Result<Primitive, AllocError>
    ensures { IfOk result (λ primitive. primitive ≡ compensation_in text.now) }
{
    match compensated(alloc, text) {
        Ok(name) => Ok(Primitive::Compensate(name)),
        Err(FieldFault::Kind) => Ok(Primitive::Unknown(Text::copy_of(alloc, text)?)),
        Err(FieldFault::Memory) => Err(AllocError),
    }
}

#[tactic(auto, unfolding(yw_lines::specs::Primitives::primitive_in))]
fn primitive_in(alloc: Global, text: &str) -> Result<Primitive, AllocError>
    ensures { IfOk result (λ primitive. primitive ≡ primitive_in text.now) }
{
    match text {
        "suspend_item" => Ok(Primitive::SuspendItem),
        "continue_item" => Ok(Primitive::ContinueItem),
        "restart_item" => Ok(Primitive::RestartItem),
        "complete_item" => Ok(Primitive::CompleteItem),
        "remove_item" => Ok(Primitive::RemoveItem),
        "suspend_case" => Ok(Primitive::SuspendCase),
        "continue_case" => Ok(Primitive::ContinueCase),
        "remove_case" => Ok(Primitive::RemoveCase),
        _ => compensation_in(alloc, text),
    }
}

impl FromValue for Primitive {
    ghost kind = { step_of };

    fn from_value(alloc: Global, value: &JsonValue) -> Result<Primitive, FieldFault> {
        match value.as_str() {
            None => Err(FieldFault::Kind),
            Some(text) => Ok(primitive_in(alloc, text)?),
        }
    }
}

impl FromValue for PrimitiveList {
    ghost kind = { steps_of };

    fn from_value(alloc: Global, value: &JsonValue) -> Result<PrimitiveList, FieldFault> {
        list_of(alloc, value)
    }
}

fn worklet_in(alloc: Global, value: &JsonValue) -> Result<Conclusion, FieldFault>
    ensures { Says result (worklet_of (view value.now)) }
{
    Ok(Conclusion::Worklet(field(alloc, value, "worklet")?))
}

#[tactic(auto, using(crate::proofs::ListLemmas::exlet_of_steps))]
fn exlet_in(alloc: Global, value: &JsonValue) -> Result<Conclusion, FieldFault>
    ensures { Says result (exlet_of (view value.now)) }
{
    Ok(Conclusion::Exlet(field(alloc, value, "exlet")?))
}

impl FromValue for Conclusion {
    ghost kind = { conclusion_of };

    #[tactic(auto, unfolding(yw_lines::specs::Fields::conclusion_of))]
    fn from_value(alloc: Global, value: &JsonValue) -> Result<Conclusion, FieldFault> {
        if !has_members(value, 1) {
            return Err(FieldFault::Kind);
        }
        match worklet_in(alloc, value) {
            Ok(worklet) => Ok(worklet),
            Err(FieldFault::Memory) => Err(FieldFault::Memory),
            Err(FieldFault::Kind) => exlet_in(alloc, value),
        }
    }
}
