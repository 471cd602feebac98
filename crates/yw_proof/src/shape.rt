// What a text gives.
ghost use Rattle.std.specs.Prelude.{◌≡◌, IfOk, MatchOption, None, Some, codes, is_some};
ghost use Rattle.serde_json.specs.View.{view};
ghost use Rattle.yw_lines.specs.Fields.{field, has_members, name_of};
ghost use Rattle.yw_proof.specs.Shape.{gives, object_of, proof_in};

use serde_json::Value;
use std::alloc::{AllocError, Global};
use yw_base::{Name, NameFault};

/// What a text gives: a net's name, the text of its specification, and an object with weights.
#[derive(Drop)]
pub struct Proof<'a> {
    pub net: Name,
    pub toml: &'a str,
    pub weights: &'a Value,
}

/// The name under `net`, `None` where none is there.
fn net_in(alloc: Global, value: &Value) -> Result<Option<Name>, AllocError>
    ensures { IfOk result (λ net. net ≡ field name_of (codes "net") (view value.now)) }
{
    let Some(text) = value.get("net").and_then(Value::as_str) else {
        return Ok(None);
    };
    match Name::read(alloc, text) {
        Ok(net) => Ok(Some(net)),
        Err(NameFault::Shape) => Ok(None),
        Err(NameFault::Memory) => Err(AllocError),
    }
}

/// The object under `weights`.
fn weights_in(value: &Value) -> Option<&Value>
    ensures { MatchOption result (field object_of (codes "weights") (view value.now) ≡ None)
        (λ weights. field object_of (codes "weights") (view value.now) ≡ Some (view weights.now)) }
{
    match value.get("weights") {
        Some(weights) if weights.is_object() => Some(weights),
        _ => None,
    }
}

fn has_three(value: &Value) -> bool
    ensures { result ≡ has_members 3 (view value.now) }
{
    match value.as_object() {
        Some(members) => members.len() == 3,
        None => false,
    }
}

/// What a value gives, `None` where it has another shape. An `Err` says that no memory was left.
#[tactic(auto, unfolding(crate::specs::Shape::proof_in))]
pub fn proof_in<'a>(alloc: Global, value: &'a Value) -> Result<Option<Proof<'a>>, AllocError>
    ensures { IfOk result (λ proof. MatchOption proof (proof_in (view value.now) ≡ None)
        (λ p. proof_in (view value.now) ≡ Some (gives p.net p.toml.now (view p.weights.now)))) }
{
    let Some(net) = net_in(alloc, value)? else {
        return Ok(None);
    };
    let Some(toml) = value.get("toml").and_then(Value::as_str) else {
        return Ok(None);
    };
    let Some(weights) = weights_in(value) else {
        return Ok(None);
    };
    if !has_three(value) {
        return Ok(None);
    }
    Ok(Some(Proof { net, toml, weights }))
}
