// The line that says what was found.
ghost use Rattle.std.specs.Prelude.{◌≡◌, IfOk};
ghost use Rattle.serde_json.specs.View.{view};
ghost use Rattle.yw_proof.specs.Lines.{broken_data, finding_data, finding_line};
ghost use Rattle.yw_proof.specs.declared.finding.ProofFinding.{ProofFinding};

use crate::finding::ProofFinding;
use serde_json::{Value, json};
use std::alloc::{AllocError, Global};
use yw_base::{Bytes, Name, Text};
use yw_wire::value_line;

fn proved_value(alloc: Global, spec: &Name, net: &Name, bound: u64) -> Result<Value, AllocError>
    ensures { IfOk result (λ value. view value ≡ finding_data (ProofFinding.Proved spec.now net.now bound)) }
{
    let spec = spec.as_str();
    let net = net.as_str();
    json!(in alloc; {"bound": bound, "net": net, "ok": true, "spec": spec})
}

fn broken_value(alloc: Global, at: &Text, rule: &str) -> Result<Value, AllocError>
    ensures { IfOk result (λ value. view value ≡ broken_data at.now rule.now) }
{
    let at = at.as_str();
    json!(in alloc; {"at": at, "ok": false, "rule": rule})
}

fn finding_value(alloc: Global, finding: &ProofFinding) -> Result<Value, AllocError>
    ensures { IfOk result (λ value. view value ≡ finding_data finding.now) }
{
    match finding {
        ProofFinding::Proved { spec, net, bound } => proved_value(alloc, spec, net, *bound),
        ProofFinding::Refused(refusal) => broken_value(alloc, &refusal.at, refusal.rule.text()),
        ProofFinding::Unproved(rule, at) => broken_value(alloc, at, rule.text()),
    }
}

/// The line that says what was found. An `Err` says that no memory was left.
#[tactic(auto, unfolding(crate::specs::Lines::finding_line))]
pub fn finding_line(alloc: Global, finding: &ProofFinding) -> Result<Bytes, AllocError>
    ensures { IfOk result (λ line. line ≡ finding_line finding.now) }
{
    let value = finding_value(alloc, finding)?;
    value_line(alloc, &value)
}
