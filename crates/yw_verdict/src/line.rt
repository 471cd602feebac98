// The line that says what was found.
ghost use Rattle.std.specs.Prelude.{◌≡◌, IfOk};
ghost use Rattle.serde_json.specs.View.{view};
ghost use Rattle.yw_verdict.specs.Lines.{finding_data, finding_line};

use crate::finding::Finding;
use serde_json::{Value, json};
use std::alloc::{AllocError, Global};
use yw_base::{Bytes, Name};
use yw_state::Refusal;
use yw_wire::value_line;

fn accepted_value(alloc: Global, name: &Name) -> Result<Value, AllocError>
    ensures { IfOk result (λ value. view value ≡ finding_data (Finding.Accepted name.now)) }
{
    let spec = name.as_str();
    json!(in alloc; {"ok": true, "spec": spec})
}

fn refused_value(alloc: Global, refusal: &Refusal) -> Result<Value, AllocError>
    ensures { IfOk result (λ value. view value ≡ finding_data (Finding.Refused refusal.now)) }
{
    let at = refusal.at.as_str();
    let rule = refusal.rule.text();
    json!(in alloc; {"at": at, "ok": false, "rule": rule})
}

fn finding_value(alloc: Global, finding: &Finding) -> Result<Value, AllocError>
    ensures { IfOk result (λ value. view value ≡ finding_data finding.now) }
{
    match finding {
        Finding::Accepted(name) => accepted_value(alloc, name),
        Finding::Refused(refusal) => refused_value(alloc, refusal),
    }
}

/// The line that says what was found. An `Err` says that no memory was left.
#[tactic(auto, unfolding(crate::specs::Lines::finding_line))]
pub fn finding_line(alloc: Global, finding: &Finding) -> Result<Bytes, AllocError>
    ensures { IfOk result (λ line. line ≡ finding_line finding.now) }
{
    let value = finding_value(alloc, finding)?;
    value_line(alloc, &value)
}
