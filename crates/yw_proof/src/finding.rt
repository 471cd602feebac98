// What is found of a text.
ghost use Rattle.std.specs.Prelude.{◌≡◌, ◌<◌, ◌++◌, [], IfOk, MatchOption, None, Some, false, length, true, position, slice_get, unwrap_or};
ghost use Rattle.std.specs.Str.{bytes_eq, is_utf8};
ghost use Rattle.serde_json.specs.View.{view};
ghost use Rattle.yw_proof.specs.Found.{FindsNet, FindsShape, FindsValue, IsFound, finding_by, task_at};
ghost use Rattle.yw_proof.specs.Shape.{gives, value_said};
ghost use Rattle.yw_proof.specs.Weights.{names_of};
ghost use Rattle.yw_state.specs.Broken.{placeless};
ghost use Rattle.yw_state.specs.Nets.{net_called};

use crate::rule::ProofRule;
use crate::shape::{Proof, proof_in};
use crate::weights::{names_of, unknown_key, weights_in};
use serde_json::Value;
use std::alloc::{AllocError, Global};
use yw_base::{Name, Text, TextList};
use yw_proper::{ProofFault, prove};
use yw_spec::{Net, Spec};
use yw_state::{Refusal, Rule};
use yw_verdict::accepted;

/// What is found of a text.
#[derive(Debug, Drop)]
pub enum ProofFinding {
    /// The weights are a certificate of a net of a specification, and this is the weight of its input.
    Proved { spec: Name, net: Name, bound: u64 },
    /// The text, or that of the specification, breaks this rule of those that lines and specifications have.
    Refused(Refusal),
    /// It breaks this rule at this place.
    Unproved(ProofRule, Text),
}

/// The most bytes of a text that is looked into.
pub const PROOF_LIMIT: usize = 2_097_152;

/// A word and the name of the task with this number.
fn of_task(alloc: Global, word: &str, net: &Net, number: usize) -> Result<Text, AllocError>
    ensures { IfOk result (λ text. text ≡ word.now ++ task_at net.now number) }
{
    let mut text = String::from_str(alloc, word)?;
    if let Some(task) = net.tasks.get(number) {
        text.push_str(task.name.as_str())?;
    }
    Ok(Text::from_string(text))
}

/// A copy of the name with this number.
fn name_at(alloc: Global, names: &TextList, number: usize) -> Result<Text, AllocError>
    ensures { IfOk result (λ name. name ≡ unwrap_or (slice_get names.now number) []) }
{
    match names.get(number) {
        Some(name) => Text::copy_of(alloc, name.as_str()),
        None => Ok(Text::new(alloc)),
    }
}

/// What is found of a net's weights that are tried.
fn finding_by(
    alloc: Global,
    spec: Name,
    net: &Net,
    names: &TextList,
    unknown: Option<Text>,
    tried: Result<u64, ProofFault>,
) -> Result<ProofFinding, AllocError>
    requires { names.now ≡ names_of net.now }
    ensures { IfOk result (λ finding. finding ≡ finding_by spec net.now unknown tried) }
{
    if let Err(ProofFault::Weight(number)) = tried {
        let at = name_at(alloc, names, number)?;
        return Ok(ProofFinding::Unproved(ProofRule::Weight, at));
    }
    if let Some(at) = unknown {
        return Ok(ProofFinding::Unproved(ProofRule::Weight, at));
    }
    let at = match tried {
        Ok(bound) => {
            let net = net.name.copy()?;
            return Ok(ProofFinding::Proved { spec, net, bound });
        }
        Err(ProofFault::Weight(_)) => Text::new(alloc),
        Err(ProofFault::Join(number)) => of_task(alloc, "join ", net, number)?,
        Err(ProofFault::Split(number)) => of_task(alloc, "split ", net, number)?,
        Err(ProofFault::Ends) => Text::copy_of(alloc, "ends")?,
    };
    Ok(ProofFinding::Unproved(ProofRule::Rises, at))
}

/// The net with this number.
fn net_at(spec: &Spec, number: usize) -> &Net
    requires { number < length spec.now.nets }
    ensures { slice_get spec.now.nets number ≡ Some result.now }
{
    &spec.nets.as_slice()[number]
}

/// What is found of the weights of the net with this number.
fn judge_net(
    alloc: Global,
    spec: Spec,
    number: usize,
    weights: &Value,
) -> Result<ProofFinding, AllocError>
    requires { number < length spec.nets }
    ensures { IfOk result (FindsNet spec (view weights.now) (slice_get spec.nets number)) }
{
    let net = net_at(&spec, number);
    let names = names_of(alloc, net)?;
    let given = weights_in(alloc, weights, names.as_slice())?;
    let unknown = unknown_key(alloc, names.as_slice(), weights)?;
    let name = spec.name.copy()?;
    finding_by(
        alloc,
        name,
        net,
        &names,
        unknown,
        prove(&spec, number, &given),
    )
}

/// The number of the net with this name.
fn net_called(spec: &Spec, name: &Name) -> Option<usize>
    ensures { result ≡ position (λ n. bytes_eq n.name name.now) spec.now.nets }
{
    spec.nets
        .as_slice()
        .iter()
        .position(|net| net.name.as_str() == name.as_str())
}

/// What is found of a specification's weights.
fn judge_spec(
    alloc: Global,
    spec: Spec,
    net: &Name,
    weights: &Value,
) -> Result<ProofFinding, AllocError>
    ensures { IfOk result (FindsNet spec (view weights.now) (net_called spec net.now)) }
{
    match net_called(&spec, net) {
        Some(number) => judge_net(alloc, spec, number, weights),
        None => Ok(ProofFinding::Unproved(ProofRule::UnknownNet, Text::new(alloc))),
    }
}

/// What is found of what a text gives.
fn judge_proof(alloc: Global, proof: &Proof<'_>) -> Result<ProofFinding, AllocError>
    ensures { IfOk result (FindsShape (Some (gives proof.now.net proof.now.toml.now
        (view proof.now.weights.now)))) }
{
    match accepted(alloc, proof.toml)? {
        Ok(spec) => judge_spec(alloc, spec, &proof.net, proof.weights),
        Err(refusal) => Ok(ProofFinding::Refused(refusal)),
    }
}

/// What is found of a value.
fn judge_value(alloc: Global, value: &Value) -> Result<ProofFinding, AllocError>
    ensures { IfOk result (FindsValue (Some (view value.now))) }
{
    match proof_in(alloc, value)? {
        Some(proof) => judge_proof(alloc, &proof),
        None => Ok(ProofFinding::Unproved(ProofRule::NotProof, Text::new(alloc))),
    }
}

/// A finding by a rule without a place.
fn without_place(alloc: Global, rule: Rule) -> ProofFinding
    ensures { result ≡ ProofFinding.Refused (placeless rule) }
{
    let at = Text::new(alloc);
    ProofFinding::Refused(Refusal { rule, at })
}

/// The text that bytes spell, `None` where they aren't UTF-8.
fn text_in(bytes: &[u8]) -> Option<&str>
    ensures { MatchOption result (is_utf8 bytes.now ≡ false)
        (λ text. (text.now ≡ bytes.now) × (is_utf8 bytes.now ≡ true)) }
{
    match str::from_utf8(bytes) {
        Ok(text) => Some(text),
        Err(_) => None,
    }
}

/// What is found of bytes that aren't too many.
#[tactic(auto, unfolding(crate::specs::Shape::value_said))]
fn judge_bytes(alloc: Global, bytes: &[u8]) -> Result<ProofFinding, AllocError>
    ensures { IfOk result (FindsValue (value_said bytes.now)) }
{
    let Some(text) = text_in(bytes) else {
        return Ok(without_place(alloc, Rule::NotJson));
    };
    match Value::from_str(alloc, text) {
        Ok(value) => judge_value(alloc, &value),
        Err(fault) => {
            if fault.is_memory() {
                Err(AllocError)
            } else {
                Ok(without_place(alloc, Rule::NotJson))
            }
        }
    }
}

/// What is found of a text, of which so much is given that it shows whether it is too long. An `Err` says that
/// no memory was left.
#[tactic(auto, unfolding(crate::specs::Found::proof_limit))]
pub fn judge(alloc: Global, bytes: &[u8]) -> Result<ProofFinding, AllocError>
    ensures { IfOk result (IsFound bytes.now) }
{
    if bytes.len() > PROOF_LIMIT {
        return Ok(without_place(alloc, Rule::LineTooLong));
    }
    judge_bytes(alloc, bytes)
}
