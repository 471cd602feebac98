// A certificate is tried.
ghost use Rattle.std.specs.Prelude.{◌≡◌, ◌↔◌, ◌+◌, ◌<◌, ◌⊎◌, ℕ, false, IfErr, IfOk, IsOk, IsTrue, List, OnOk, length, nat_le, slice_get};
ghost use Rattle.std.specs.List.{list_all};
ghost use Rattle.yw_texts.specs.Texts.{IsAccepted};
ghost use Rattle.yw_proper.specs.First.{IsFirst, IsOfTask};
ghost use Rattle.yw_proper.specs.Load.{TextStaysBounded};
ghost use Rattle.yw_proper.specs.Proper.{AreWeights, HasWeights, IsProper, IsProved, OfNet};
ghost use Rattle.yw_proper.specs.Proper.{TaskIsProper, TasksAreProper};
ghost use Rattle.yw_proper.specs.Proper.{is_weight, join_weighs, split_weighs, weight_of_each, weight_of_place, weight_of_task};
ghost use Rattle.yw_spec.specs.declared.spec.Net.{Net};

use yw_base::{Gate, Items};
use yw_spec::{Net, Spec, Task};

/// The greatest weight.
pub const MOST_WEIGHT: u64 = 4_294_967_295;

/// Weights of a net: one for each place, and then one for each task.
pub type WeightList = Items<u64>;

/// What is the first to be wrong with a certificate.
#[derive(Clone, Copy, Debug, PartialEq, Eq)]
pub enum ProofFault {
    /// The weight with this number isn't 1 to 4,294,967,295.
    Weight(usize),
    /// What the join of the task with this number takes may weigh less than the task.
    Join(usize),
    /// What the split of the task with this number puts may weigh more than the task.
    Split(usize),
    /// The input weighs more than the output.
    Ends,
}

/// The weight with this number, 0 past the end.
fn weight_at(weights: &[u64], number: usize) -> u64
    ensures { result ≡ weight_of_place weights.now number }
{
    weights.get(number).copied().unwrap_or(0)
}

fn is_weight(weight: u64) -> bool
    ensures { result ≡ is_weight weight }
{
    1 <= weight && weight <= MOST_WEIGHT
}

/// A token on each of the places weighs this much or more. What is still wanted is counted down, so no sum wraps.
fn weigh_at_least(weights: &[u64], places: &[usize], own: u64) -> bool
    ensures { result ≡ nat_le own (weight_of_each weights.now places.now) }
{
    let mut wanted = own;
    for place in places {
        wanted = wanted.saturating_sub(weight_at(weights, *place));
    }
    wanted == 0
}

/// A token on each of the places weighs this much or less. What is left is counted down, so no sum wraps.
fn weigh_at_most(weights: &[u64], places: &[usize], own: u64) -> bool
    ensures { result ≡ nat_le (weight_of_each weights.now places.now) own }
{
    let mut left = own;
    for place in places {
        let weight = weight_at(weights, *place);
        if left < weight {
            return false;
        }
        left -= weight;
    }
    true
}

/// Each of the places weighs this much or more.
fn each_weighs_at_least(weights: &[u64], places: &[usize], own: u64) -> bool
    ensures { result ≡ list_all (λ c. nat_le own (weight_of_place weights.now c)) places.now }
{
    places.iter().all(|c| own <= weight_at(weights, *c))
}

/// Each of the places weighs this much or less.
fn each_weighs_at_most(weights: &[u64], places: &[usize], own: u64) -> bool
    ensures { result ≡ list_all (λ c. nat_le (weight_of_place weights.now c) own) places.now }
{
    places.iter().all(|c| weight_at(weights, *c) <= own)
}

fn join_weighs(task: &Task, weights: &[u64], own: u64) -> bool
    ensures { result ≡ join_weighs task.now.join weights.now task.now.before own }
{
    let before = task.before.as_slice();
    match task.join {
        Gate::And => weigh_at_least(weights, before, own),
        Gate::Xor | Gate::Or => each_weighs_at_least(weights, before, own),
    }
}

fn split_weighs(task: &Task, weights: &[u64], own: u64) -> bool
    ensures { result ≡ split_weighs task.now.split weights.now task.now.after own }
{
    let after = task.after.as_slice();
    match task.split {
        Gate::Xor => each_weighs_at_most(weights, after, own),
        Gate::And | Gate::Or => weigh_at_most(weights, after, own),
    }
}

/// Each weight is within the bounds, or this is the first that isn't.
fn check_weights(weights: &[u64]) -> Result<(), ProofFault>
    ensures ok { OnOk result (AreWeights weights.now) }
    ensures fault { IfErr result (λ fault. (net : Net) → IsFirst net weights.now fault) }
{
    for k in 0..weights.len() {
        if !is_weight(weights[k]) {
            return Err(ProofFault::Weight(k));
        }
    }
    Ok(())
}

/// The join and the split of the task with this number weigh right, or this is the first that doesn't.
fn check_task(task: &Task, k: usize, weights: &[u64], own: u64) -> Result<(), ProofFault>
    ensures ok { OnOk result (TaskIsProper weights.now own task.now) }
    ensures fault { IfErr result (IsOfTask weights.now own k task.now) }
{
    if !join_weighs(task, weights, own) {
        return Err(ProofFault::Join(k));
    }
    if !split_weighs(task, weights, own) {
        return Err(ProofFault::Split(k));
    }
    Ok(())
}

/// Each task's join and split weigh right, or this is the first that doesn't.
fn check_tasks(net: &Net, weights: &[u64]) -> Result<(), ProofFault>
    requires { HasWeights net.now weights.now }
    ensures ok { OnOk result (TasksAreProper net.now weights.now) }
    ensures fault { AreWeights weights.now → IfErr result (IsFirst net.now weights.now) }
{
    let tasks = net.tasks.as_slice();
    for k in 0..tasks.len() {
        check_task(
            &tasks[k],
            k,
            weights,
            weight_at(weights, net.places.len() + k),
        )?;
    }
    Ok(())
}

/// The net with this number.
fn net_at(spec: &Spec, net: usize) -> &Net
    requires { net < length spec.now.nets }
    ensures { slice_get spec.now.nets net ≡ Some result.now }
{
    &spec.nets.as_slice()[net]
}

/// The weights are as many as the places and the tasks of the net with this number.
pub fn are_weights_of(spec: &Spec, net: usize, weights: &WeightList) -> bool
    requires { net < length spec.now.nets }
    ensures { IsTrue result ↔ OfNet spec.now net (λ n. HasWeights n weights.now) }
{
    let net = net_at(spec, net);
    let places = net.places.len();
    places <= weights.len() && weights.len() - places == net.tasks.len()
}

/// Tries a certificate of one net.
fn prove_net(net: &Net, weights: &[u64]) -> Result<u64, ProofFault>
    requires { HasWeights net.now weights.now }
    ensures ok { IfOk result (IsProved net.now weights.now) }
    ensures fault { IfErr result (IsFirst net.now weights.now) }
{
    check_weights(weights)?;
    check_tasks(net, weights)?;
    let bound = weight_at(weights, net.input);
    if weight_at(weights, net.output) < bound {
        return Err(ProofFault::Ends);
    }
    Ok(bound)
}

/// Tries a certificate of the net with this number: weights of its places and then of its tasks. The answer is the weight of the input,
/// exactly where the certificate is proper; else it is the first fault: of the weights in order, then of each task in order its join
/// and its split, then of the ends. It takes no memory. With a yes, in each state that is ever reached each net of this number that was
/// loaded with a text of this specification is bounded: no place gets more tokens than so many weigh as one on the input, and where
/// the output is marked it has one token, no other place has one, and no task is active.
pub fn prove(spec: &Spec, net: usize, weights: &WeightList) -> Result<u64, ProofFault>
    requires net { net < length spec.now.nets }
    requires weights { OfNet spec.now net (λ n. HasWeights n weights.now) }
    ensures ok { OfNet spec.now net (λ n. IfOk result (IsProved n weights.now)) }
    ensures fault { OfNet spec.now net (λ n. IfErr result (IsFirst n weights.now)) }
    ensures proper { OfNet spec.now net (λ n. IsProper n weights.now → IsOk result) }
    ensures first { OfNet spec.now net (λ n. (fault : ProofFault) → IsFirst n weights.now fault
        → result ≡ Err fault) }
    ensures bounded { OfNet spec.now net (λ n. IsOk result → (text : List ℕ)
        → IsAccepted text spec.now → TextStaysBounded text net n weights.now) }
{
    prove_net(net_at(spec, net), weights.as_slice())
}
