// The weights that a net's places and tasks are given.
ghost use Rattle.std.specs.Prelude.{◌≡◌, ◌++◌, List, ℕ, IfOk, MatchOption, None, Some, map};
ghost use Rattle.std.specs.List.{list_any};
ghost use Rattle.std.specs.Str.{bytes_eq};
ghost use Rattle.serde_json.specs.View.{members_view, view};
ghost use Rattle.yw_proof.specs.Weights.{keys_of, names_of, number_under, task_name, unknown_among, unknown_key, weights_in};
ghost use Rattle.yw_spec.specs.Net.{place_text};

use serde_json::{Map, Value};
use std::alloc::{AllocError, Global};
use yw_base::{Items, Text, TextList};
use yw_proper::WeightList;
use yw_spec::{Net, Place, Task};

/// The texts of places.
fn place_names(alloc: Global, places: &[Place]) -> Result<TextList, AllocError>
    ensures { IfOk result (λ names. names ≡ map place_text places.now) }
{
    let mut names = Items::new(alloc);
    for place in places {
        names.push(Text::from_string(place.text(alloc)?))?;
    }
    Ok(names)
}

/// Behind these names those of tasks.
fn with_tasks(alloc: Global, names: TextList, tasks: &[Task]) -> Result<TextList, AllocError>
    ensures { IfOk result (λ all. all ≡ names ++ map task_name tasks.now) }
{
    let mut all = names;
    for task in tasks {
        all.push(Text::copy_of(alloc, task.name.as_str())?)?;
    }
    Ok(all)
}

/// The names under which the weights of a net stand: of its places, and then of its tasks.
pub fn names_of(alloc: Global, net: &Net) -> Result<TextList, AllocError>
    ensures { IfOk result (λ names. names ≡ names_of net.now) }
{
    let names = place_names(alloc, net.places.as_slice())?;
    with_tasks(alloc, names, net.tasks.as_slice())
}

/// The whole number under a name, 0 where there is none.
fn number_under(weights: &Value, name: &str) -> u64
    ensures { result ≡ number_under (view weights.now) name.now }
{
    weights.get(name).and_then(Value::as_u64).unwrap_or(0)
}

/// The whole numbers under these names, in order.
pub fn weights_in(alloc: Global, weights: &Value, names: &[Text]) -> Result<WeightList, AllocError>
    ensures { IfOk result (λ numbers. numbers ≡ weights_in (view weights.now) names.now) }
{
    let mut numbers = Items::new(alloc);
    for name in names {
        numbers.push(number_under(weights, name.as_str()))?;
    }
    Ok(numbers)
}

fn is_known(names: &[Text], key: &str) -> bool
    ensures { result ≡ list_any (bytes_eq key.now) names.now }
{
    names.iter().any(|name| key == name.as_str())
}

/// The first key that is none of the names. There is one among the first keys that are more than the names.
fn unknown_among<'a>(names: &[Text], weights: &'a Map<String, Value>) -> Option<&'a str>
    ensures { MatchOption result (unknown_among names.now (keys_of (members_view weights.now.entries)) ≡ None)
        (λ key. unknown_among names.now (keys_of (members_view weights.now.entries)) ≡ Some key.now) }
{
    for (key, _) in weights.iter() {
        if !is_known(names, key.as_str()) {
            return Some(key.as_str());
        }
    }
    None
}

/// The first key of an object, in the order of bytes, that is none of the names. An `Err` says that no memory was left.
pub fn unknown_key(
    alloc: Global,
    names: &[Text],
    weights: &Value,
) -> Result<Option<Text>, AllocError>
    ensures { IfOk result (λ key. key ≡ unknown_key names.now (view weights.now)) }
{
    let Some(members) = weights.as_object() else {
        return Ok(None);
    };
    match unknown_among(names, members) {
        Some(key) => Ok(Some(Text::copy_of(alloc, key)?)),
        None => Ok(None),
    }
}
