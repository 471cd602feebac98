// What a line means.
ghost use Rattle.std.specs.Prelude.{◌≡◌, ◌≤◌, IfErr, IfOk, MatchOption, Ok, Err, Some, false, length, true};
ghost use Rattle.std.specs.Str.{is_utf8};
ghost use Rattle.serde_json.specs.View.{view};
ghost use Rattle.yw_lines.specs.Meaning.{AsksProperly, is_built, meaning, text_meaning, value_meaning, word_meaning};
ghost use Rattle.yw_state.specs.declared.rule.Rule.{Rule};
ghost use Rattle.yw_wire.specs.Faults.{Gives, rule_of};

use crate::fault::WireFault;
use crate::kinds::LINE_LIMIT;
use crate::shapes::shape_of;
use serde_json::Value as JsonValue;
use std::alloc::Global;
use yw_lines::Word;
use yw_state::Asked;

fn is_built(built: &[Word], word: Word) -> bool
    ensures { result ≡ is_built built.now word }
{
    built.iter().any(|other| other.text() == word.text())
}

fn word_asked(
    alloc: Global,
    word: Word,
    value: &JsonValue,
    built: &[Word],
) -> Result<Asked, WireFault>
    ensures { Gives result (word_meaning built.now (view value.now) (Some word)) }
{
    if !is_built(built, word) {
        return Err(WireFault::NotBuilt);
    }
    Ok(shape_of(alloc, word, value)?)
}

fn value_asked(alloc: Global, value: &JsonValue, built: &[Word]) -> Result<Asked, WireFault>
    ensures { Gives result (value_meaning built.now (Some (view value.now))) }
{
    match value
        .get("cmd")
        .and_then(JsonValue::as_str)
        .and_then(Word::read)
    {
        None => Err(WireFault::NotCommand),
        Some(word) => word_asked(alloc, word, value, built),
    }
}

fn text_in(line: &[u8]) -> Option<&str>
    ensures { MatchOption result (is_utf8 line.now ≡ false) (λ text. (text.now ≡ line.now) × (is_utf8 line.now ≡ true)) }
{
    match str::from_utf8(line) {
        Ok(text) => Some(text),
        Err(_) => None,
    }
}

#[tactic(auto, unfolding(yw_lines::specs::Meaning::text_meaning))]
fn text_asked(alloc: Global, line: &[u8], built: &[Word]) -> Result<Asked, WireFault>
    ensures gives { Gives result (text_meaning built.now line.now) }
    ensures memory { IfErr result (λ fault. fault ≡ WireFault.Memory → is_utf8 line.now ≡ true) }
{
    let Some(text) = text_in(line) else {
        return Err(WireFault::NotJson);
    };
    match JsonValue::from_str(alloc, text) {
        Ok(value) => value_asked(alloc, &value, built),
        Err(fault) => {
            if fault.is_memory() {
                Err(WireFault::Memory)
            } else {
                Err(WireFault::NotJson)
            }
        }
    }
}

#[tactic(auto, unfolding(yw_lines::specs::Meaning::meaning))]
fn line_asked(alloc: Global, line: &[u8], built: &[Word]) -> Result<Asked, WireFault>
    ensures gives { Gives result (meaning built.now line.now) }
    ensures memory { IfErr result (λ fault. fault ≡ WireFault.Memory → is_utf8 line.now ≡ true) }
    ensures short { IfErr result (λ fault. fault ≡ WireFault.Memory → length line.now ≤ 1048576) }
{
    if line.len() > LINE_LIMIT {
        return Err(WireFault::LineTooLong);
    }
    text_asked(alloc, line, built)
}

/// What a line asks, which stands here without its newline. Which lines are JSON is what `serde_json` reads; of a
/// key that comes twice the last counts. The words, their fields and the order of faults are our own.
///
/// A fault other than `Memory` comes exactly where the line breaks its rule, and `Memory` only where no memory was
/// left. `NotBuilt` comes where the line has a word that isn't among `built`, whatever its fields are.
pub fn read_command(alloc: Global, line: &[u8], built: &[Word]) -> Result<Asked, WireFault>
    // What is asked is what the line means.
    ensures ok { IfOk result (λ asked. meaning built.now line.now ≡ Ok asked) }

    // The line breaks the rule of the fault.
    ensures err { IfErr result (λ fault. (rule : Rule) → rule_of fault ≡ Some rule → meaning built.now line.now ≡ Err rule) }

    // No memory is taken for a line that is too long, or isn't UTF-8.
    ensures memory { IfErr result (λ fault. fault ≡ WireFault.Memory → is_utf8 line.now ≡ true) }
    ensures short { IfErr result (λ fault. fault ≡ WireFault.Memory → length line.now ≤ 1048576) }

    // A person's roles are at most 64 distinct names.
    ensures proper { IfOk result AsksProperly }
{
    line_asked(alloc, line, built)
}
