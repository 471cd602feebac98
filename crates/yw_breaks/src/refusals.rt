// Refusals.
ghost use Rattle.std.specs.Prelude.{◌≡◌, IfOk, Some, option_map};
ghost use Rattle.yw_breaks.specs.Launch.{number_rule};
ghost use Rattle.yw_state.specs.Broken.{placed, placeless};
ghost use Rattle.yw_state.specs.declared.rule.Rule.TheVariants.{Mapping};

use std::alloc::{AllocError, Global};
use yw_base::Text;
use yw_state::{Refusal, Rule};

/// A rule without a place. It takes no memory.
pub fn placeless(alloc: Global, rule: Rule) -> Refusal
    ensures { result ≡ placeless rule }
{
    Refusal {
        rule,
        at: Text::new(alloc),
    }
}

/// The refusal by a rule, if one is broken. It takes no memory.
pub fn refusal(alloc: Global, rule: Option<Rule>) -> Option<Refusal>
    ensures { result ≡ option_map placeless rule }
{
    match rule {
        Some(rule) => Some(placeless(alloc, rule)),
        None => None,
    }
}

/// The refusal by an expression that is undefined, at what it is for. An `Err` says that no memory was left.
pub fn mapping(alloc: Global, at: &str) -> Result<Refusal, AllocError>
    ensures { IfOk result (λ refusal. refusal ≡ placed Mapping at.now) }
{
    let at = Text::copy_of(alloc, at)?;
    Ok(Refusal {
        rule: Rule::Mapping,
        at,
    })
}

/// The same, as what is found. An `Err` says that no memory was left.
pub fn undefined(alloc: Global, at: &str) -> Result<Option<Refusal>, AllocError>
    ensures { IfOk result (λ found. found ≡ Some (placed Mapping at.now)) }
{
    Ok(Some(mapping(alloc, at)?))
}

/// The first number that is too large, 2^48.
const NUMBER_END: u64 = 0x1_0000_0000_0000;

/// `Numbers` where no number is left, of which this is drawn next.
pub fn number_rule(next: u64) -> Option<Rule>
    ensures { result ≡ number_rule next }
{
    (next >= NUMBER_END).then_some(Rule::Numbers)
}
