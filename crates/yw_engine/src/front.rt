// The check between the rules of a command of a case that its case is quiet.
ghost use Rattle.std.specs.Prelude.{◌≡◌};
ghost use Rattle.yw_engine.specs.Decides.{quiet_rule};
ghost use Rattle.yw_state.specs.Broken.{placeless};

use std::alloc::Global;
use yw_base::Text;
use yw_state::{Refusal, Rule};

/// A rule without a place. It takes no memory.
pub fn placeless(alloc: Global, rule: Rule) -> Refusal
    ensures { result ≡ placeless rule }
{
    Refusal {
        rule,
        at: Text::new(alloc),
    }
}

/// `NotQuiet` where the case isn't quiet, as the look at it has told. It takes no memory.
pub fn breaks_quiet(alloc: Global, quiet: bool) -> Option<Refusal>
    ensures { result ≡ quiet_rule quiet }
{
    if quiet {
        return None;
    }
    Some(placeless(alloc, Rule::NotQuiet))
}
