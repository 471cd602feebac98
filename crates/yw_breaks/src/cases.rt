// A case is cancelled, or gone on with.
ghost use Rattle.std.specs.Prelude.{◌≡◌, option_map};
ghost use Rattle.yw_breaks.specs.Persons.{case_rule};
ghost use Rattle.yw_library.specs.Held.{IsHeld};
ghost use Rattle.yw_library.specs.Holdings.{Holdings};
ghost use Rattle.yw_texts.specs.Texts.{reader};
ghost use Rattle.yw_state.specs.Broken.{Breaks, placeless};
ghost use Rattle.yw_state.specs.State.{State, is_case};
ghost use Rattle.yw_state.specs.declared.command.Command.TheVariants as commands;

use yw_base::Ident;
use yw_known::is_case;
use yw_state::Rule;
use yw_tree::Forest;

/// `UnknownCase` where no case has this identity.
fn case_rule(forest: &Forest, case: &Ident) -> Option<Rule>
    ensures { (known : Holdings) (s : State) → IsHeld known forest.now s → result ≡ case_rule (is_case s case.now) }
{
    (!is_case(forest, case)).then_some(Rule::UnknownCase)
}

/// The rule that a cancel breaks: `UnknownCase` where no case has this identity; `None` where it breaks none. It takes no memory.
pub fn cancel_breaks(forest: &Forest, case: &Ident) -> Option<Rule>
    ensures { (known : Holdings) (s : State) → IsHeld known forest.now s
        → Breaks reader s (commands.Cancel case.now) (option_map placeless result) }
{
    case_rule(forest, case)
}

/// The rule that an advance breaks: `UnknownCase` where no case has this identity; `None` where it breaks none. It takes no memory.
pub fn advance_breaks(forest: &Forest, case: &Ident) -> Option<Rule>
    ensures { (known : Holdings) (s : State) → IsHeld known forest.now s
        → Breaks reader s (commands.Advance case.now) (option_map placeless result) }
{
    case_rule(forest, case)
}
