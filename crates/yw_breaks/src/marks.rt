// A case or an item is suspended, or goes on.
ghost use Rattle.std.specs.Prelude.{◌≡◌, option_map};
ghost use Rattle.yw_breaks.specs.Marks.{FindsMark, continue_rule, suspend_rule, unknown_rule};
ghost use Rattle.yw_library.specs.Held.{IsHeld};
ghost use Rattle.yw_library.specs.Holdings.{Holdings};
ghost use Rattle.yw_texts.specs.Texts.{reader};
ghost use Rattle.yw_state.specs.Broken.{Breaks, placeless};
ghost use Rattle.yw_state.specs.Identity.{is_case_ident};
ghost use Rattle.yw_state.specs.State.{State};
ghost use Rattle.yw_state.specs.declared.command.Command.TheVariants as commands;

use yw_base::Ident;
use yw_state::Rule;
use yw_tree::{Forest, Spot};

/// The identity is one number, as a case's is.
fn is_case_ident(at: &Ident) -> bool
    ensures { result ≡ is_case_ident at.now }
{
    at.numbers().len() == 1
}

/// The rule that is broken where neither a case nor an item stands: `UnknownCase` of one number, `UnknownItem` of several.
fn unknown_rule(at: &Ident) -> Rule
    ensures { result ≡ unknown_rule (is_case_ident at.now) }
{
    if is_case_ident(at) {
        return Rule::UnknownCase;
    }
    Rule::UnknownItem
}

/// Whether the case or the item at an identity is suspended. An `Err` has the rule that is broken where neither stands there.
fn mark_at(forest: &Forest, at: &Ident) -> Result<bool, Rule>
    ensures { (known : Holdings) (s : State) → IsHeld known forest.now s → FindsMark s at.now result }
{
    // No work is done here: it says that it is an identity.
    let _ = at.numbers();
    let unknown = unknown_rule(at);
    match forest.find(at) {
        Some(Spot::Case(case)) => Ok(case.suspended),
        Some(Spot::Item(node)) => Ok(node.suspended),
        Some(Spot::Run(_run)) => Err(unknown),
        None => Err(unknown),
    }
}

/// `Mark` where what is found is suspended already.
fn suspend_rule(found: Result<bool, Rule>) -> Option<Rule>
    ensures { result ≡ suspend_rule found }
{
    match found {
        Ok(suspended) => suspended.then_some(Rule::Mark),
        Err(rule) => Some(rule),
    }
}

/// `Mark` where what is found isn't suspended.
fn continue_rule(found: Result<bool, Rule>) -> Option<Rule>
    ensures { result ≡ continue_rule found }
{
    match found {
        Ok(suspended) => (!suspended).then_some(Rule::Mark),
        Err(rule) => Some(rule),
    }
}

/// The first rule that a suspension breaks: `UnknownCase` where the identity is one number and no case has it; `UnknownItem` where it is several and
/// no item has it; `Mark` where what stands there is suspended already. `None` where it breaks none. It takes no memory.
pub fn suspend_breaks(forest: &Forest, at: &Ident) -> Option<Rule>
    ensures { (known : Holdings) (s : State) → IsHeld known forest.now s
        → Breaks reader s (commands.Suspend at.now) (option_map placeless result) }
{
    suspend_rule(mark_at(forest, at))
}

/// The first rule that is broken where something is to go on: `UnknownCase` and `UnknownItem` as of a suspension; `Mark` where what stands there isn't
/// suspended itself. `None` where none is. It takes no memory.
pub fn continue_breaks(forest: &Forest, at: &Ident) -> Option<Rule>
    ensures { (known : Holdings) (s : State) → IsHeld known forest.now s
        → Breaks reader s (commands.Continue at.now) (option_map placeless result) }
{
    continue_rule(mark_at(forest, at))
}
