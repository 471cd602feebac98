// Events of checks and of runs, by what is known of these.
ghost use Rattle.std.specs.Option.{option_copied};
ghost use Rattle.std.specs.Prelude.{◌≡◌, ◌<◌, ◌≤◌, IfOk, IfSome, length};
ghost use Rattle.yw_state.specs.NewRule.{most_rules};
ghost use Rattle.yw_tree.specs.declared.Run.{out-Run};
ghost use Rattle.yw_urgent.specs.Events.{TakesFirst, exlet_event, worklet_in};
ghost use Rattle.yw_urgent.specs.Urgent.{where_left, worklet_named};

use std::alloc::{AllocError, Global};
use yw_base::{Ident, NUMBER_END, Name, Text};
use yw_rdr::RuleTree;
use yw_state::{Conclusion, Event, Primitive, TreeKind};
use yw_tree::Run;

/// A copy of a primitive.
fn copy_of(alloc: Global, primitive: &Primitive) -> Result<Primitive, AllocError>
    ensures { IfOk result (λ copy. copy ≡ primitive.now) }
{
    Ok(match primitive {
        Primitive::SuspendItem => Primitive::SuspendItem,
        Primitive::ContinueItem => Primitive::ContinueItem,
        Primitive::RestartItem => Primitive::RestartItem,
        Primitive::CompleteItem => Primitive::CompleteItem,
        Primitive::RemoveItem => Primitive::RemoveItem,
        Primitive::SuspendCase => Primitive::SuspendCase,
        Primitive::ContinueCase => Primitive::ContinueCase,
        Primitive::RemoveCase => Primitive::RemoveCase,
        Primitive::Compensate(name) => Primitive::Compensate(name.copy()?),
        Primitive::Unknown(text) => Primitive::Unknown(Text::copy_of(alloc, text.as_str())?),
    })
}

/// The event by which the run at an identity takes the first that it has to do.
pub fn primitive_event(alloc: Global, at: &Ident, run: &Run) -> Result<Event, AllocError>
    requires { 0 < length (out-Run run.now).rest }
    ensures { IfOk result (TakesFirst at.now (out-Run run.now).rest) }
{
    let Some(first) = run.rest.get(0) else {
        unreachable!();
    };
    Ok(Event::Prim {
        run: at.copy(alloc)?,
        primitive: copy_of(alloc, first)?,
    })
}

/// The node whose exlet begins, where a tree concludes this one: `None` where it concludes none, or no number is left.
pub fn node_left(next: u64, node: Option<usize>) -> Option<usize>
    ensures { result ≡ where_left next node }
{
    if next == NUMBER_END {
        return None;
    }
    node
}

/// The event of a check: the exlet of this node begins as a run with this number; without a node the check passes.
pub fn exlet_event(at: Ident, check: TreeKind, node: Option<usize>, number: u64) -> Event
    requires { IfSome node (λ k. k ≤ most_rules) }
    ensures { result ≡ exlet_event at check node number }
{
    match node {
        Some(k) => Event::Except {
            at,
            check,
            node: k as u32,
            number,
        },
        None => Event::Pass { at, check },
    }
}

/// The worklet that is concluded.
fn worklet_named(conclusion: &Conclusion) -> Option<&Name>
    ensures { option_copied result ≡ worklet_named conclusion.now }
{
    match conclusion {
        Conclusion::Worklet(name) => Some(name),
        Conclusion::Exlet(_exlet) => None,
    }
}

/// The worklet that the rule with this number concludes.
pub fn worklet_in(tree: &RuleTree, node: usize) -> Option<&Name>
    requires some { 1 ≤ node }
    requires most { node ≤ length tree.now }
    ensures { option_copied result ≡ worklet_in tree.now node }
{
    worklet_named(tree.conclusion(node))
}
