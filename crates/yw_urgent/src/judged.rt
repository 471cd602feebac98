// Events of checks, by what their trees conclude.
ghost use Rattle.std.specs.Option.{option_copied};
ghost use Rattle.std.specs.Prelude.{◌≡◌, false, true, IfOk};
ghost use Rattle.yw_deeds.specs.Judging.{IsTreeAt};
ghost use Rattle.yw_standing.specs.Held.{StandsHeld};
ghost use Rattle.yw_standing.specs.State.{state_of};
ghost use Rattle.yw_state.specs.Allowed.{comes_next};
ghost use Rattle.yw_state.specs.Judged.{is_select};
ghost use Rattle.yw_state.specs.declared.tree.TreeKind.TheVariants.{Select};
ghost use Rattle.yw_urgent.specs.Urgent.{IsUrgent, chosen_worklet};

use crate::events::{exlet_event, node_left, worklet_in};
use std::alloc::{AllocError, Global};
use yw_base::{Ident, Name};
use yw_deeds::judge;
use yw_rdr::RuleTree;
use yw_standing::Standing;
use yw_state::{Event, TreeKind};
use yw_worklet::judge_select;

/// The worklet that is chosen for the item at an identity: `None` where its tree chooses none, or none may begin so
/// deep.
fn chosen_worklet<'a>(
    alloc: Global,
    standing: &Standing,
    at: &Ident,
    tree: Option<&'a RuleTree>,
) -> Option<&'a Name>
    requires held { StandsHeld standing.now }
    requires tree { IsTreeAt (state_of standing.now) at.now Select (option_copied tree) }
    ensures { option_copied result ≡ chosen_worklet (state_of standing.now) at.now }
{
    let links = tree?;
    let node = judge_select(judge(alloc, standing, at, TreeKind::Select, tree), at)?;
    worklet_in(links, node)
}

/// The event of the choice of a worklet, which comes next: the worklet begins, or the choice passes.
fn choice_event(
    alloc: Global,
    standing: &Standing,
    at: &Ident,
    tree: Option<&RuleTree>,
) -> Result<Event, AllocError>
    requires held { StandsHeld standing.now }
    requires next { comes_next (state_of standing.now) at.now Select ≡ true }
    requires tree { IsTreeAt (state_of standing.now) at.now Select (option_copied tree) }
    ensures { IfOk result (IsUrgent (state_of standing.now) at.now) }
{
    match chosen_worklet(alloc, standing, at, tree) {
        Some(worklet) => Ok(Event::Substitute {
            item: at.copy(alloc)?,
            worklet: worklet.copy()?,
        }),
        None => Ok(Event::Pass {
            at: at.copy(alloc)?,
            check: TreeKind::Select,
        }),
    }
}

/// The event of a check before or after, which comes next: its exlet begins, or the check passes.
fn check_event(
    alloc: Global,
    standing: &Standing,
    at: &Ident,
    check: TreeKind,
    tree: Option<&RuleTree>,
) -> Result<Event, AllocError>
    requires held { StandsHeld standing.now }
    requires next { comes_next (state_of standing.now) at.now check ≡ true }
    requires other { is_select check ≡ false }
    requires tree { IsTreeAt (state_of standing.now) at.now check (option_copied tree) }
    ensures { IfOk result (IsUrgent (state_of standing.now) at.now) }
{
    let found = judge(alloc, standing, at, check, tree);
    let node = node_left(standing.next, found);
    let at = at.copy(alloc)?;
    Ok(exlet_event(at, check, node, standing.next))
}

/// The event of the check that comes next at an identity. `tree` is the one by which it is judged.
pub fn judged_event(
    alloc: Global,
    standing: &Standing,
    at: &Ident,
    check: TreeKind,
    tree: Option<&RuleTree>,
) -> Result<Event, AllocError>
    requires held { StandsHeld standing.now }
    requires next { comes_next (state_of standing.now) at.now check ≡ true }
    requires tree { IsTreeAt (state_of standing.now) at.now check (option_copied tree) }
    ensures { IfOk result (IsUrgent (state_of standing.now) at.now) }
{
    match check {
        TreeKind::Select => choice_event(alloc, standing, at, tree),
        _ => check_event(alloc, standing, at, check, tree),
    }
}
