// What is urgent at an identity.
ghost use Rattle.std.specs.Prelude.{◌≡◌, ℕ, List, None};
ghost use Rattle.yw_state.specs.State.{State, due_at, run_part};
ghost use Rattle.yw_tree.specs.Forest.{IsForest, sites_of};
ghost use Rattle.yw_urgent.specs.Here.{FindsHere, FindsRun, TellsHere};
ghost use Rattle.yw_urgent.specs.Urgent.{IsFirstDue};

use yw_base::Ident;
use yw_state::{Checks, TreeKind};
use yw_tree::{Forest, Run, Spot};

/// What is urgent at an identity: nothing else is done in its case before it is.
#[derive(Clone, Copy)]
pub enum Urgent<'a> {
    /// The check of this kind comes next: it is the first that is due there, and no run hangs there.
    Check(TreeKind),
    /// This run stands there, and doesn't wait for a compensation.
    Run(&'a Run),
}

/// The first check that is due, in their order: before, the choice of a worklet, after. It takes no memory. That there
/// is an order is our own.
fn first_check(due: Checks) -> Option<TreeKind>
    ensures { IsFirstDue due result }
{
    if due.pre {
        return Some(TreeKind::Pre);
    }
    if due.select {
        return Some(TreeKind::Select);
    }
    if due.post {
        return Some(TreeKind::Post);
    }
    None
}

/// The check that comes next at an identity, where this is due and no run stands.
fn check_of<'a>(forest: &'a Forest, at: &Ident, due: Checks) -> Option<Urgent<'a>>
    ensures { (names : ℕ → List ℕ) (s : State) → IsForest forest.now → s.sites ≡ sites_of names forest.now
        → due ≡ due_at s at.now → run_part s at.now ≡ None → FindsHere s at.now result }
{
    if forest.is_busy(at) {
        return None;
    }
    match first_check(due) {
        Some(check) => Some(Urgent::Check(check)),
        None => None,
    }
}

/// The run, unless it waits.
fn run_of(run: &Run) -> Option<Urgent<'_>>
    ensures { FindsRun run.now result }
{
    if run.waiting {
        return None;
    }
    Some(Urgent::Run(run))
}

/// What is urgent at an identity: a check that is due where no run hangs, or a run that doesn't wait; `None` exactly
/// where nothing is. It takes no memory. That checks and exlets come before all else is after the thesis.
pub fn urgent_here<'a>(forest: &'a Forest, at: &Ident) -> Option<Urgent<'a>>
    ensures { TellsHere forest.now at.now result }
{
    match forest.find(at) {
        Some(Spot::Case(case)) => check_of(forest, at, case.due),
        Some(Spot::Item(node)) => check_of(forest, at, node.due),
        Some(Spot::Run(run)) => run_of(run),
        None => None,
    }
}
