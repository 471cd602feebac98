// What an identity has of its own: checks that are due, its mark, its run.
ghost use Rattle.std.specs.Prelude.{◌≡◌, ◌++◌, [], ◌∷◌, List, ℕ, OnOk, None, Some, if◌then◌else◌};
ghost use Rattle.yw_state.specs.Answers.{due_rows};
ghost use Rattle.yw_state.specs.Map.{get};
ghost use Rattle.yw_state.specs.State.{Site, State};
ghost use Rattle.yw_tree.specs.Entries.{run_site};
ghost use Rattle.yw_tree.specs.Forest.{IsForest, sites_of};
ghost use Rattle.yw_shown.specs.Shows.{AddsMarks};

use std::alloc::{AllocError, Global};
use yw_base::{Ident, Items};
use yw_rdr::copy_of_primitives;
use yw_state::{Checks, DueList, DueRow, RunRow, Shown, TreeKind};
use yw_tree::{Forest, Run, Spot};

fn push_if(
    alloc: Global,
    at: &Ident,
    is_due: bool,
    check: TreeKind,
    rows: &mut DueList,
) -> Result<(), AllocError>
    ensures { OnOk result (rows.new ≡ rows.old ++ (if is_due then record { at = at.now; check = check } ∷ [] else [])) }
{
    if is_due {
        let at = at.copy(alloc)?;
        rows.push(DueRow { at, check })?;
    }
    Ok(())
}

/// The checks that are due, in their order.
fn push_due(alloc: Global, at: &Ident, due: Checks, rows: &mut DueList) -> Result<(), AllocError>
    ensures { OnOk result ((x : Site) → x.due ≡ due → rows.new ≡ rows.old ++ due_rows (at.now, x)) }
{
    push_if(alloc, at, due.pre, TreeKind::Pre, rows)?;
    push_if(alloc, at, due.select, TreeKind::Select, rows)?;
    push_if(alloc, at, due.post, TreeKind::Post, rows)
}

fn push_mark(
    alloc: Global,
    at: &Ident,
    suspended: bool,
    rows: &mut Items<Ident>,
) -> Result<(), AllocError>
    ensures { OnOk result (rows.new ≡ rows.old ++ (if suspended then at.now ∷ [] else [])) }
{
    if suspended {
        rows.push(at.copy(alloc)?)?;
    }
    Ok(())
}

/// Of a case or an item: the checks that are due, and whether it is suspended.
fn push_target(
    alloc: Global,
    at: &Ident,
    suspended: bool,
    due: Checks,
    shown: &mut Shown,
) -> Result<(), AllocError>
    ensures { OnOk result ((x : Site) → x.due ≡ due → x.suspended ≡ suspended → x.run ≡ None → AddsMarks (at.now, x) shown.old shown.new) }
{
    push_due(alloc, at, due, &mut shown.due)?;
    push_mark(alloc, at, suspended, &mut shown.suspended)
}

fn push_run(alloc: Global, at: &Ident, run: &Run, shown: &mut Shown) -> Result<(), AllocError>
    ensures { OnOk result ((names : ℕ → List ℕ) → AddsMarks (at.now, run_site names run.now) shown.old shown.new) }
{
    let row = RunRow {
        run: at.copy(alloc)?,
        waiting: run.waiting,
        rest: copy_of_primitives(alloc, run.rest.as_slice())?,
    };
    shown.runs.push(row)
}

/// What is at an identity beside an item and a net.
pub fn push_marks(
    alloc: Global,
    forest: &Forest,
    at: &Ident,
    shown: &mut Shown,
) -> Result<(), AllocError>
    ensures { OnOk result ((names : ℕ → List ℕ) (s : State) (x : Site) → IsForest forest.now → s.sites ≡ sites_of names forest.now
        → get s.sites at.now ≡ Some x → AddsMarks (at.now, x) shown.old shown.new) }
{
    match forest.find(at) {
        Some(Spot::Case(case)) => push_target(alloc, at, case.suspended, case.due, shown),
        Some(Spot::Item(node)) => push_target(alloc, at, node.suspended, node.due, shown),
        Some(Spot::Run(run)) => push_run(alloc, at, run, shown),
        None => Ok(()),
    }
}
