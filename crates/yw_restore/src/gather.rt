// What stands at an identity, as lines.
ghost use Rattle.std.specs.Prelude.{◌≡◌, ◌++◌, [], ◌∷◌, ℕ, List, map, None, OnOk, Some, if◌then◌else◌};
ghost use Rattle.yw_library.specs.Held.{IsHeld};
ghost use Rattle.yw_restore.specs.Gathers.{AddsMarks, AddsNet, Gathers, item_rows_in};
ghost use Rattle.yw_restore.specs.Lines.{ident_of_mark, row_of_due, row_of_item};
ghost use Rattle.yw_state.specs.Map.{get};
ghost use Rattle.yw_state.specs.State.{Site, State};
ghost use Rattle.yw_state.specs.Words.{any_due};
ghost use Rattle.yw_tree.specs.Entries.{run_site};
ghost use Rattle.yw_tree.specs.Forest.{IsForest, sites_of};

use crate::lines::{CaseLines, DueLine, ItemLine, MarkLine, NetLine, RunLine};
use crate::tokens::push_tokens;
use std::alloc::AllocError;
use yw_base::{Ident, Items};
use yw_known::{Known, item_here, net_here};
use yw_state::Checks;
use yw_tree::{Forest, Run, Spot};

fn push_mark<'a>(
    at: &'a Ident,
    suspended: bool,
    marks: &mut Items<MarkLine<'a>>,
) -> Result<(), AllocError>
    ensures { OnOk result (map ident_of_mark marks.new ≡ map ident_of_mark marks.old
        ++ (if suspended then at.now ∷ [] else [])) }
{
    if !suspended {
        return Ok(());
    }
    marks.push(MarkLine { at })
}

fn is_any_due(due: Checks) -> bool
    ensures { result ≡ any_due due }
{
    due.pre || due.select || due.post
}

fn push_due<'a>(at: &'a Ident, due: Checks, rows: &mut Items<DueLine<'a>>) -> Result<(), AllocError>
    ensures { OnOk result (map row_of_due rows.new ≡ map row_of_due rows.old
        ++ (if any_due due then record { ident = at.now; due = due } ∷ [] else [])) }
{
    if !is_any_due(due) {
        return Ok(());
    }
    rows.push(DueLine { at, due })
}

// Of a case or an item: whether it is suspended, and the checks that are due.
fn gather_target<'a>(
    at: &'a Ident,
    suspended: bool,
    due: Checks,
    lines: &mut CaseLines<'a>,
) -> Result<(), AllocError>
    ensures { OnOk result ((x : Site) → x.due ≡ due → x.suspended ≡ suspended → x.run ≡ None
        → AddsMarks (at.now, x) lines.old lines.new) }
{
    push_mark(at, suspended, &mut lines.suspended)?;
    push_due(at, due, &mut lines.due)
}

fn gather_run<'a>(at: &'a Ident, run: &'a Run, lines: &mut CaseLines<'a>) -> Result<(), AllocError>
    ensures { OnOk result ((names : ℕ → List ℕ)
        → AddsMarks (at.now, run_site names run.now) lines.old lines.new) }
{
    lines.runs.push(RunLine { at, run })
}

// What is at an identity beside an item and a net.
fn gather_marks<'a>(
    forest: &'a Forest,
    at: &'a Ident,
    lines: &mut CaseLines<'a>,
) -> Result<(), AllocError>
    ensures { OnOk result ((names : ℕ → List ℕ) (s : State) (x : Site) → IsForest forest.now
        → s.sites ≡ sites_of names forest.now
        → get s.sites at.now ≡ Some x → AddsMarks (at.now, x) lines.old lines.new) }
{
    match forest.find(at) {
        Some(Spot::Case(case)) => gather_target(at, case.suspended, case.due, lines),
        Some(Spot::Item(node)) => gather_target(at, node.suspended, node.due, lines),
        Some(Spot::Run(run)) => gather_run(at, run, lines),
        None => Ok(()),
    }
}

// The item at an identity, where one stands.
fn gather_item<'a>(
    known: &'a Known,
    forest: &'a Forest,
    at: &'a Ident,
    items: &mut Items<ItemLine<'a>>,
) -> Result<(), AllocError>
    ensures { OnOk result ((s : State) (x : Site) → IsHeld known.now forest.now s
        → get s.sites at.now ≡ Some x
        → map row_of_item items.new ≡ map row_of_item items.old
        ++ item_rows_in s ((at.now, x) ∷ [])) }
{
    let Some(here) = item_here(known, forest, at) else {
        return Ok(());
    };
    items.push(ItemLine {
        at,
        task: &here.task.name,
        item: here.item,
    })
}

// The net at an identity, where one stands, and its tokens.
fn gather_net<'a>(
    known: &'a Known,
    forest: &'a Forest,
    at: &'a Ident,
    lines: &mut CaseLines<'a>,
) -> Result<(), AllocError>
    ensures { OnOk result ((s : State) (x : Site) → IsHeld known.now forest.now s
        → get s.sites at.now ≡ Some x
        → AddsNet s (at.now, x) lines.old lines.new) }
{
    let Some(here) = net_here(known, forest, at) else {
        return Ok(());
    };
    lines.nets.push(NetLine {
        at,
        spec: &here.spec.name,
        net: &here.net.name,
        values: &here.state.vals,
    })?;
    push_tokens(at, here.net, &here.state.marks, &mut lines.tokens)
}

/// All that stands at an identity. An `Err` says that no memory was left.
pub fn gather_at<'a>(
    known: &'a Known,
    forest: &'a Forest,
    at: &'a Ident,
    lines: &mut CaseLines<'a>,
) -> Result<(), AllocError>
    ensures { OnOk result ((s : State) (x : Site) → IsHeld known.now forest.now s
        → get s.sites at.now ≡ Some x
        → Gathers s ((at.now, x) ∷ []) lines.old lines.new) }
{
    gather_marks(forest, at, lines)?;
    gather_item(known, forest, at, &mut lines.items)?;
    gather_net(known, forest, at, lines)
}
