// All that stands in a case.
ghost use Rattle.std.specs.Prelude.{◌≡◌, ◌++◌, [], ◌∷◌, IfOk, OnOk, Some};
ghost use Rattle.std.specs.List.{filter_map};
ghost use Rattle.yw_library.specs.Held.{IsHeld};
ghost use Rattle.yw_shown.specs.Shows.{AddsEntry, AddsNet};
ghost use Rattle.yw_state.specs.Answers.{IsShown, item_row};
ghost use Rattle.yw_state.specs.Map.{get};
ghost use Rattle.yw_state.specs.State.{Site, State};

use std::alloc::{AllocError, Global};
use yw_base::Ident;
use yw_known::{Known, item_here, net_here};
use yw_shown::{item_row, net_row, no_rows, ordered_idents, push_marks, push_tokens};
use yw_state::{ItemList, Shown};
use yw_tree::Forest;

/// The item that stands at an identity, where one does.
fn push_item(
    alloc: Global,
    known: &Known,
    forest: &Forest,
    at: &Ident,
    rows: &mut ItemList,
) -> Result<(), AllocError>
    ensures { OnOk result ((s : State) (x : Site) → IsHeld known.now forest.now s
        → rows.new ≡ rows.old ++ filter_map (item_row s) ((at.now, x) ∷ [])) }
{
    match item_here(known, forest, at) {
        Some(here) => rows.push(item_row(alloc, at, here.task, here.item)?),
        None => Ok(()),
    }
}

/// The net that stands at an identity, where one does, and its tokens.
fn push_net(
    alloc: Global,
    known: &Known,
    forest: &Forest,
    at: &Ident,
    shown: &mut Shown,
) -> Result<(), AllocError>
    ensures { OnOk result ((s : State) (x : Site) → IsHeld known.now forest.now s → AddsNet s (at.now, x) shown.old shown.new) }
{
    let Some(here) = net_here(known, forest, at) else {
        return Ok(());
    };
    let row = net_row(alloc, at, &here.spec.name, here.net, here.state)?;
    shown.nets.push(row)?;
    push_tokens(alloc, at, here.net, &here.state.marks, &mut shown.tokens)
}

/// All that stands at an identity.
fn push_entry(
    alloc: Global,
    known: &Known,
    forest: &Forest,
    at: &Ident,
    shown: &mut Shown,
) -> Result<(), AllocError>
    ensures { OnOk result ((s : State) (x : Site) → IsHeld known.now forest.now s → get s.sites at.now ≡ Some x
        → AddsEntry s (at.now, x) shown.old shown.new) }
{
    push_marks(alloc, forest, at, shown)?;
    push_item(alloc, known, forest, at, &mut shown.items)?;
    push_net(alloc, known, forest, at, shown)
}

/// All that stands in the case of this number, each kind of rows in order of identity: number by number, a front first. Checks go `Pre`,
/// `Select`, `Post`, and the tokens of a net by the texts of their places. There are no rows where no such case stands. An `Err` says that no
/// memory was left.
pub fn show(alloc: Global, known: &Known, forest: &Forest, n: u64) -> Result<Shown, AllocError>
    ensures { IfOk result (λ x. (s : State) → IsHeld known.now forest.now s → IsShown s n x) }
{
    let mut shown = no_rows(alloc);
    let Some(case) = forest.case(n) else {
        return Ok(shown);
    };
    let idents = ordered_idents(alloc, case)?;
    for at in &idents {
        push_entry(alloc, known, forest, at, &mut shown)?;
    }
    Ok(shown)
}
