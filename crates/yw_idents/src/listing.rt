// The identities of boxes, each before those of what is below it.
ghost use Rattle.std.specs.Prelude.{◌≡◌, ℕ, List, IfOk, OnOk};
ghost use Rattle.yw_idents.specs.Idents.{Adds, idents_of, lent};
ghost use Rattle.yw_tree.specs.Entries.{below_net, below_run, case_entries, flat, net_entries, node_entries, run_entries};

use std::alloc::{AllocError, Global};
use yw_base::Ident;
use yw_tree::{Case, NetState, Node, Run};

/// Adds the identities of the items of a list, and of all that stands below them.
#[cycle(idents)]
fn push_list<'a>(list: &'a Vec<Node>, into: &mut Vec<&'a Ident>) -> Result<(), AllocError>
    ensures { OnOk result ((names : ℕ → List ℕ)
        → Adds into.old.items into.new.items (idents_of (flat (node_entries names) list.now.items))) }
{
    for node in list {
        push_node(node, into)?;
    }
    Ok(())
}

/// Adds the identities of all that stands in a net.
#[cycle(idents)]
fn push_net<'a>(net: &'a NetState, into: &mut Vec<&'a Ident>) -> Result<(), AllocError>
    ensures { OnOk result ((names : ℕ → List ℕ)
        → Adds into.old.items into.new.items (idents_of (net_entries names net.now).1)) }
{
    for list in &net.items {
        push_list(list, into)?;
    }
    Ok(())
}

/// Adds the identities of all that stands in the net of an item or a run, where it has one.
#[cycle(idents)]
fn push_below<'a>(
    net: &'a Option<Box<NetState>>,
    into: &mut Vec<&'a Ident>,
) -> Result<(), AllocError>
    ensures { OnOk result ((names : ℕ → List ℕ)
        → Adds into.old.items into.new.items (idents_of (below_net names net.now))) }
{
    match net {
        Some(net) => push_net(net, into),
        None => Ok(()),
    }
}

/// Adds an item's identity, and those of all that stands below it.
#[cycle(idents)]
fn push_node<'a>(node: &'a Node, into: &mut Vec<&'a Ident>) -> Result<(), AllocError>
    ensures { OnOk result ((names : ℕ → List ℕ)
        → Adds into.old.items into.new.items (idents_of (node_entries names node.now))) }
{
    into.push(&node.id)?;
    push_below(&node.net, into)?;
    push_hung(&node.run, into)
}

/// Adds a run's identity, and those of all that stands below it.
#[cycle(idents)]
fn push_run<'a>(run: &'a Run, into: &mut Vec<&'a Ident>) -> Result<(), AllocError>
    ensures { OnOk result ((names : ℕ → List ℕ)
        → Adds into.old.items into.new.items (idents_of (run_entries names run.now))) }
{
    into.push(&run.id)?;
    push_below(&run.net, into)
}

/// Adds the identities of the run that hangs at a case or an item, where one does, and of all that stands below it.
#[cycle(idents)]
fn push_hung<'a>(run: &'a Option<Box<Run>>, into: &mut Vec<&'a Ident>) -> Result<(), AllocError>
    ensures { OnOk result ((names : ℕ → List ℕ)
        → Adds into.old.items into.new.items (idents_of (below_run names run.now))) }
{
    match run {
        Some(run) => push_run(run, into),
        None => Ok(()),
    }
}

/// The identities of all that stands in a case, its own first, each before those of what is below it. An `Err` says that no memory was
/// left. That a case is looked at as a list is our own.
pub fn idents_in<'a>(alloc: Global, case: &'a Case) -> Result<Vec<&'a Ident>, AllocError>
    ensures { IfOk result (λ idents. (names : ℕ → List ℕ) → lent idents.items ≡ idents_of (case_entries names case.now)) }
{
    let mut idents = Vec::new(alloc);
    idents.push(&case.id)?;
    push_net(&case.net, &mut idents)?;
    push_hung(&case.run, &mut idents)?;
    Ok(idents)
}
