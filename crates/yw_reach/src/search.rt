// A search from all nodes that are marked.
ghost use Rattle.std.specs.Prelude.{◌≡◌, ◌↔◌, ℕ, ◌<◌, [], ◌∷◌, OnOk, IfOk, All, Contains, length};
ghost use Rattle.yw_reach.specs.Flows.{IsWithin, Path};
ghost use Rattle.yw_reach.specs.Marking.{AreMarked, Marked};
ghost use Rattle.yw_reach.specs.Search.{Visits};

use crate::rows::{row_at, rows_of};
use crate::{Flow, Marks};
use std::alloc::{AllocError, Global};

/// The nodes that were met, and those among them whose flows haven't been followed yet.
#[derive(Drop)]
struct Search {
    marks: Marks,
    pending: Vec<usize>,
}

/// Marks a node that has no mark yet, and keeps it as pending.
fn visit(search: &mut Search, node: usize) -> Result<(), AllocError>
    requires { node < length search.old.marks }
    ensures { OnOk result (Visits (node ∷ []) search.old.marks search.old.pending.items
        search.new.marks search.new.pending.items) }
{
    if search.marks.get(node) {
        return Ok(());
    }
    search.marks.mark(node);
    search.pending.push(node)?;
    Ok(())
}

/// Visits each node of a row.
fn visit_all(search: &mut Search, row: &[usize]) -> Result<(), AllocError>
    requires { All (λ k. k < length search.old.marks) row.now }
    ensures { OnOk result (Visits row.now search.old.marks search.old.pending.items
        search.new.marks search.new.pending.items) }
{
    for node in row {
        visit(search, *node)?;
    }
    Ok(())
}

/// The nodes that are marked.
fn marked_nodes(alloc: Global, marks: &Marks) -> Result<Vec<usize>, AllocError>
    ensures { IfOk result (λ v. (k : ℕ) → Contains v.items k ↔ Marked marks.now k) }
{
    let mut nodes = Vec::new(alloc);
    for node in 0..marks.len() {
        if marks.get(node) {
            nodes.push(node)?;
        }
    }
    Ok(nodes)
}

/// The nodes to which a path leads from a node that is marked.
pub fn reached_from(
    alloc: Global,
    count: usize,
    flows: &[Flow],
    starts: Marks,
) -> Result<Marks, AllocError>
    requires starts { length starts ≡ count }
    requires flows { All (IsWithin count) flows.now }
    ensures { IfOk result (AreMarked count (λ b. (a : ℕ) × Marked starts a × Path flows.now a b)) }
{
    let rows = rows_of(alloc, count, flows)?;
    let mut search = Search {
        pending: marked_nodes(alloc, &starts)?,
        marks: starts,
    };
    'pending: while let Some(node) = search.pending.pop() {
        visit_all(&mut search, row_at(&rows, node))?;
    }
    Ok(search.marks)
}
