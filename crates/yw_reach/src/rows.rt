// The flows by the nodes that they go from.
ghost use Rattle.std.specs.Prelude.{◌≡◌, ◌<◌, [], ◌∷◌, ◌++◌, length, get_or, set, All, IfOk, OnOk, replicate};
ghost use Rattle.yw_reach.specs.Flows.{IsWithin};
ghost use Rattle.yw_reach.specs.Rows.{AreRows};

use crate::Flow;
use std::alloc::{AllocError, Global};
use std::marker::Model;

/// Nodes in order, seen as a list.
#[derive(Drop)]
pub struct Row {
    nodes: Vec<usize>,
}

impl Model for Row {
    ghost use Rattle.std.specs.Prelude.{List, ℕ};

    ghost Value = { List ℕ };

    ghost view = { λ r. r.nodes.items };
}

impl Row {
    ghost use Rattle.std.specs.Prelude.{◌≡◌, [], ◌∷◌, ◌++◌, OnOk};

    fn new(alloc: Global) -> Row
        ensures { result ≡ [] }
    {
        Row {
            nodes: Vec::new(alloc),
        }
    }

    fn push(&mut self, node: usize) -> Result<(), AllocError>
        ensures { OnOk result (self.new ≡ self.old ++ node ∷ []) }
    {
        self.nodes.push(node)?;
        Ok(())
    }

    /// The nodes of the row.
    pub fn as_slice(&self) -> &[usize]
        ensures { result.now ≡ self.now }
    {
        &self.nodes
    }
}

/// An empty row for each node.
fn empty_rows(alloc: Global, count: usize) -> Result<Vec<Row>, AllocError>
    ensures { IfOk result (λ v. v.items ≡ replicate count []) }
{
    let mut rows = Vec::new(alloc);
    for _ in 0..count {
        rows.push(Row::new(alloc))?;
    }
    Ok(rows)
}

/// Puts a node at the end of a row.
fn put(rows: &mut Vec<Row>, from: usize, to: usize) -> Result<(), AllocError>
    requires { from < length rows.old.items }
    ensures { OnOk result (rows.new.items
        ≡ set rows.old.items from (get_or rows.old.items from [] ++ to ∷ [])) }
{
    rows[from].push(to)?;
    Ok(())
}

/// For each node where the flows from it go.
pub fn rows_of(alloc: Global, count: usize, flows: &[Flow]) -> Result<Vec<Row>, AllocError>
    requires { All (IsWithin count) flows.now }
    ensures { IfOk result (λ v. AreRows count flows.now v.items) }
{
    let mut rows = empty_rows(alloc, count)?;
    for flow in flows {
        put(&mut rows, flow.from, flow.to)?;
    }
    Ok(rows)
}

/// Where the flows from a node go.
pub fn row_at(rows: &[Row], node: usize) -> &[usize]
    requires { node < length rows.now }
    ensures { result.now ≡ get_or rows.now node [] }
{
    rows[node].as_slice()
}
