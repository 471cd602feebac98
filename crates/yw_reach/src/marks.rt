// A mark or none for each node.
use std::alloc::{AllocError, Global};
use std::marker::Model;

/// Which nodes of a graph are marked. A contract sees it as a list that has true or false for each node.
#[derive(Debug, Drop)]
pub struct Marks {
    marks: Vec<bool>,
}

impl Model for Marks {
    ghost use Rattle.std.specs.Prelude.{List, Bool};

    ghost Value = { List Bool };

    ghost view = { λ m. m.marks.items };
}

impl Marks {
    ghost use Rattle.std.specs.Prelude.{◌≡◌, ◌↔◌, ◌<◌, IsTrue, IfOk, length, replicate, set, false, true};
    ghost use Rattle.yw_reach.specs.Marking.{Marked};

    /// No mark, for so many nodes.
    pub(crate) fn none(alloc: Global, count: usize) -> Result<Marks, AllocError>
        ensures { IfOk result (λ m. m ≡ replicate count false) }
    {
        let marks = vec![in alloc; false; count]?;
        Ok(Marks { marks })
    }

    /// How many nodes there are, marked or not.
    pub fn len(&self) -> usize
        ensures { result ≡ length self.now }
    {
        self.marks.len()
    }

    /// Whether there is no node at all.
    pub fn is_empty(&self) -> bool
        ensures { IsTrue result ↔ (length self.now ≡ 0) }
    {
        self.marks.is_empty()
    }

    /// Whether a node, which is below `len`, is marked.
    pub fn get(&self, node: usize) -> bool
        requires { node < length self.now }
        ensures { IsTrue result ↔ Marked self.now node }
    {
        self.marks[node]
    }

    /// Marks a node, which is below `len`.
    pub(crate) fn mark(&mut self, node: usize)
        requires { node < length self.old }
        ensures { self.new ≡ set self.old node true }
    {
        self.marks[node] = true;
    }
}
