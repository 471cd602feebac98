// All that a server keeps, as parts.
ghost use Rattle.yw_library.specs.Parts.{IsOpening};

use crate::{EndedTable, Library};
use std::alloc::Global;
use yw_tree::Forest;

/// The number that is drawn first.
pub const FIRST_NUMBER: u64 = 1;

/// What an engine is made of: persons, specifications and rules, the cases that stand, how cases ended, and the number
/// that is drawn next.
#[derive(Drop)]
pub struct Parts {
    /// Persons, specifications and rules.
    pub library: Library,
    /// The cases that stand.
    pub forest: Forest,
    /// The number that is drawn next: 1 to 2^48.
    pub next: u64,
    /// How the cases ended that are over.
    pub ended: EndedTable,
}

impl Parts {
    /// The parts of the opening state: nobody, no specification, no rule and no case. It takes no memory.
    pub fn opening(alloc: Global) -> Parts
        ensures { IsOpening result }
    {
        Parts {
            library: Library::new(alloc),
            forest: Forest::new(alloc),
            next: FIRST_NUMBER,
            ended: EndedTable::new(alloc),
        }
    }
}
