// What is kept of a state.
ghost use Rattle.std.specs.Prelude.{◌↔◌, IsTrue};
ghost use Rattle.yw_restore.specs.Standing.{HasNothing};

use yw_known::Known;
use yw_library::EndedTable;
use yw_states::{Ascending, TreeRow};
use yw_tree::Forest;

/// All that is kept of a state. It is lent, and nothing of it is copied.
#[derive(Drop)]
pub struct Kept<'a> {
    /// Persons and specifications.
    pub known: &'a Known,
    /// The cases that stand.
    pub forest: &'a Forest,
    /// How the cases ended that are over.
    pub ended: &'a EndedTable,
    /// The number that is drawn next.
    pub next: u64,
    /// The rule trees that have rules, as rows.
    pub trees: &'a Ascending<TreeRow>,
}

/// Nobody is known, no specification is loaded, and no number is drawn.
pub fn has_nothing(kept: &Kept<'_>) -> bool
    ensures { IsTrue result ↔ HasNothing kept.now }
{
    let library = kept.known.library();
    kept.next == 1 && library.persons().is_empty() && library.specs().is_empty()
}
