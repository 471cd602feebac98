// All that is kept, as one.
use yw_known::Known;
use yw_library::EndedTable;
use yw_tree::Forest;

/// Persons and specifications, the cases that stand, how cases ended, and the number that is drawn next. A contract sees these four; by
/// `state_of` they are a state.
#[derive(Drop)]
pub struct Standing {
    /// Persons, and specifications with the upstream of each of their nets.
    pub known: Known,
    /// The cases that stand.
    pub forest: Forest,
    /// The cases that are over.
    pub ended: EndedTable,
    /// The number that is drawn next: 1 to 2^48.
    pub next: u64,
}
