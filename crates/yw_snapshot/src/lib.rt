//! A pair of files that hold one state: which of them is current, the records that it holds, and how the other is made of it.
#![tactic(auto)]

mod choosing;
mod compaction;
mod gate;
mod header;
mod laws;
mod opening;
mod reading;
mod window;

pub use choosing::{Chosen, OpenFault, choose};
pub use compaction::{CompactFault, compact};
pub use header::Head;
pub use laws::{
    Means, closed_gate_holds, compacted_holds, cut_gate_damages, damaged_alone, damaged_once,
    held_by_either, held_once, held_or_damaged, nowhere_damages, opened_holds, opening_keeps,
    reaches_on, shown_damages, snapshot_damages,
};
pub use opening::{Opening, open_pair};
