//! What comes of itself in a case is taken until the case is quiet or the budget is spent, proved once over any machine that takes events.
#![tactic(auto)]

mod entry;
mod machine;
mod turns;

pub use entry::{Entry, entry_of};
pub use machine::Machine;
pub use turns::settle;
