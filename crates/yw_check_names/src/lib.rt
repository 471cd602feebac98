//! Three of the checks of a specification, on its names: which names there may be, between which nodes flows
//! go, and what a task removes.
#![tactic(auto)]

mod flows;
mod names;
mod net_nodes;
mod removals;
mod seen;

pub use flows::flows_fit;
pub use names::names_fit;
pub use removals::removals_fit;
