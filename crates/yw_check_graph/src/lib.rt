//! Where nets lead: every node is on the way, no net uses itself, each is reached, nets don't nest too deep, and a net
//! with an OR-join has no cycle. The third check is the paper's, that of workflow nets; the others are our own.
#![tactic(auto)]

mod children;
mod graph;
mod joins;
mod levels;
mod nets;
mod paths;

pub use children::children_fit;
pub use joins::or_joins_fit;
pub use levels::levels_fit;
pub use paths::paths_fit;
