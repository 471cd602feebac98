//! Walks in a directed graph whose nodes are the numbers 0 to count - 1: which nodes are reached, from
//! where, in how many flows, and whether the graph has a cycle. Each but `far` takes time linear in nodes and flows.
#![tactic(auto)]

mod cycles;
mod flow;
mod levels;
mod marks;
mod paths;
mod rows;
mod search;

pub use cycles::is_cyclic;
pub use flow::Flow;
pub use levels::far;
pub use marks::Marks;
pub use paths::{first_off_path, reached, reaching};
