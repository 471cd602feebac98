//! What the engine knows beside its cases: persons, specifications, rule trees, and the upstream of each net. And the way
//! from an identity in a forest to the net, the task and the item that the definitions have there. The README of the crate
//! says which clause proves what.
#![tactic(auto)]

mod here;
mod judged;
mod known;
pub mod laws;
mod upstreams;

pub use here::{ItemHere, NetHere, is_case, item_here, net_here, task_called};
pub use known::{Known, KnownNet};
