//! What a server keeps, made of the rows of its state. The README of the crate says which clause proves what.
#![tactic(auto)]

mod grow;
pub mod laws;
mod names;
mod net;
mod tokens;

pub use grow::{grow_case, grow_item, grow_run};
pub use names::read_library;
pub use net::read_net;
pub use tokens::take_tokens;
