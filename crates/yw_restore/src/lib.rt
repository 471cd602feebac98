//! What a server keeps as the bytes of its state. The README of the crate says which clause proves what.
#![tactic(auto)]

mod cases;
mod ended;
mod framed;
mod gather;
mod kept;
pub mod laws;
mod line;
mod lines;
mod named;
mod order;
mod tokens;
mod write;

pub use framed::{frame, framed_state};
pub use kept::Kept;
pub use write::write_state;
