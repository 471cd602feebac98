//! A state as bytes: its rows, both ways, and the laws by which bytes decide the state.
#![tactic(auto)]

mod ascending;
mod cases;
mod kept;
pub mod laws;
mod rows;

pub use ascending::{Ascending, Keyed};
pub use cases::{DueRow, EndedRow, ItemRow, NetRow, RunRow, TokenRow};
pub use kept::{PersonRow, RuleRow, TreeRow};
pub use rows::{Rows, read_rows, write_rows};
