//! A task's events on the whole forest: an item is started and completed, a task is entered, gets an item more and exits. A call finds the net or
//! the item at an identity, changes it by yw_task, and says that the state after the event has the new forest's map, whatever state had the old
//! one's. The README of the crate says which clause proves what.
#![tactic(auto)]

mod adding;
mod completing;
mod entering;
mod exiting;
pub mod laws;
mod starting;
mod together;

pub use adding::come_more_at;
pub use completing::{are_defined, ask_mapping, finish_at};
pub use entering::come_at;
pub use exiting::exit;
pub use starting::begin;
