//! Exlets: cases and items are suspended and continued, and runs begin and take their primitives. A call does one event on the forest of
//! yw_tree, and says that the state after that event has the new forest's map. The README of the crate says which clause proves what.
#![tactic(auto)]

mod begin;
mod first;
mod items;
pub mod laws;
mod marks;
mod own;
mod runs;
mod takes;

pub use begin::{except, raise};
pub use first::{Outcome, compensate, complete_item, prim, restart_item};
pub use marks::{pass, resume, suspend};
pub use takes::{compensation_done, take_mark, take_none, take_removal};
