//! Cases that begin and end, and nets in nets. A call does one event on the forest of yw_tree, and says that the state after that event
//! has the new forest's map, whatever state had the old one's. The README of the crate says which clause proves what.
#![tactic(auto)]

mod begin;
mod end;
mod item;
pub mod laws;
mod nets;
mod sub;
mod vals;

pub use begin::launch;
pub use end::{cancel, finish};
pub use item::complete_empty;
pub use sub::{complete_sub, start_sub};
