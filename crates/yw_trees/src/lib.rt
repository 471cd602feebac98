//! Rule trees by their places: which tree a case or a task has, found by numbers. The README of the crate says which
//! clause proves what.
#![tactic(auto)]

mod copies;
mod grown;
pub mod laws;
mod owner;
mod slots;
mod trees;

pub use copies::copy_of_place;
pub use grown::{Grown, GrownList, NewRule};
pub use owner::{Owner, owner_in};
pub use trees::Trees;
