//! Persons, specifications and cases as one, and each event, which is done where it is allowed. The README of the crate says which clause proves
//! what.
#![tactic(auto)]

mod adding;
mod cases;
mod completing;
mod entering;
mod event;
mod exiting;
mod held;
mod items;
pub mod laws;
mod library;
mod places;
mod rows;
mod whole;

pub use cases::Cases;
