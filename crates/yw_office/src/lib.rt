//! The engine with the work lists of all persons beside it, which are kept from one command to the next. The README of the crate says which
//! clause proves what.
#![tactic(auto)]

mod cases;
mod office;

pub use office::Office;
