//! The identities of all that stands in a case, in one list, so that a loop may ask something at each. The README of the crate says which
//! clause proves what.
#![tactic(auto)]

pub mod laws;
mod listing;

pub use listing::idents_in;
