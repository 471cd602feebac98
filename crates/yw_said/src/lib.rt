//! An accepted document says exactly one specification: laws of the definitions of acceptance. Each is the contract of a function
//! that does nothing.
#![tactic(auto)]

mod once;
mod some;

pub use once::says_one_specification;
pub use some::says_a_specification;
