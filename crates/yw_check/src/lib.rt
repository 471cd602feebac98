//! Whether a specification is accepted: twelve checks in order, and the specification where none fails.
#![tactic(auto)]

mod fault;
mod verdict;

pub use fault::CheckFault;
pub use verdict::check;
