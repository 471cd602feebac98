//! All that is kept, as one, and what stands in it at an identity. The README of the crate has its clauses.
#![tactic(auto)]

mod here;
mod standing;

pub use here::{draws, known_net, net_at_output};
pub use standing::Standing;
