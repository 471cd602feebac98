//! What an accepted specification is: twelve checks in order, and what each names where it fails.
#![tactic(auto)]

mod broken;
mod index;
mod layers;
mod named;

pub use broken::Broken;
pub use index::{Index, has, index_of, number_of};
pub use layers::{outs_layer, vars_layer};
pub use named::Named;
