//! Two checks of a specification, on what its expressions and parameters are: each expression has the sort that
//! is wanted, and parameters, variables and assignments agree.
#![tactic(auto)]

mod children;
mod layers;
mod named;
mod parameters;
mod sorts;
mod spelling;

pub use parameters::parameters_agree;
pub use sorts::sorts_fit;
