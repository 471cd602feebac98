//! The values that a command gives, read against what is wanted: the variables of a net as a case begins, the parameters of a task as an item
//! is completed, and the element as one is added. The rules are our own.
#![tactic(auto)]

mod complete;
mod launch;
mod least;
mod numbers;
mod sorts;

pub use complete::{made_values, misfit};
pub use launch::{launch_values, unwanted};
pub use sorts::{as_sort, element_value};
