//! What queries are told: each person's work list, all that stands in a case, and the names of specifications. The README of the crate says which
//! clause proves what.
#![tactic(auto)]

mod found;
mod fronts;
mod lists;
mod look;
mod names;
mod note;
mod offers;
mod people;
mod pools;
mod rows;
mod shown;
mod touched;
mod warm;

pub use lists::Lists;
pub use names::spec_names;
pub use shown::show;
