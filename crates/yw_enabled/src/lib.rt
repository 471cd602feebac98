//! What comes of itself, read off the boxes of a case: which task of a net may be left or entered by no person, and whether an item or a case
//! goes on. A call on a net knows no forest; what it answers holds wherever the net stands. The README of the crate says which clause proves what.
#![tactic(auto)]

mod counts;
mod entered;
mod first;
mod items;
pub mod laws;
mod left;

pub use counts::done_counts;
pub use entered::{Entering, may_be_entered};
pub use first::{first_entered, first_left};
pub use items::{ItemStep, case_ends, is_at_output, item_step};
pub use left::may_be_left;
