//! Where something may come of itself, kept from one command to the next: so a command looks at what events have set moving, and not at its
//! whole case. The README of the crate says which clause proves what.
#![tactic(auto)]

mod counts;
mod events;
mod listing;
mod loose;
mod moved;
mod next;

pub use loose::Loose;
