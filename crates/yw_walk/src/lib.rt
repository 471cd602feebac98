//! The next event that comes of itself in a case, by a look at each identity that stands in it, where nothing in the case is urgent and no
//! compensation is at its end. The README of the crate says which clause proves what.
#![tactic(auto)]

mod found;
mod identity;
mod items;
mod nets;
mod next;
mod places;
mod tasks;

pub use found::{Computed, Found};
pub use identity::event_at;
pub use next::{is_quiet, next_event};
pub use tasks::entry_of;
