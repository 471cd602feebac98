//! The first rule that a command with a case breaks, found in the boxes.
#![tactic(auto)]

mod add;
mod asked;
mod cases;
mod complete;
mod enter;
mod events;
mod front;
mod hold;
mod launch;
pub mod laws;
mod marks;
mod nets;
mod persons;
mod refusals;
mod start;

pub use add::add_asked;
pub use asked::{AddAsked, EntryAsked, ItemAsked, NetAsked, SpecAsked};
pub use cases::{advance_breaks, cancel_breaks};
pub use complete::complete_most;
pub use enter::enter_asked;
pub use events::{advance_event, cancel_event, complete_values, launch_event, start_event};
pub use front::item_front;
pub use launch::{launch_front, launch_rest};
pub use marks::{continue_breaks, suspend_breaks};
pub use nets::net_front;
pub use persons::roles_of;
pub use start::start_rest;
