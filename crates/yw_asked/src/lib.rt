//! A command that breaks no rule has its event: one that it asks for, and that is allowed. So whoever has found that no rule is broken tests
//! nothing again. Each law is the contract of a function that does nothing.
#![tactic(auto)]

mod cases;
mod items;
mod trees;

pub use cases::{
    advance_has_event, cancel_has_event, continue_has_event, launch_has_event, load_has_event,
    person_has_event, suspend_has_event,
};
pub use items::{add_has_event, complete_has_event, enter_has_event, start_has_event};
pub use trees::{raise_has_event, rule_has_event};
