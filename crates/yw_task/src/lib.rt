//! The life of a task on one net: what commands on it break; it is entered, its items are added, started and completed, and it exits.
//! No forest is in sight here: a call takes an item or a net, and says what the map of the forest is, wherever that stands. The README of
//! the crate says which clause proves what.
#![tactic(auto)]

mod adding;
mod ask;
mod coming;
mod done;
mod entering;
mod exits;
mod fault;
mod giving;
mod item;
mod made;
mod region;
mod room;
mod tokens;
mod waits;

pub use adding::{add, come_more};
pub use ask::{ask_complete, ask_enter, ask_start, task_at};
pub use done::{complete, finish, undefined_fault};
pub use entering::{come, enter};
pub use exits::{Outcome, exit, exit_outcome};
pub use fault::StepFault;
pub use giving::{count_rule, entry_values, first_lacking, lacks_list};
pub use item::{begin, start};
pub use made::{int_in, is_text, items_in, made_by, text_in};
pub use region::empty_region;
pub use waits::{is_active, or_waits};
