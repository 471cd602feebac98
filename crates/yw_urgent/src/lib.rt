//! What comes of itself before all else: of a check that is due, of an exlet's run that has something to do, and at the
//! end of a compensation. The README of the crate has its clauses.
#![tactic(auto)]

mod events;
mod first;
mod here;
mod identity;
mod judged;
pub mod laws;

pub use first::urgent_in;
pub use here::{Urgent, urgent_here};
pub use identity::{compensated_at, event_of, urgent_at};
