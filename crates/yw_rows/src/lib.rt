//! Worked rows, computed in the logic: what the definitions of the state give on examples that were worked out by hand. A row is a
//! list of entries, the events of a command each, from the first state of all; the specifications stand in `specs/`. Each law is
//! the contract of a function that does nothing.
#![tactic(auto)]

pub mod answers;
pub mod assignments;
pub mod composites;
pub mod endless;
pub mod exlets;
pub mod flow;
pub mod items;
pub mod limits;
pub mod loan;
pub mod nets;
pub mod refusals;
pub mod removal;
pub mod told;
pub mod trees;
pub mod turns;
pub mod values;
pub mod work;
pub mod wrong;
