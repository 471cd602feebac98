//! The events of marks, checks, exlets and worklets: whether one is allowed, and what it does to all that is kept.
//! The README of the crate has its clauses.
#![tactic(auto)]

mod calm;
mod exlets;
mod judging;
mod known;
mod marks;
mod runs;
mod worklets;

pub use exlets::{act_except, act_pass, act_raise, may_except, may_pass, may_raise};
pub use judging::judge;
pub use marks::{act_continue, act_suspend, may_continue, may_suspend};
pub use runs::{act_compensated, act_prim, may_compensated, may_prim};
pub use worklets::{act_complete_worklet, act_substitute, may_complete_worklet, may_substitute};
