//! Worklets: a net that a rule chooses for an item begins there, and at its end the item is completed. A call does one event on the forest
//! of yw_tree, and says that the state after that event has the new forest's map. The README of the crate says which clause proves what.
#![tactic(auto)]

mod choose;
mod end;
pub mod laws;
mod names;
mod nets;

pub use choose::{DEPTH_END, judge_select, substitute};
pub use end::complete_worklet;
pub use names::{Source, made_of_given};
pub use nets::{begin_top, item_there, net_there};
