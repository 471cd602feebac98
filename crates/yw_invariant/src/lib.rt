//! What holds of every state that is reached (`IsWell` of `yw_state`) is kept by events with which items come, a task is left, or nets
//! begin or go, and by the beginning and the steps of an exlet: Enter, Add, Exit, StartSub, CompleteSub, CompleteEmpty, Substitute,
//! CompleteWorklet, Except, Raise, Prim and Compensated. That the others keep it stands in `yw_state`. So every event that is allowed keeps
//! it, and each state that allowed events lead to from the opening is well. Each law is the contract of a function that does nothing.
//! Where a law supposes that specifications are sound (`yw_sound`), accepted ones are (`yw_accepted`).
#![tactic(auto)]

mod exit;
mod items;
mod nets;
mod reached;
mod runs;

pub use exit::exit_keeps_well;
pub use items::{add_keeps_well, enter_keeps_well};
pub use nets::{
    complete_empty_keeps_well, complete_sub_keeps_well, complete_worklet_keeps_well,
    start_sub_keeps_well, substitute_keeps_well,
};
pub use reached::{event_keeps_well, events_keep_well, reached_is_well};
pub use runs::{compensated_keeps_well, except_keeps_well, prim_keeps_well, raise_keeps_well};
