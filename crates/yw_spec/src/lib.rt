//! Specifications as they are kept: nets of places and tasks, names by numbers. What a net is stands in `specs/`.
#![tactic(auto)]

mod spec;
mod task;

pub use spec::{Net, NetList, Place, PlaceList, Spec, TaskList, Var, VarList, arrow_text};
pub use task::{
    Assign, Branch, BranchList, IndexList, Kind, Many, Param, ParamList, SetList, Task,
};
