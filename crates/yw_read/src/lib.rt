//! What a document says that describes a specification: the reading of TOML by the table of its keys.
#![tactic(auto)]

mod keys;
mod kinds;
mod raw;
mod reading;
mod tables;

pub use raw::{
    RawBranch, RawBranchList, RawFlow, RawFlowList, RawIn, RawInList, RawKind, RawNet, RawNetList,
    RawOut, RawOutList, RawSet, RawSetList, RawSpec, RawTask, RawTaskList, RawVar, RawVarList,
    ReadFault,
};
pub use reading::read_spec;
