//! What the server keeps and what may happen to it: the state, events, where each is allowed and what it does, commands and
//! the rules that they break, and the entries that may answer them. The definitions stand in `specs/`, one subject a file;
//! their laws are the contracts of the functions of `laws`.
#![tactic(auto)]

mod answer;
mod command;
mod event;
pub mod laws;
mod loaded;
mod part;
mod rule;
mod tree;

pub use answer::{
    DueList, DueRow, ItemList, ItemRow, NamedValue, NamedValueList, NetList, NetRow, RunList,
    RunRow, Shown, TokenList, TokenRow, What, WorkList, WorkRow,
};
pub use command::{Asked, Command, Given, GivenList, Query};
pub use event::{Event, EventList};
pub use loaded::{Loaded, LoadedList};
pub use part::{Checks, Ended, EndedList, Marks, Stage, Way};
pub use rule::{Refusal, Rule};
pub use tree::{Conclusion, Primitive, PrimitiveList, TreeKind, TreePlace};
