//! Entries of events as bytes, both ways.
#![tactic(auto)]

mod entry;
mod event;
mod field;
mod name;
mod number;
mod part;
mod place;
mod reader;
mod tree;
mod value;

pub use entry::{read_entry, write_entry, write_entry_into};
pub use event::{push_event, read_event};
pub use field::{Field, read_short_list, write_short_list};
pub use reader::{CodecFault, Reader};
