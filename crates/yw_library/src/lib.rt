//! What the server knows beside its cases: persons with their roles, the specifications that are loaded, and their rule
//! trees; and the parts of all that it keeps.
#![tactic(auto)]

mod accepted;
mod copies;
mod ended;
mod fault;
mod items;
mod library;
mod numbers;
mod parts;
mod trees;

pub use copies::copy_of_names;
pub use ended::EndedTable;
pub use fault::LibraryFault;
pub use items::{Person, PersonList};
pub use library::Library;
pub use parts::{FIRST_NUMBER, Parts};
