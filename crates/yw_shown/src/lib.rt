//! What a query is told of a case, part by part: rows of what stands at an identity, and the identities of a case in order. The README of the
//! crate says which clause proves what.
#![tactic(auto)]

mod copies;
pub mod laws;
mod marks;
mod rows;
mod tokens;
mod walk;

pub use marks::push_marks;
pub use rows::{item_row, net_row};
pub use tokens::push_tokens;
pub use walk::{no_rows, ordered_idents};
