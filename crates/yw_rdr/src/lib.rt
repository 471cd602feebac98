//! Rule trees, after Adams's thesis: a rule is attached to another at the side for true or at that for false, and a walk ends at the last rule that
//! held. The README of the crate says which clause proves what.
#![tactic(auto)]

mod copies;
mod fault;
mod item;
pub mod laws;
mod tree;
mod zeros;

pub use copies::copy_of_primitives;
pub use fault::RdrFault;
pub use item::ItemRow;
pub use tree::RuleTree;
pub use zeros::Zeros;
