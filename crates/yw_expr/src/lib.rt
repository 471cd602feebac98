//! Expressions over named values: their texts, their sorts and what they are worth.
#![tactic(auto)]

mod fault;
mod lexeme;
mod node;
mod parsing;
mod row;
mod scope;
mod typing;
mod value;

pub use fault::ExprFault;
pub use node::{Expr, sort_of};
pub use parsing::parse;
pub use row::{Changed, Joined, Put, Values};
pub use scope::{Binding, Bindings, Scope};
pub use value::{truth, truth_over, view, view_of};
