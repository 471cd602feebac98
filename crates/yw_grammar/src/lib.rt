//! The grammar of expressions, and a parser that builds a tree or says where the first fault is.
#![tactic(auto)]

mod level;
mod parser;
mod stack;
mod symbol;
mod tree;

pub use parser::parse;
pub use symbol::{Call, Infix, Leaf, Lexeme, Literal, Prefix, Span, Symbol};
pub use tree::{SyntaxFault, SyntaxTree};
