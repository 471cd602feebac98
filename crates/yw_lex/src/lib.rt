//! The tokens of an expression's text.
#![tactic(auto)]

mod lexer;
mod scan;
mod token;

pub use lexer::lex;
pub use token::{LexFault, Token, TokenList, Word};
