//! What a line means, and the replies: the lines of bytes, the words with their fields, the texts of steps, and the lines that answer.
//! The definitions stand in `specs/`; those of states, events and commands in `yw_state`.
#![tactic(auto)]

mod word;

pub use word::Word;
