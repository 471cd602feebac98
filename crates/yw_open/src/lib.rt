//! What is open at an identity, whoever asks for it and whether or not work is held there. The README of the crate says which clause proves what.
#![tactic(auto)]

mod items;
mod nets;
mod opens;
mod tasks;
mod whom;

pub use opens::opens_at;
