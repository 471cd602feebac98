//! The engine: it decides on commands and does events, over persons, specifications and cases. It knows no line, no byte and no file.
#![tactic(auto)]

mod add;
mod applying;
mod begin;
mod complete;
mod decide;
mod engine;
mod enter;
mod fault;
mod front;
mod launch;
mod library;
mod marks;
mod start;
mod whole;
mod work;

pub use engine::Engine;
pub use fault::{Decided, EngineFault};
