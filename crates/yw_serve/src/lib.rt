//! The server: it reads lines from a source, keeps what they do in two files, and says a reply to each on a desk; or it checks
//! one specification, or answers a large input that two numbers make.
#![tactic(auto)]

mod answer;
mod bench_lines;
mod benching;
mod counted;
mod header;
mod judging;
mod laws;
mod notice;
mod opening;
mod opening_entries;
mod pieces;
mod plan;
mod queries;
mod run;
mod server;
mod session;
mod summary;
mod top;
mod window;
mod words;

pub use benching::bench;
pub use counted::BenchFault;
pub use laws::{answered_line_is_held, damaged_once, entry_once, held_once, held_or_damaged};
pub use opening::StartFault;
pub use run::INPUT_LIMIT;
pub use server::{Server, Stop};
pub use summary::Summary;
pub use top::{Status, serve};
pub use words::{GREATEST_COUNT, GREATEST_START};
