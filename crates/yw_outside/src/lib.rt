//! What the server reads from, writes to and says to, as traits, and small ones in memory.
#![tactic(auto)]

mod desk;
mod disk;
mod image;
mod log;
mod mem_desk;
mod mem_source;
mod never_desk;
mod never_source;
mod piece;
mod replay;
mod source;
mod stored;

pub use desk::{Desk, File};
pub use image::{Fill, Image};
pub use mem_desk::MemDesk;
pub use mem_source::MemSource;
pub use never_desk::NeverDesk;
pub use never_source::NeverSource;
pub use piece::{PIECE_BYTES, new_piece, read_piece};
pub use source::{Failed, Source};
