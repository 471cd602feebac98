//! The server's outside: standard input as a source, and a folder's two files and standard output as a desk.
//!
//! What the operating system gives or keeps, no contract can say, so both tell nothing of it. Only the calls of `Os`,
//! `Writer` and `StdSource` go to the system, and they are the edge that is trusted; what stands above is proved over
//! any system that tells what its files hold. A system call that was interrupted is tried again.
#![tactic(auto)]

mod calls;
mod folder_desk;
mod mem_system;
mod os;
mod output;
mod slot;
mod std_source;
mod system;

pub use calls::Calls;
pub use folder_desk::FolderDesk;
pub use mem_system::{MemFile, MemSystem};
pub use os::{Lock, Os};
pub use output::{Output, Writer};
pub use std_source::StdSource;
pub use system::System;
