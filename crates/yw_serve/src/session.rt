// A session: lines come, and each is answered when it has ended.
ghost use Rattle.std.specs.Prelude.{◌≡◌, ◌≤◌, [], vec_len};
ghost use Rattle.yw_serve.specs.declared.pieces.TheConstants.{MOST_KEPT};

use crate::server::Server;
use std::alloc::Global;

/// A server, and where it stands in its input.
#[derive(Drop)]
pub struct Session {
    /// What has come of the next line. Of one that is too long, one byte more than a line may have.
    pub line: Vec<u8>,
    /// The number of the next line, from 1.
    pub number: u64,
    /// What answers it.
    pub server: Server,
    ghost bounded: { vec_len line ≤ MOST_KEPT },
}

impl Session {
    /// A session before its first line. It takes no memory.
    pub fn new(alloc: Global, server: Server) -> Session
        ensures line { result.line.items ≡ [] }
        ensures number { result.number ≡ 1 }
        ensures server { result.server ≡ server }
    {
        Session {
            line: Vec::new(alloc),
            number: 1,
            server,
        }
    }
}
