// Pieces of a source's bytes.
ghost use Rattle.std.specs.Prelude.{◌≡◌, ◌≤◌, ◌<◌, length, IfOk, vec_len};
ghost use Rattle.yw_outside.specs.Causes.{HasCause};
ghost use Rattle.yw_outside.specs.Pieces.{ReadsPiece};

use crate::{Failed, Source};
use std::alloc::{AllocError, Global};

/// How many bytes of an input are read at once, at most.
pub const PIECE_BYTES: usize = 65_536;

/// Room for a piece of an input. An `Err` says that no memory was left.
pub fn new_piece(alloc: Global) -> Result<Vec<u8>, AllocError>
    ensures { IfOk result (λ piece. vec_len piece ≡ PIECE_BYTES) }
{
    vec![in alloc; 0u8; PIECE_BYTES]
}

/// Reads once: the next bytes, at most so many, and how many they are. None come only at the end. `Failed` comes only where
/// the read failed, and takes nothing.
pub fn read_piece<S: Source>(source: &mut S, piece: &mut [u8], most: usize) -> Result<usize, Failed>
    requires some { 0 < most }
    requires room { 0 < length piece.old }
    ensures count { IfOk result (λ n. (n ≤ most) × (n ≤ length piece.new)) }
    ensures bytes { ReadsPiece (S.left source.old) (S.left source.new) piece.new result }
    ensures piece { IfOk result (λ n. S.piece source.new ≡ n) }
    ensures cause { HasCause (S.faults source.old) (S.faults source.new) result }
{
    let room = most.min(piece.len());
    source.read(&mut piece[..room])
}
