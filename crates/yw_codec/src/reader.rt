// Bytes as they are read from the front.
ghost use Rattle.std.specs.Prelude.{◌≡◌, ◌++◌, ◌∷◌, [], IfOk, IfErr, length, ◌<◌};

use std::alloc::AllocError;
use std::marker::Model;

/// Why bytes aren't read.
#[derive(Clone, Copy, Debug, PartialEq, Eq)]
pub enum CodecFault {
    /// No such bytes stand at their front.
    Bad,
    /// No memory was left.
    Memory,
}

/// The bytes that are still to be read. A contract sees these.
#[derive(Drop)]
pub struct Reader<'a> {
    rest: &'a [u8],
}

impl<'a> Model for Reader<'a> {
    ghost use Rattle.std.specs.Prelude.{List, ℕ};

    ghost Value = { List ℕ };

    ghost view = { λ r. r.rest.now };
}

impl<'a> Reader<'a> {
    /// All of these bytes are still to be read.
    pub fn new(bytes: &'a [u8]) -> Reader<'a>
        ensures { result ≡ bytes.now }
    {
        Reader { rest: bytes }
    }

    /// How many bytes are left.
    pub fn left(&self) -> usize
        ensures { result ≡ length self.now }
    {
        self.rest.len()
    }

    /// So many bytes, which stand at the front. `Bad` says that fewer are left.
    pub fn take(&mut self, count: usize) -> Result<&'a [u8], CodecFault>
        ensures ok { IfOk result (λ part. self.old ≡ part.now ++ self.new) }
        ensures long { IfOk result (λ part. length part.now ≡ count) }
        ensures bad { IfErr result (λ fault. length self.old < count) }
        // It takes no memory.
        ensures takes_none { IfErr result (λ fault. fault ≡ CodecFault.Bad) }
    {
        if count > self.rest.len() {
            return Err(CodecFault::Bad);
        }
        let (part, rest) = self.rest.split_at(count);
        self.rest = rest;
        Ok(part)
    }

    /// The byte at the front. `Bad` says that none is left.
    pub fn byte(&mut self) -> Result<u8, CodecFault>
        ensures ok { IfOk result (λ byte. self.old ≡ byte ∷ self.new) }
        ensures bad { IfErr result (λ fault. self.old ≡ []) }
        // It takes no memory.
        ensures takes_none { IfErr result (λ fault. fault ≡ CodecFault.Bad) }
    {
        let Some((byte, rest)) = self.rest.split_first() else {
            return Err(CodecFault::Bad);
        };
        self.rest = rest;
        Ok(*byte)
    }
}

impl From<AllocError> for CodecFault {
    ghost use Rattle.std.specs.Prelude.{◌≡◌};
    ghost use Rattle.yw_codec.specs.declared.reader.CodecFault.TheVariants.{Memory};

    ghost from_gives = { λ _ e. e ≡ Memory };

    fn from(_: AllocError) -> CodecFault {
        CodecFault::Memory
    }
}
