// The bytes of a file in memory.
ghost use Rattle.std.specs.Prelude.{◌≡◌, OnOk, OnErr};
ghost use Rattle.yw_outside.specs.Image.{overwritten};

use std::alloc::{AllocError, Global};

/// What a file held at first, and what it holds now, which is kept apart from the first write on.
#[derive(Drop)]
pub struct Stored {
    pub first: Vec<u8>,
    pub present: Option<Vec<u8>>,
}

/// Writes bytes over others from this offset on, and past the end. An `Err` changes nothing.
pub fn overwrite(old: &mut Vec<u8>, at: usize, bytes: &[u8]) -> Result<(), AllocError>
    ensures ok { OnOk result (old.new.items ≡ overwritten old.old.items at bytes.now) }
    ensures err { OnErr result (old.new.items ≡ old.old.items) }
{
    let at = at.min(old.len());
    let over = bytes.len().min(old.len() - at);
    old.extend_from_slice(&bytes[over..])?;
    old[at..at + over].copy_from_slice(&bytes[..over]);
    Ok(())
}

impl Stored {
    ghost use Rattle.yw_outside.specs.Stored.{bytes_of};

    /// A file with these bytes. It takes no memory.
    pub fn new(first: Vec<u8>) -> Stored
        ensures bytes { bytes_of result ≡ first.items }
        ensures first { result.first ≡ first }
    {
        Stored {
            first,
            present: None,
        }
    }

    /// What a read gives.
    pub fn bytes(&self) -> &[u8]
        ensures { result.now ≡ bytes_of self.now }
    {
        match &self.present {
            Some(bytes) => bytes,
            None => &self.first,
        }
    }

    /// Writes bytes from this offset on. An `Err` says that no memory was left, and changes nothing.
    pub fn write(&mut self, alloc: Global, at: usize, bytes: &[u8]) -> Result<(), AllocError>
        ensures ok { OnOk result (bytes_of self.new ≡ overwritten (bytes_of self.old) at bytes.now) }
        ensures err { OnErr result (bytes_of self.new ≡ bytes_of self.old) }
        ensures first { self.new.first ≡ self.old.first }
    {
        let mut now = match self.present.take() {
            Some(bytes) => bytes,
            None => self.first.to_vec(alloc)?,
        };
        let result = overwrite(&mut now, at, bytes);
        self.present = Some(now);
        result
    }
}
