// The system that the program runs on.
ghost use Rattle.std.specs.IoError.{error_kind};
ghost use Rattle.std.specs.Prelude.{◌≡◌, ◌<◌, ◌≤◌, ◌^◌, IfErr, IsErr};

use crate::calls::Calls;
use crate::system::System;
use std::fs::{File, OpenFile, OpenOptions};
use std::io;
use std::io::ErrorKind;
use std::os::unix::fs::FileExt;
use std::path::Path;
use std::rt::Files;
use yw_outside::Failed;

/// The longest file that a desk may have.
const LONGEST: u64 = (1 << 63) - 1;

/// The files of the system that the program runs on, or of another. It doesn't tell what they hold.
///
/// Of the calls of the system no contract says what they do, so this file is where the files' bytes are trusted.
#[derive(Drop)]
pub struct Os<R> {
    rt: R,
    calls: Calls,
}

impl<R> Os<R> {
    /// No call was made yet.
    pub fn new(rt: R) -> Os<R>
        ensures { result ≡ record { rt = rt; calls = record { made = 0; failed = 0 } } }
    {
        Os {
            rt,
            calls: Calls::none(),
        }
    }

    /// The calls that were made.
    pub fn calls(&self) -> Calls
        ensures { result ≡ self.now.calls }
    {
        self.calls
    }
}

/// A file whose exclusive lock can be taken, which its opening then holds until it is closed. Our own.
pub trait Lock {
    /// Takes the lock at once, or fails where another opening of the file has it.
    fn take_lock(&self) -> io::Result<()>;
}

impl Lock for File {
    fn take_lock(&self) -> io::Result<()> {
        self.try_lock().map_err(io::Error::from)
    }
}

/// A length that a desk may have. A greater one is the error FileTooLarge.
fn checked(length: u64) -> io::Result<u64>
    ensures ok { length < 2 ^ 63 → result ≡ Ok length }
    ensures err { 2 ^ 63 ≤ length → IsErr result }
    ensures kind { IfErr result (λ e. error_kind e ≡ ErrorKind.FileTooLarge) }
{
    if length > LONGEST {
        return Err(io::Error::from(ErrorKind::FileTooLarge));
    }
    Ok(length)
}

impl<R: Files> System for Os<R>
where
    R::File: FileExt + Lock,
{
    ghost use Rattle.std.specs.Prelude.{None, true};

    type File = R::File;

    ghost path = { λ _. None };

    ghost holds = { λ _. None };

    ghost synced = { λ _. None };

    ghost is_kept = { λ _ _. true };

    ghost is_locked = { λ _. true };

    ghost calls = { λ os. os.calls };

    fn open(&mut self, at: Path<'_>) -> Result<R::File, Failed> {
        let mut how = OpenOptions::new();
        how.read(true).write(true).create(true);
        self.calls.retry(|| how.open(&self.rt, at))
    }

    fn lock(&mut self, file: &mut R::File) -> Result<(), Failed> {
        self.calls.retry(|| file.take_lock())
    }

    fn len(&mut self, file: &R::File) -> Result<u64, Failed> {
        self.calls.retry(|| file.metadata().and_then(|metadata| checked(metadata.len())))
    }

    fn read_at(&mut self, file: &R::File, at: u64, buf: &mut [u8]) -> Result<usize, Failed> {
        while !self.calls.are_full() {
            if let Some(count) = self.calls.moved(file.read_at(buf, at))? {
                return Ok(count);
            }
        }
        Err(self.calls.give_up())
    }

    fn write_at(&mut self, file: &mut R::File, at: u64, bytes: &[u8]) -> Result<usize, Failed> {
        while !self.calls.are_full() {
            if let Some(count) = self.calls.moved(file.write_at(bytes, at))? {
                return Ok(count);
            }
        }
        Err(self.calls.give_up())
    }

    fn sync(&mut self, file: &mut R::File) -> Result<(), Failed> {
        self.calls.retry(|| file.sync_all())
    }

    fn keep(&mut self, _file: &mut R::File, folder: Path<'_>) -> Result<(), Failed> {
        let mut how = OpenOptions::new();
        how.read(true);
        self.calls.retry(|| {
            how.open(&self.rt, folder)
                .and_then(|folder| folder.sync_all())
        })
    }
}
