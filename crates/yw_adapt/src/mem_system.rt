// A system in memory, which tells what its files hold.
ghost use Rattle.std.specs.IoError.{error_kind};
ghost use Rattle.std.specs.Prelude.{[], ◌≡◌, ◌⊎◌, ◌≤◌, ◌<◌, ◌+◌, ◌^◌, Some, IfErr, IfOk, OnErr, OnOk, length, take, drop};
ghost use Rattle.std.specs.Path.{path_buf_bytes, path_bytes};
ghost use Rattle.yw_adapt.specs.Files.{TornAt};
ghost use Rattle.yw_outside.specs.Image.{overwritten};

use crate::calls::Calls;
use crate::system::System;
use std::alloc::Global;
use std::io;
use std::io::{Error, ErrorKind};
use std::path::{Path, PathBuf};
use yw_outside::Failed;

/// A system in memory, for tests. A file is empty when it is opened, and gone when it is closed, and no other opening has
/// its lock. A write past a file's end fails, and so does a call that is short of memory. Our own.
#[derive(Drop)]
pub struct MemSystem {
    alloc: Global,
    calls: Calls,
}

/// An open file in memory, with what of it was synced.
#[derive(Drop)]
pub struct MemFile {
    path: PathBuf,
    bytes: Vec<u8>,
    synced: Vec<u8>,
    is_kept: bool,
    is_locked: bool,
}

impl MemSystem {
    /// No call was made yet.
    pub fn new(alloc: Global) -> MemSystem
        ensures { result ≡ record { alloc = alloc; calls = record { made = 0; failed = 0 } } }
    {
        MemSystem {
            alloc,
            calls: Calls::none(),
        }
    }

    /// The calls that were made.
    pub fn calls(&self) -> Calls
        ensures { result ≡ self.now.calls }
    {
        self.calls
    }
}

/// Puts these bytes over those at this offset.
fn put(held: &mut [u8], at: usize, bytes: &[u8])
    requires { at + length bytes.now ≤ length held.old }
    ensures { held.new ≡ overwritten held.old at bytes.now }
{
    held[at..at + bytes.len()].copy_from_slice(bytes);
}

impl MemFile {
    /// An empty file with this path.
    fn open(alloc: Global, at: Path<'_>) -> io::Result<MemFile>
        ensures path { IfOk result (λ file. path_buf_bytes file.path ≡ path_bytes at.entry) }
        ensures bytes { IfOk result (λ file. file.bytes.items ≡ []) }
        ensures err { IfErr result (λ e. error_kind e ≡ ErrorKind.OutOfMemory) }
    {
        let path = at.to_path_buf(alloc);
        Ok(MemFile {
            path: path.map_err(|_| Error::from(ErrorKind::OutOfMemory))?,
            bytes: Vec::new(alloc),
            synced: Vec::new(alloc),
            is_kept: false,
            is_locked: false,
        })
    }

    /// Reads as much of the piece at this offset as there is. At the end it fails.
    fn read_at(&self, at: u64, buf: &mut [u8]) -> io::Result<usize>
        requires { 0 < length buf.old }
        ensures some { IfOk result (λ n. 0 < n) }
        ensures bound { IfOk result (λ n. n ≤ length buf.new) }
        ensures within { IfOk result (λ n. at + n ≤ length self.now.bytes.items) }
        ensures bytes { IfOk result (λ n. take n buf.new ≡ take n (drop at self.now.bytes.items)) }
        ensures end { OnErr result (length self.now.bytes.items ≤ at) }
        ensures err { IfErr result (λ e. error_kind e ≡ ErrorKind.UnexpectedEof) }
    {
        let at = at as usize;
        if at >= self.bytes.len() {
            return Err(Error::from(ErrorKind::UnexpectedEof));
        }
        let count = buf.len().min(self.bytes.len() - at);
        buf[..count].copy_from_slice(&self.bytes[at..at + count]);
        Ok(count)
    }

    /// Writes the bytes that stand before the end, or after it all.
    fn write_at(&mut self, at: u64, bytes: &[u8]) -> io::Result<usize>
        requires { 0 < length bytes.now }
        ensures some { IfOk result (λ n. 0 < n) }
        ensures bound { IfOk result (λ n. n ≤ length bytes.now) }
        ensures bytes { IfOk result (λ n. take n (drop at self.new.bytes.items) ≡ take n bytes.now) }
        ensures rest { TornAt at (length bytes.now) (Some self.old.bytes.items) (Some self.new.bytes.items) }
        ensures path { self.new.path ≡ self.old.path }
        ensures kept { self.new.is_kept ≡ self.old.is_kept }
        ensures locked { self.new.is_locked ≡ self.old.is_locked }
        ensures err { IfErr result (λ e. (error_kind e ≡ ErrorKind.OutOfMemory) ⊎ ((error_kind e ≡ ErrorKind.Unsupported) × (length self.old.bytes.items < at))) }
    {
        let at = at as usize;
        if at > self.bytes.len() {
            return Err(Error::from(ErrorKind::Unsupported));
        }
        if at == self.bytes.len() {
            let added = self.bytes.extend_from_slice(bytes);
            return added
                .map(|()| bytes.len())
                .map_err(|_| Error::from(ErrorKind::OutOfMemory));
        }
        let count = bytes.len().min(self.bytes.len() - at);
        put(&mut self.bytes, at, &bytes[..count]);
        Ok(count)
    }

    /// Copies what it holds.
    fn sync(&mut self) -> io::Result<()>
        ensures synced { OnOk result (self.new.synced.items ≡ self.old.bytes.items) }
        ensures bytes { self.new.bytes.items ≡ self.old.bytes.items }
        ensures path { self.new.path ≡ self.old.path }
        ensures kept { self.new.is_kept ≡ self.old.is_kept }
        ensures locked { self.new.is_locked ≡ self.old.is_locked }
        ensures err { IfErr result (λ e. error_kind e ≡ ErrorKind.OutOfMemory) }
    {
        self.synced.clear();
        let copied = self.synced.extend_from_slice(&self.bytes);
        copied.map_err(|_| Error::from(ErrorKind::OutOfMemory))
    }
}

impl System for MemSystem {
    ghost use Rattle.std.specs.Prelude.{Some};
    ghost use Rattle.std.specs.Path.{path_buf_bytes};

    type File = MemFile;

    ghost path = { λ file. Some (path_buf_bytes file.path) };

    ghost holds = { λ file. Some file.bytes.items };

    ghost synced = { λ file. Some file.synced.items };

    ghost is_kept = { λ file _. file.is_kept };

    ghost is_locked = { λ file. file.is_locked };

    ghost calls = { λ system. system.calls };

    fn open(&mut self, at: Path<'_>) -> Result<MemFile, Failed> {
        self.calls.told(MemFile::open(self.alloc, at))
    }

    fn lock(&mut self, file: &mut MemFile) -> Result<(), Failed> {
        file.is_locked = true;
        self.calls.told(Ok(()))
    }

    fn len(&mut self, file: &MemFile) -> Result<u64, Failed> {
        self.calls.told(Ok(file.bytes.len() as u64))
    }

    fn read_at(&mut self, file: &MemFile, at: u64, buf: &mut [u8]) -> Result<usize, Failed> {
        self.calls.told(file.read_at(at, buf))
    }

    fn write_at(&mut self, file: &mut MemFile, at: u64, bytes: &[u8]) -> Result<usize, Failed> {
        self.calls.told(file.write_at(at, bytes))
    }

    fn sync(&mut self, file: &mut MemFile) -> Result<(), Failed> {
        self.calls.told(file.sync())
    }

    fn keep(&mut self, file: &mut MemFile, _folder: Path<'_>) -> Result<(), Failed> {
        file.is_kept = true;
        self.calls.told(Ok(()))
    }
}
