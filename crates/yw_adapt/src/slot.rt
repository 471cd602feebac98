// One of the two files of a folder.
ghost use Rattle.std.specs.Prelude.{◌≡◌, ◌≤◌, ◌<◌, ◌+◌, ◌^◌, None, IsTrue, IfOk, IsSome, OnOk, length, take, drop};
ghost use Rattle.std.specs.Option.{ForSome};
ghost use Rattle.std.specs.Path.{path_buf_bytes};
ghost use Rattle.yw_adapt.specs.Calls.{Counted};
ghost use Rattle.yw_adapt.specs.Files.{TornAt, told};

use crate::system::System;
use std::path::PathBuf;
use yw_outside::Failed;

/// A file of a folder, which is opened at the first call on it and locked while it is open.
#[derive(Drop)]
pub struct Slot<S: System> {
    path: PathBuf,
    folder: PathBuf,
    file: Option<S::File>,
    /// whether the folder was synced since, so that a crash leaves the file in it
    is_kept: bool,
    ghost own: { ForSome file (λ f. ForSome (S.path f) (λ p. p ≡ path_buf_bytes path)) },
    ghost locked: { ForSome file (λ f. IsTrue (S.is_locked f)) },
    ghost opened: { IsTrue is_kept → IsSome file },
    ghost kept: { IsTrue is_kept → ForSome file (λ f. IsTrue (S.is_kept f (path_buf_bytes folder))) },
}

/// Fills the buffer from this offset on.
fn read_whole<S: System>(
    system: &mut S,
    file: &S::File,
    at: u64,
    buf: &mut [u8],
) -> Result<(), Failed>
    ensures bytes { ForSome (S.holds file.now) (λ held. OnOk result (buf.new ≡ take (length buf.old) (drop at held))) }
    ensures counts { Counted (S.calls system.old).failed (S.calls system.new).failed result }
{
    let mut done = 0;
    while done < buf.len() {
        done += system.read_at(file, at.saturating_add(done as u64), &mut buf[done..])?;
    }
    Ok(())
}

/// Writes all of the bytes from this offset on.
fn write_whole<S: System>(
    system: &mut S,
    file: &mut S::File,
    at: u64,
    bytes: &[u8],
) -> Result<(), Failed>
    requires { at + length bytes.now < 2 ^ 63 }
    ensures bytes { ForSome (S.holds file.new) (λ held. OnOk result (take (length bytes.now) (drop at held) ≡ bytes.now)) }
    ensures rest { TornAt at (length bytes.now) (S.holds file.old) (S.holds file.new) }
    ensures path { S.path file.new ≡ S.path file.old }
    ensures kept { S.is_kept file.new ≡ S.is_kept file.old }
    ensures locked { S.is_locked file.new ≡ S.is_locked file.old }
    ensures counts { Counted (S.calls system.old).failed (S.calls system.new).failed result }
{
    let mut done = 0;
    while done < bytes.len() {
        done += system.write_at(file, at + done as u64, &bytes[done..])?;
    }
    Ok(())
}

impl<S: System> Slot<S> {
    /// A file that isn't open yet.
    pub fn new(path: PathBuf, folder: PathBuf) -> Slot<S>
        ensures path { result.path ≡ path }
        ensures folder { result.folder ≡ folder }
        ensures file { result.file ≡ None }
    {
        Slot {
            path,
            folder,
            file: None,
            is_kept: false,
        }
    }

    /// Opens the file where it isn't open yet, and takes its lock.
    fn open(&mut self, system: &mut S) -> Result<(), Failed>
        ensures opened { OnOk result (IsSome self.new.file) }
        ensures kept_on { IsTrue self.old.is_kept → IsTrue self.new.is_kept }
        ensures path { self.new.path ≡ self.old.path }
        ensures folder { self.new.folder ≡ self.old.folder }
        ensures same { IsSome self.old.file → self.new.file ≡ self.old.file }
        ensures counts { Counted (S.calls system.old).failed (S.calls system.new).failed result }
    {
        if self.file.is_none() {
            let mut file = system.open(self.path.as_path())?;
            system.lock(&mut file)?;
            system.len(&file)?;
            self.file = Some(file);
        }
        Ok(())
    }

    /// How many bytes the file has.
    pub fn len(&mut self, system: &mut S) -> Result<u64, Failed>
        ensures value { ForSome (told S.holds self.new.file) (λ held. IfOk result (λ n. n ≡ length held)) }
        ensures bound { IfOk result (λ n. n < 2 ^ 63) }
        ensures opened { OnOk result (IsSome self.new.file) }
        ensures kept_on { IsTrue self.old.is_kept → IsTrue self.new.is_kept }
        ensures path { self.new.path ≡ self.old.path }
        ensures folder { self.new.folder ≡ self.old.folder }
        ensures same { IsSome self.old.file → self.new.file ≡ self.old.file }
        ensures counts { Counted (S.calls system.old).failed (S.calls system.new).failed result }
    {
        self.open(system)?;
        system.len(self.file.as_ref().unwrap())
    }

    /// Fills the buffer from this offset on.
    pub fn read(&mut self, system: &mut S, at: u64, buf: &mut [u8]) -> Result<(), Failed>
        ensures bytes { ForSome (told S.holds self.new.file) (λ held. OnOk result (buf.new ≡ take (length buf.old) (drop at held))) }
        ensures opened { OnOk result (IsSome self.new.file) }
        ensures kept_on { IsTrue self.old.is_kept → IsTrue self.new.is_kept }
        ensures path { self.new.path ≡ self.old.path }
        ensures folder { self.new.folder ≡ self.old.folder }
        ensures same { IsSome self.old.file → self.new.file ≡ self.old.file }
        ensures counts { Counted (S.calls system.old).failed (S.calls system.new).failed result }
    {
        self.open(system)?;
        read_whole(system, self.file.as_ref().unwrap(), at, buf)
    }

    /// Writes all of the bytes from this offset on. Whatever it answers, no other bytes of the file change.
    pub fn write(&mut self, system: &mut S, at: u64, bytes: &[u8]) -> Result<(), Failed>
        requires { at + length bytes.now < 2 ^ 63 }
        ensures bytes { ForSome (told S.holds self.new.file) (λ held. OnOk result (take (length bytes.now) (drop at held) ≡ bytes.now)) }
        ensures rest { IsSome self.old.file → TornAt at (length bytes.now) (told S.holds self.old.file) (told S.holds self.new.file) }
        ensures opened { OnOk result (IsSome self.new.file) }
        ensures kept_on { IsTrue self.old.is_kept → IsTrue self.new.is_kept }
        ensures path { self.new.path ≡ self.old.path }
        ensures folder { self.new.folder ≡ self.old.folder }
        ensures counts { Counted (S.calls system.old).failed (S.calls system.new).failed result }
    {
        self.open(system)?;
        write_whole(system, self.file.as_mut().unwrap(), at, bytes)
    }

    /// Syncs what the file holds and its length to the device, and at first its name in the folder.
    pub fn sync(&mut self, system: &mut S) -> Result<(), Failed>
        ensures is_kept { OnOk result (IsTrue self.new.is_kept) }
        ensures synced { OnOk result (told S.synced self.new.file ≡ told S.holds self.new.file) }
        ensures kept { OnOk result (ForSome self.new.file (λ f. IsTrue (S.is_kept f (path_buf_bytes self.new.folder)))) }
        ensures opened { OnOk result (IsSome self.new.file) }
        ensures kept_on { IsTrue self.old.is_kept → IsTrue self.new.is_kept }
        ensures path { self.new.path ≡ self.old.path }
        ensures folder { self.new.folder ≡ self.old.folder }
        ensures keeps { IsSome self.old.file → told S.holds self.new.file ≡ told S.holds self.old.file }
        ensures counts { Counted (S.calls system.old).failed (S.calls system.new).failed result }
    {
        self.open(system)?;
        let file = self.file.as_mut().unwrap();
        system.sync(file)?;
        if !self.is_kept {
            system.keep(file, self.folder.as_path())?;
            self.is_kept = true;
        }
        Ok(())
    }
}
