// A folder's two files and an output as a desk.
ghost use Rattle.std.specs.Prelude.{◌≡◌};

use crate::os::{Lock, Os};
use crate::output::{Output, Writer, hand};
use crate::slot::Slot;
use crate::system::System;
use std::alloc::{AllocError, Global};
use std::os::unix::fs::FileExt;
use std::path::Path;
use std::rt::Files;
use yw_outside::{Desk, Failed, File};

/// The files `yawl.a` and `yawl.b` of a folder, and an output. As a desk it doesn't tell what they hold.
///
/// A file is opened, and made where it isn't there, at the first call on it, and stays open. Its exclusive lock is
/// taken then and held, so that a second desk over the folder can't write to it. Where the file can't be opened, another
/// opening of it has the lock, or it is longer than 2^63 - 1 bytes, each call on it fails and leaves it as it is.
#[derive(Drop)]
pub struct FolderDesk<S: System, O> {
    system: S,
    a: Slot<S>,
    b: Slot<S>,
    out: O,
}

impl<S: System + Drop, O: Drop> FolderDesk<S, O> {
    ghost use Rattle.std.specs.Prelude.{IfOk};
    ghost use Rattle.yw_adapt.specs.FolderDesk.{folder_named, folder_of, out_of, path_in, path_of, system_of};

    /// A desk over a folder of a system, which the empty text names too where it is the present one, and over an
    /// output. No file is opened yet. An `Err` says that there was no memory for the paths.
    pub fn over(
        alloc: Global,
        system: S,
        folder: &str,
        out: O,
    ) -> Result<FolderDesk<S, O>, AllocError>
        ensures paths { IfOk result (λ desk. (f : File) → path_of desk f ≡ path_in (folder_named folder.now) f) }
        ensures folder { IfOk result (λ desk. (f : File) → folder_of desk f ≡ folder_named folder.now) }
        ensures system { IfOk result (λ desk. system_of desk ≡ system) }
        ensures out { IfOk result (λ desk. out_of desk ≡ out) }
    {
        let folder = Path::new(if folder.is_empty() { "." } else { folder });
        Ok(FolderDesk {
            system,
            a: Slot::new(folder.join(alloc, "yawl.a")?, folder.to_path_buf(alloc)?),
            b: Slot::new(folder.join(alloc, "yawl.b")?, folder.to_path_buf(alloc)?),
            out,
        })
    }

    /// The system and the output. The files are closed.
    pub fn into_parts(self) -> (S, O)
        ensures { result ≡ (system_of self, out_of self) }
    {
        (self.system, self.out)
    }
}

impl<R: Files + Drop, W: Drop> FolderDesk<Os<R>, Writer<W>>
where
    R::File: FileExt + Lock,
{
    ghost use Rattle.std.specs.Prelude.{IfOk};
    ghost use Rattle.yw_adapt.specs.FolderDesk.{folder_named, folder_of, out_of, path_in, path_of, system_of};

    /// A desk over a folder of the system that the program runs on, and over standard output or another writer.
    /// No file is opened yet. An `Err` says that there was no memory for the paths.
    pub fn new(
        alloc: Global,
        rt: R,
        folder: &str,
        out: W,
    ) -> Result<FolderDesk<Os<R>, Writer<W>>, AllocError>
        ensures paths { IfOk result (λ desk. (f : File) → path_of desk f ≡ path_in (folder_named folder.now) f) }
        ensures folder { IfOk result (λ desk. (f : File) → folder_of desk f ≡ folder_named folder.now) }
        ensures system { IfOk result (λ desk. system_of desk ≡ record { rt = rt; calls = record { made = 0; failed = 0 } }) }
        ensures out { IfOk result (λ desk. out_of desk ≡ record { inner = out; calls = record { made = 0; failed = 0 } }) }
    {
        FolderDesk::over(alloc, Os::new(rt), folder, Writer::new(out))
    }
}

impl<S: System, O: Output> Desk for FolderDesk<S, O> {
    ghost use Rattle.std.specs.Prelude.{◌≡◌, ◌<◌, ◌+◌, ◌^◌, [], false, IfOk, IsTrue, OnOk, length, take, drop};
    ghost use Rattle.std.specs.Option.{ForSome};
    ghost use Rattle.yw_adapt.specs.Calls.{Counted};
    ghost use Rattle.yw_adapt.specs.Files.{TornAt, told};
    ghost use Rattle.yw_adapt.specs.FolderDesk.{file_of, folder_of, other_of, out_of, path_of, system_of, IsOpen};
    ghost use Rattle.yw_adapt.specs.Handed.{Handed};
    ghost use Rattle.yw_outside.specs.Causes.{HasCause};

    ghost tells = { λ _. false };

    ghost state = { λ _. record { a = []; b = []; said = [] } };

    ghost may_leave = { λ _ _. ⊥ };

    ghost moment = { λ _. 0 };

    ghost left_since = { λ _ _ _. ⊥ };

    ghost disk_faults = { λ d. (S.calls (system_of d)).failed };

    ghost say_faults = { λ d. (O.calls (out_of d)).failed };

    ghost counts_now = { λ d t c le left. left };

    ghost only_now = { λ d c left. left };

    ghost as_it_reads = { λ d tells. Prim.cc };

    ghost said_by_now = { λ d c left. absurd left };

    /// How many bytes the file holds. Fails where it can't be opened or measured.
    fn len(&mut self, f: File) -> Result<u64, Failed>
        ensures value { ForSome (told S.holds (file_of self.new f)) (λ held. IfOk result (λ n. n ≡ length held)) }
        ensures bound { IfOk result (λ n. n < 2 ^ 63) }
        ensures same { IsOpen self.old f → file_of self.new f ≡ file_of self.old f }
        ensures opened { OnOk result (IsOpen self.new f) }
        ensures locked { ForSome (file_of self.new f) (λ file. IsTrue (S.is_locked file)) }
        ensures other_file { other_of self.new f ≡ other_of self.old f }
        ensures out { out_of self.new ≡ out_of self.old }
        ensures paths { path_of self.new ≡ path_of self.old }
        ensures counts { Counted (S.calls (system_of self.old)).failed (S.calls (system_of self.new)).failed result }
        ensures cause { HasCause (S.calls (system_of self.old)).failed (S.calls (system_of self.new)).failed result }
        ensures other_cause { (O.calls (out_of self.new)).failed ≡ (O.calls (out_of self.old)).failed }
    {
        match f {
            File::A => self.a.len(&mut self.system),
            File::B => self.b.len(&mut self.system),
        }
    }

    /// Fills the buffer with what the file holds from this offset on. Fails where the file can't be opened or a read
    /// fails, and where the file ends before the buffer is full.
    fn read(&mut self, f: File, at: u64, buf: &mut [u8]) -> Result<(), Failed>
        ensures given { ForSome (told S.holds (file_of self.new f)) (λ held. OnOk result (buf.new ≡ take (length buf.old) (drop at held))) }
        ensures same { IsOpen self.old f → file_of self.new f ≡ file_of self.old f }
        ensures opened { OnOk result (IsOpen self.new f) }
        ensures locked { ForSome (file_of self.new f) (λ file. IsTrue (S.is_locked file)) }
        ensures other_file { other_of self.new f ≡ other_of self.old f }
        ensures out { out_of self.new ≡ out_of self.old }
        ensures paths { path_of self.new ≡ path_of self.old }
        ensures counts { Counted (S.calls (system_of self.old)).failed (S.calls (system_of self.new)).failed result }
        ensures cause { HasCause (S.calls (system_of self.old)).failed (S.calls (system_of self.new)).failed result }
        ensures other_cause { (O.calls (out_of self.new)).failed ≡ (O.calls (out_of self.old)).failed }
    {
        match f {
            File::A => self.a.read(&mut self.system, at, buf),
            File::B => self.b.read(&mut self.system, at, buf),
        }
    }

    /// Writes the bytes at this offset, and whatever comes of it no others. Fails where the file can't be opened or a
    /// write fails or takes no byte.
    fn write(&mut self, f: File, at: u64, bytes: &[u8]) -> Result<(), Failed>
        requires { at + length bytes.now < 2 ^ 63 }
        ensures taken { ForSome (told S.holds (file_of self.new f)) (λ held. OnOk result (take (length bytes.now) (drop at held) ≡ bytes.now)) }
        ensures rest { IsOpen self.old f → TornAt at (length bytes.now) (told S.holds (file_of self.old f)) (told S.holds (file_of self.new f)) }
        ensures opened { OnOk result (IsOpen self.new f) }
        ensures locked { ForSome (file_of self.new f) (λ file. IsTrue (S.is_locked file)) }
        ensures other_file { other_of self.new f ≡ other_of self.old f }
        ensures out { out_of self.new ≡ out_of self.old }
        ensures paths { path_of self.new ≡ path_of self.old }
        ensures counts { Counted (S.calls (system_of self.old)).failed (S.calls (system_of self.new)).failed result }
        ensures cause { HasCause (S.calls (system_of self.old)).failed (S.calls (system_of self.new)).failed result }
        ensures other_cause { (O.calls (out_of self.new)).failed ≡ (O.calls (out_of self.old)).failed }
    {
        match f {
            File::A => self.a.write(&mut self.system, at, bytes),
            File::B => self.b.write(&mut self.system, at, bytes),
        }
    }

    /// Syncs what the file holds and its length to the device, and at first its name in the folder. Fails where
    /// the file can't be opened or a sync fails.
    fn sync(&mut self, f: File) -> Result<(), Failed>
        ensures synced { OnOk result (told S.synced (file_of self.new f) ≡ told S.holds (file_of self.new f)) }
        ensures named { OnOk result (ForSome (file_of self.new f) (λ file. IsTrue (S.is_kept file (folder_of self.new f)))) }
        ensures keeps { IsOpen self.old f → told S.holds (file_of self.new f) ≡ told S.holds (file_of self.old f) }
        ensures opened { OnOk result (IsOpen self.new f) }
        ensures locked { ForSome (file_of self.new f) (λ file. IsTrue (S.is_locked file)) }
        ensures other_file { other_of self.new f ≡ other_of self.old f }
        ensures out { out_of self.new ≡ out_of self.old }
        ensures paths { path_of self.new ≡ path_of self.old }
        ensures counts { Counted (S.calls (system_of self.old)).failed (S.calls (system_of self.new)).failed result }
        ensures cause { HasCause (S.calls (system_of self.old)).failed (S.calls (system_of self.new)).failed result }
        ensures other_cause { (O.calls (out_of self.new)).failed ≡ (O.calls (out_of self.old)).failed }
    {
        match f {
            File::A => self.a.sync(&mut self.system),
            File::B => self.b.sync(&mut self.system),
        }
    }

    /// Hands all of the bytes to the output and flushes them, and else hands a prefix of them. Fails where a write fails or
    /// takes no byte, or the flush fails.
    fn say(&mut self, bytes: &[u8]) -> Result<(), Failed>
        ensures handed { Handed (O.contents (out_of self.old)) (O.contents (out_of self.new)) result bytes.now }
        ensures flushed { OnOk result (IsTrue (O.is_flushed (out_of self.new))) }
        ensures files { (f : File) → other_of self.new f ≡ other_of self.old f }
        ensures system { system_of self.new ≡ system_of self.old }
        ensures paths { path_of self.new ≡ path_of self.old }
        ensures counts { Counted (O.calls (out_of self.old)).failed (O.calls (out_of self.new)).failed result }
        ensures cause { HasCause (O.calls (out_of self.old)).failed (O.calls (out_of self.new)).failed result }
        ensures other_cause { (S.calls (system_of self.new)).failed ≡ (S.calls (system_of self.old)).failed }
    {
        hand(&mut self.out, bytes)
    }
}
