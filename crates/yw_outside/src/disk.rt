// The files and the output of a desk in memory, with a list of its calls.
ghost use Rattle.std.specs.Prelude.{◌≡◌, ◌≤◌, true, List, ℕ};
ghost use Rattle.yw_outside.specs.declared.image.Image.{Image};
ghost use Rattle.yw_outside.specs.Image.{file_in};
ghost use Rattle.yw_outside.specs.Stored.{bytes_of, Stands};

use crate::log::{Call, Made, note, say_noted, write_noted};
use crate::replay::{count_up_to, left_after, said_after};
use crate::stored::Stored;
use crate::{File, Fill, Image};
use std::alloc::{AllocError, Global};
use yw_base::Bytes;

/// What reads give, the output, and the calls that made them so. `made` counts those that weren't kept for
/// want of memory too.
#[derive(Drop)]
pub struct Disk {
    a: Stored,
    b: Stored,
    said: Vec<u8>,
    log: Vec<Made>,
    made: usize,
    ghost kept: { Stands a b said.items log.items made },
}

// The bytes of one of two files.
fn bytes_in<'a>(a: &'a Stored, b: &'a Stored, f: File) -> &'a [u8]
    ensures { (i : Image) → bytes_of a.now ≡ i.a → bytes_of b.now ≡ i.b → result.now ≡ file_in f i }
{
    match f {
        File::A => a.bytes(),
        File::B => b.bytes(),
    }
}

impl Disk {
    ghost use Rattle.std.specs.Prelude.{if◌then◌else◌, [], IfOk, length};
    ghost use Rattle.yw_outside.specs.Image.{Stays, Writes, Speaks};
    ghost use Rattle.yw_outside.specs.Disk.{first_of, log_of, calls_up_to, reads_as, moment_of, left_since_of, may_leave_of, Adds};
    ghost use Rattle.yw_outside.specs.Moments.{Goes};
    ghost use Rattle.yw_outside.specs.Fills.{image_by};

    /// These files, no output and no calls. It takes no memory.
    pub fn new(alloc: Global, a: Vec<u8>, b: Vec<u8>) -> Disk
        ensures first { first_of result ≡ record { a = a.items; b = b.items; said = [] } }
        ensures log { log_of result ≡ [] }
        ensures made { result.made ≡ 0 }
    {
        Disk {
            a: Stored::new(a),
            b: Stored::new(b),
            said: Vec::new(alloc),
            log: Vec::new(alloc),
            made: 0,
        }
    }

    /// The number of the last call.
    pub fn made(&self) -> usize
        ensures { result ≡ self.now.made }
    {
        self.made
    }

    /// What a read of the file gives.
    pub fn bytes(&self, f: File) -> &[u8]
        ensures { result.now ≡ file_in f (reads_as self.now) }
    {
        bytes_in(&self.a, &self.b, f)
    }

    // A call that changes nothing, kept.
    fn keep_look(&mut self) -> Result<(), AllocError>
        ensures { Adds Call.Look self.old result self.new }
    {
        self.made = self.made.saturating_add(1);
        note(&mut self.log, self.made, Call::Look)
    }

    // A sync that succeeded, kept.
    fn keep_sync(&mut self, f: File) -> Result<(), AllocError>
        ensures { Adds (Call.Sync f) self.old result self.new }
    {
        self.made = self.made.saturating_add(1);
        note(&mut self.log, self.made, Call::Sync(f))
    }

    // A write that was done or failed, kept.
    fn keep_write(
        &mut self,
        alloc: Global,
        f: File,
        at: u64,
        bytes: &[u8],
        done: bool,
    ) -> Result<(), AllocError>
        requires { at ≤ length (file_in f (reads_as self.old)) }
        ensures { Adds (Call.Write f at bytes.now done) self.old result self.new }
    {
        self.made = self.made.saturating_add(1);
        match f {
            File::A => write_noted(
                alloc,
                &mut self.log,
                &mut self.a,
                self.made,
                File::A,
                at as usize,
                bytes,
                done,
            ),
            File::B => write_noted(
                alloc,
                &mut self.log,
                &mut self.b,
                self.made,
                File::B,
                at as usize,
                bytes,
                done,
            ),
        }
    }

    // A `say` that succeeded, kept.
    fn keep_say(&mut self, alloc: Global, bytes: &[u8]) -> Result<(), AllocError>
        ensures { Adds (Call.Say bytes.now) self.old result self.new }
    {
        self.made = self.made.saturating_add(1);
        say_noted(alloc, &mut self.log, &mut self.said, self.made, bytes)
    }

    /// A look at a file, or a call that failed and did nothing.
    pub fn look(&mut self) -> Result<(), AllocError>
        ensures adds { Adds Call.Look self.old result self.new }
        ensures time { Goes moment_of left_since_of may_leave_of Stays self.old self.new }
    {
        self.keep_look()
    }

    /// A sync, which succeeds or fails.
    pub fn sync(&mut self, f: File, done: bool) -> Result<(), AllocError>
        ensures adds { Adds (if done then Call.Sync f else Call.Look) self.old result self.new }
        ensures time { Goes moment_of left_since_of may_leave_of Stays self.old self.new }
    {
        if done {
            self.keep_sync(f)
        } else {
            self.keep_look()
        }
    }

    /// A write, which is done or fails.
    pub fn write(
        &mut self,
        alloc: Global,
        f: File,
        at: u64,
        bytes: &[u8],
        done: bool,
    ) -> Result<(), AllocError>
        requires { at ≤ length (file_in f (reads_as self.old)) }
        ensures adds { Adds (Call.Write f at bytes.now done) self.old result self.new }
        ensures time { Goes moment_of left_since_of may_leave_of (Writes f at (length bytes.now)) self.old self.new }
    {
        self.keep_write(alloc, f, at, bytes, done)
    }

    /// A `say`, which says all, or fails and says nothing.
    pub fn say(&mut self, alloc: Global, bytes: &[u8], done: bool) -> Result<(), AllocError>
        ensures adds { Adds (if done then Call.Say bytes.now else Call.Look) self.old result self.new }
        ensures time { Goes moment_of left_since_of may_leave_of (Speaks bytes.now) self.old self.new }
    {
        if done {
            self.keep_say(alloc, bytes)
        } else {
            self.keep_look()
        }
    }

    /// What stands after the calls up to this number.
    pub fn image(&self, alloc: Global, call: usize, fill: Fill) -> Result<Image, AllocError>
        ensures { IfOk result (λ i. i ≡ image_by fill (first_of self.now) (calls_up_to self.now call)) }
    {
        let log = &self.log[..count_up_to(&self.log, call)];
        let a = left_after(alloc, &self.a.first, File::A, log, fill)?;
        let b = left_after(alloc, &self.b.first, File::B, log, fill)?;
        let said = said_after(alloc, log)?;
        Ok(Image {
            a: Bytes::from_vec(a),
            b: Bytes::from_vec(b),
            said: Bytes::from_vec(said),
        })
    }
}
