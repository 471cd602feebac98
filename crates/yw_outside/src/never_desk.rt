// A desk in memory that fails only for want of memory.
ghost use Rattle.std.specs.Prelude.{◌≡◌};

use crate::disk::Disk;
use crate::log::answer;
use crate::{Desk, Failed, File};
use std::alloc::Global;

/// Two files and an output in memory, at first empty, and a list of the writes and says. Each of them stands
/// whole at once, so that nothing is ever pending. One that finds no memory fails and changes nothing.
#[derive(Drop)]
pub struct NeverDesk {
    alloc: Global,
    disk: Disk,
    disk_faults: u64,
    say_faults: u64,
    short: u64,
}

impl NeverDesk {
    ghost use Rattle.std.specs.Prelude.{[]};
    ghost use Rattle.yw_outside.specs.Moments.{IsSettled};
    ghost use Rattle.yw_outside.specs.NeverDesk.{reads_as, may_leave_of, moment_of, disk_faults_of, say_faults_of, short_of};

    /// A desk with two empty files and no output. It takes no memory.
    pub fn new(alloc: Global) -> NeverDesk
        ensures state { reads_as result ≡ record { a = []; b = []; said = [] } }
        ensures settled { IsSettled (reads_as result) (may_leave_of result) }
        ensures moment { moment_of result ≡ 0 }
        ensures disk_faults { disk_faults_of result ≡ 0 }
        ensures say_faults { say_faults_of result ≡ 0 }
        ensures short { short_of result ≡ 0 }
    {
        NeverDesk {
            alloc,
            disk: Disk::new(alloc, Vec::new(alloc), Vec::new(alloc)),
            disk_faults: 0,
            say_faults: 0,
            short: 0,
        }
    }

    /// How many calls failed for want of memory. It takes no memory.
    pub fn short(&self) -> u64
        ensures { result ≡ short_of self.now }
    {
        self.short
    }
}

impl Desk for NeverDesk {
    ghost use Rattle.std.specs.Prelude.{◌≡◌, ◌≤◌, ◌<◌, ◌+◌, ◌^◌, true, refl, IfOk, IsOk, OnOk, OnErr, length, take, drop};
    ghost use Rattle.yw_outside.specs.Causes.{HasCause};
    ghost use Rattle.yw_outside.specs.Image.{file_in, Stays, Writes, Written, Speaks, Says};
    ghost use Rattle.yw_outside.specs.Log.{StandsWhole};
    ghost use Rattle.yw_outside.specs.LogLaws as laws;
    ghost use Rattle.yw_outside.specs.NeverDesk.{first_of, calls_of, reads_as, may_leave_of, moment_of, left_since_of, disk_faults_of, say_faults_of, short_of};
    ghost use Rattle.yw_outside.specs.Moments.{Goes, IsDurable};

    ghost tells = { λ _. true };

    ghost state = { reads_as };

    ghost may_leave = { may_leave_of };

    ghost moment = { moment_of };

    ghost left_since = { left_since_of };

    ghost disk_faults = { disk_faults_of };

    ghost say_faults = { say_faults_of };

    ghost counts_now = { λ d. laws.counts_now (StandsWhole (first_of d)) (calls_of d) };

    ghost only_now = { λ d. laws.only_now (StandsWhole (first_of d)) (calls_of d) };

    ghost as_it_reads = { λ d _. refl };

    ghost said_by_now = { λ d. laws.whole_said (first_of d) (calls_of d) };

    /// Never fails.
    fn len(&mut self, f: File) -> Result<u64, Failed>
        ensures value { IfOk result (λ n. n ≡ length (file_in f (reads_as self.old))) }
        ensures bound { IfOk result (λ n. n < 2 ^ 63) }
        ensures time { Goes moment_of left_since_of may_leave_of Stays self.old self.new }
        ensures never { IsOk result }
        ensures same { self.new ≡ self.old }
    {
        Ok(self.disk.bytes(f).len() as u64)
    }

    /// Never fails.
    fn read(&mut self, f: File, at: u64, buf: &mut [u8]) -> Result<(), Failed>
        requires { at + length buf.old ≤ length (file_in f (reads_as self.old)) }
        ensures bytes { OnOk result (buf.new ≡ take (length buf.old) (drop at (file_in f (reads_as self.old)))) }
        ensures time { Goes moment_of left_since_of may_leave_of Stays self.old self.new }
        ensures never { IsOk result }
        ensures same { self.new ≡ self.old }
    {
        let bytes = self.disk.bytes(f);
        let at = at as usize;
        buf.copy_from_slice(&bytes[at..at + buf.len()]);
        Ok(())
    }

    /// Fails only where `short` rose, and then writes nothing.
    fn write(&mut self, f: File, at: u64, bytes: &[u8]) -> Result<(), Failed>
        requires within { at ≤ length (file_in f (reads_as self.old)) }
        requires fits { at + length bytes.now < 2 ^ 63 }
        ensures written { Written f at bytes.now (reads_as self.old) result (reads_as self.new) }
        ensures time { Goes moment_of left_since_of may_leave_of (Writes f at (length bytes.now)) self.old self.new }
        ensures cause { HasCause (disk_faults_of self.old) (disk_faults_of self.new) result }
        ensures other_cause { say_faults_of self.new ≡ say_faults_of self.old }
        ensures short { HasCause (short_of self.old) (short_of self.new) result }
        ensures nothing { OnErr result (reads_as self.new ≡ reads_as self.old) }
    {
        let kept = self.disk.write(self.alloc, f, at, bytes, true);
        answer(false, kept, &mut self.disk_faults, &mut self.short)
    }

    /// Never fails.
    fn sync(&mut self, f: File) -> Result<(), Failed>
        ensures durable { OnOk result (IsDurable f (reads_as self.old) (may_leave_of self.new)) }
        ensures time { Goes moment_of left_since_of may_leave_of Stays self.old self.new }
        ensures never { IsOk result }
        ensures same { self.new ≡ self.old }
    {
        Ok(())
    }

    /// Fails only where `short` rose, and then says nothing.
    fn say(&mut self, bytes: &[u8]) -> Result<(), Failed>
        ensures said { Says (reads_as self.old).said bytes.now result (reads_as self.new).said }
        ensures files_a { (reads_as self.new).a ≡ (reads_as self.old).a }
        ensures files_b { (reads_as self.new).b ≡ (reads_as self.old).b }
        ensures time { Goes moment_of left_since_of may_leave_of (Speaks bytes.now) self.old self.new }
        ensures cause { HasCause (say_faults_of self.old) (say_faults_of self.new) result }
        ensures other_cause { disk_faults_of self.new ≡ disk_faults_of self.old }
        ensures short { HasCause (short_of self.old) (short_of self.new) result }
        ensures nothing { OnErr result (reads_as self.new ≡ reads_as self.old) }
    {
        let kept = self.disk.say(self.alloc, bytes, true);
        answer(false, kept, &mut self.say_faults, &mut self.short)
    }
}
