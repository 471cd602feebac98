// A desk in memory that can fail where it is told to.
ghost use Rattle.std.specs.Prelude.{◌≡◌, ◌==◌};
ghost use Rattle.std.specs.List.{list_any};

use crate::disk::Disk;
use crate::log::answer;
use crate::{Desk, Failed, File, Fill, Image};
use std::alloc::{AllocError, Global};

/// Two files and an output in memory. It keeps a list of its calls, from which the images of each moment
/// follow, and fails at the calls that it is told. A call that finds no memory fails and changes nothing.
#[derive(Drop)]
pub struct MemDesk {
    alloc: Global,
    disk: Disk,
    fail: Vec<u64>,
    disk_faults: u64,
    say_faults: u64,
    short: u64,
}

// The number is among those of the calls that fail.
fn is_among(fail: &[u64], number: u64) -> bool
    ensures { result ≡ list_any (λ n. n == number) fail.now }
{
    fail.contains(&number)
}

impl MemDesk {
    ghost use Rattle.std.specs.Prelude.{◌≤◌, [], IfOk};
    ghost use Rattle.yw_outside.specs.Moments.{IsSettled};
    ghost use Rattle.yw_outside.specs.MemDesk.{reads_as, read_as_after, may_leave_of, might_leave_after, image_after, synced_after, moment_of, disk_faults_of, say_faults_of, made_by, failing_calls, is_told, short_of};

    /// A desk with these files, of which nothing is pending, and no output. The calls with the numbers in
    /// `fail`, from 1, fail. It takes no memory.
    pub fn new(alloc: Global, a: Vec<u8>, b: Vec<u8>, fail: Vec<u64>) -> MemDesk
        ensures state { reads_as result ≡ record { a = a.items; b = b.items; said = [] } }
        ensures settled { IsSettled (reads_as result) (may_leave_of result) }
        ensures moment { moment_of result ≡ 0 }
        ensures disk_faults { disk_faults_of result ≡ 0 }
        ensures say_faults { say_faults_of result ≡ 0 }
        ensures made { made_by result ≡ 0 }
        ensures failing { failing_calls result ≡ fail.items }
        ensures short { short_of result ≡ 0 }
    {
        MemDesk {
            alloc,
            disk: Disk::new(alloc, a, b),
            fail,
            disk_faults: 0,
            say_faults: 0,
            short: 0,
        }
    }

    /// The number of calls so far. It takes no memory.
    pub fn calls(&self) -> usize
        ensures { result ≡ made_by self.now }
    {
        self.disk.made()
    }

    /// How many calls failed for want of memory. It takes no memory.
    pub fn short(&self) -> u64
        ensures { result ≡ short_of self.now }
    {
        self.short
    }

    /// The files and the output just after that many calls, as a crash there may leave them: the written
    /// ranges that no sync has followed hold what the fill says. An `Err` says that no memory was left.
    pub fn image(&self, call: usize, fill: Fill) -> Result<Image, AllocError>
        requires { call ≤ made_by self.now }
        ensures left { IfOk result (λ i. might_leave_after self.now call i) }
        ensures filled { IfOk result (λ i. i ≡ image_after self.now call fill) }
        ensures new { fill ≡ Fill.New → IfOk result (λ i. i ≡ read_as_after self.now call) }
        ensures old_a { fill ≡ Fill.Old → IfOk result (λ i. i.a ≡ synced_after self.now call File.A) }
        ensures old_b { fill ≡ Fill.Old → IfOk result (λ i. i.b ≡ synced_after self.now call File.B) }
        ensures left_now { call ≡ made_by self.now → IfOk result (λ i. may_leave_of self.now i) }
        ensures new_now { call ≡ made_by self.now → fill ≡ Fill.New → IfOk result (λ i. i ≡ reads_as self.now) }
    {
        self.disk.image(self.alloc, call, fill)
    }

    // The next call is one of those that fail.
    fn next_is_told(&self) -> bool
        ensures { result ≡ is_told self.now }
    {
        let next = self.disk.made().saturating_add(1);
        is_among(&self.fail, next as u64)
    }
}

impl Desk for MemDesk {
    ghost use Rattle.std.specs.Prelude.{◌≡◌, ◌≤◌, ◌<◌, ◌+◌, ◌^◌, List, ℕ, Bool, true, IsTrue, IfOk, OnOk, OnErr, length, take, drop};
    ghost use Rattle.yw_outside.specs.Causes.{HasCause, FailsWhereTold};
    ghost use Rattle.yw_outside.specs.Image.{file_in, Stays, Writes, Written, Speaks, Says};
    ghost use Rattle.yw_outside.specs.Log.{state_of, MayLeave};
    ghost use Rattle.yw_outside.specs.LogLaws as laws;
    ghost use Rattle.yw_outside.specs.MemDesk.{first_of, calls_of, reads_as, may_leave_of, moment_of, left_since_of, disk_faults_of, say_faults_of, is_told, short_of, GoesOn};
    ghost use Rattle.yw_outside.specs.Moments.{Goes, IsDurable};

    ghost tells = { λ _. true };

    ghost state = { reads_as };

    ghost may_leave = { may_leave_of };

    ghost moment = { moment_of };

    ghost left_since = { left_since_of };

    ghost disk_faults = { disk_faults_of };

    ghost say_faults = { say_faults_of };

    ghost counts_now = { λ d. laws.counts_now (MayLeave (first_of d)) (calls_of d) };

    ghost only_now = { λ d. laws.only_now (MayLeave (first_of d)) (calls_of d) };

    ghost as_it_reads = { λ d _. laws.as_it_reads (first_of d) (calls_of d) d.disk.kept.placed };

    ghost said_by_now = { λ d. laws.said_by_now (first_of d) (calls_of d) };

    fn len(&mut self, f: File) -> Result<u64, Failed>
        ensures value { IfOk result (λ n. n ≡ length (file_in f (reads_as self.old))) }
        ensures bound { IfOk result (λ n. n < 2 ^ 63) }
        ensures state { reads_as self.new ≡ reads_as self.old }
        ensures time { Goes moment_of left_since_of may_leave_of Stays self.old self.new }
        ensures cause { HasCause (disk_faults_of self.old) (disk_faults_of self.new) result }
        ensures other_cause { say_faults_of self.new ≡ say_faults_of self.old }
        ensures fails { FailsWhereTold (is_told self.old) (short_of self.old) (short_of self.new) result }
        ensures goes_on { GoesOn self.old self.new }
    {
        let told = self.next_is_told();
        let kept = self.disk.look();
        answer(told, kept, &mut self.disk_faults, &mut self.short)?;
        Ok(self.disk.bytes(f).len() as u64)
    }

    fn read(&mut self, f: File, at: u64, buf: &mut [u8]) -> Result<(), Failed>
        requires { at + length buf.old ≤ length (file_in f (reads_as self.old)) }
        ensures bytes { OnOk result (buf.new ≡ take (length buf.old) (drop at (file_in f (reads_as self.old)))) }
        ensures state { reads_as self.new ≡ reads_as self.old }
        ensures time { Goes moment_of left_since_of may_leave_of Stays self.old self.new }
        ensures cause { HasCause (disk_faults_of self.old) (disk_faults_of self.new) result }
        ensures other_cause { say_faults_of self.new ≡ say_faults_of self.old }
        ensures fails { FailsWhereTold (is_told self.old) (short_of self.old) (short_of self.new) result }
        ensures goes_on { GoesOn self.old self.new }
    {
        let told = self.next_is_told();
        let kept = self.disk.look();
        answer(told, kept, &mut self.disk_faults, &mut self.short)?;
        let bytes = self.disk.bytes(f);
        let at = at as usize;
        buf.copy_from_slice(&bytes[at..at + buf.len()]);
        Ok(())
    }

    fn write(&mut self, f: File, at: u64, bytes: &[u8]) -> Result<(), Failed>
        requires within { at ≤ length (file_in f (reads_as self.old)) }
        requires fits { at + length bytes.now < 2 ^ 63 }
        ensures written { Written f at bytes.now (reads_as self.old) result (reads_as self.new) }
        ensures time { Goes moment_of left_since_of may_leave_of (Writes f at (length bytes.now)) self.old self.new }
        ensures cause { HasCause (disk_faults_of self.old) (disk_faults_of self.new) result }
        ensures other_cause { say_faults_of self.new ≡ say_faults_of self.old }
        ensures fails { FailsWhereTold (is_told self.old) (short_of self.old) (short_of self.new) result }
        ensures goes_on { GoesOn self.old self.new }
        ensures nothing { OnErr result (reads_as self.new ≡ reads_as self.old) }
    {
        let told = self.next_is_told();
        let kept = self.disk.write(self.alloc, f, at, bytes, !told);
        answer(told, kept, &mut self.disk_faults, &mut self.short)
    }

    fn sync(&mut self, f: File) -> Result<(), Failed>
        ensures durable { OnOk result (IsDurable f (reads_as self.old) (may_leave_of self.new)) }
        ensures state { reads_as self.new ≡ reads_as self.old }
        ensures time { Goes moment_of left_since_of may_leave_of Stays self.old self.new }
        ensures cause { HasCause (disk_faults_of self.old) (disk_faults_of self.new) result }
        ensures other_cause { say_faults_of self.new ≡ say_faults_of self.old }
        ensures fails { FailsWhereTold (is_told self.old) (short_of self.old) (short_of self.new) result }
        ensures goes_on { GoesOn self.old self.new }
    {
        let told = self.next_is_told();
        let kept = self.disk.sync(f, !told);
        answer(told, kept, &mut self.disk_faults, &mut self.short)
    }

    fn say(&mut self, bytes: &[u8]) -> Result<(), Failed>
        ensures said { Says (reads_as self.old).said bytes.now result (reads_as self.new).said }
        ensures files_a { (reads_as self.new).a ≡ (reads_as self.old).a }
        ensures files_b { (reads_as self.new).b ≡ (reads_as self.old).b }
        ensures time { Goes moment_of left_since_of may_leave_of (Speaks bytes.now) self.old self.new }
        ensures cause { HasCause (say_faults_of self.old) (say_faults_of self.new) result }
        ensures other_cause { disk_faults_of self.new ≡ disk_faults_of self.old }
        ensures fails { FailsWhereTold (is_told self.old) (short_of self.old) (short_of self.new) result }
        ensures goes_on { GoesOn self.old self.new }
        ensures nothing { OnErr result (reads_as self.new ≡ reads_as self.old) }
    {
        let told = self.next_is_told();
        let kept = self.disk.say(self.alloc, bytes, !told);
        answer(told, kept, &mut self.say_faults, &mut self.short)
    }
}
