// How the calls of the system are counted.
ghost use Rattle.std.specs.Prelude.{◌≡◌, ◌≢◌, ◌≤◌, ◌<◌, ◌-◌, ◌^◌, ◌↔◌, None, Some, ◌⊎◌, Ok, Err, IfErr, IfOk, IsErr, IsTrue, OnErr};
ghost use Rattle.std.specs.IoError.{error_kind};
ghost use Rattle.yw_adapt.specs.Calls.{Counts};
ghost use Rattle.yw_outside.specs.Counts.{one_more};

use std::io;
use std::io::ErrorKind;
use yw_outside::Failed;

/// How many calls of the system were made and how many of them failed, each up to the last u64. A failure is
/// counted by the answer of a call, or where no more calls can be counted. Our own.
#[derive(Clone, Copy, Debug, PartialEq, Eq)]
pub struct Calls {
    made: u64,
    failed: u64,
}

/// A signal came in between, and the call may be made again.
fn is_interrupted(error: &io::Error) -> bool
    ensures { IsTrue result ↔ (error_kind error.now ≡ ErrorKind.Interrupted) }
{
    error.kind() == ErrorKind::Interrupted
}

impl Calls {
    /// No call.
    pub fn none() -> Calls
        ensures made { result.made ≡ 0 }
        ensures failed { result.failed ≡ 0 }
    {
        Calls { made: 0, failed: 0 }
    }

    /// How many were made.
    pub fn made(&self) -> u64
        ensures { result ≡ self.now.made }
    {
        self.made
    }

    /// How many failed.
    pub fn failed(&self) -> u64
        ensures { result ≡ self.now.failed }
    {
        self.failed
    }

    /// No more calls can be counted.
    pub fn are_full(&self) -> bool
        ensures { IsTrue result ↔ (2 ^ 64 - 1 ≤ self.now.made) }
    {
        self.made == u64::MAX
    }

    fn count<T>(&mut self, answer: Result<T, Failed>) -> Result<T, Failed>
        ensures same { result ≡ answer }
        ensures made { self.new.made ≡ one_more self.old.made }
        ensures counts { Counts self.old self.new result }
    {
        self.made = self.made.saturating_add(1);
        if answer.is_err() {
            self.failed = self.failed.saturating_add(1);
        }
        answer
    }

    /// Counts a call that signals can't interrupt, with this answer. It has failed where that is an error.
    pub fn told<T>(&mut self, answer: io::Result<T>) -> Result<T, Failed>
        requires { IfErr answer (λ e. error_kind e ≢ ErrorKind.Interrupted) }
        ensures ok { IfOk answer (λ value. result ≡ Ok value) }
        ensures err { OnErr answer (IsErr result) }
        ensures counts { Counts self.old self.new result }
    {
        self.count(answer.map_err(|_| Failed))
    }

    /// Counts a call with this answer. None says that it was interrupted, and is to be made again. It has failed where
    /// the answer is any other error.
    pub fn tried<T>(&mut self, answer: io::Result<T>) -> Result<Option<T>, Failed>
        ensures ok { IfOk answer (λ value. result ≡ Ok (Some value)) }
        ensures interrupted { IfErr answer (λ e. error_kind e ≡ ErrorKind.Interrupted → result ≡ Ok None) }
        ensures failed { IfErr answer (λ e. error_kind e ≢ ErrorKind.Interrupted → IsErr result) }
        ensures made { self.new.made ≡ one_more self.old.made }
        ensures counts { Counts self.old self.new result }
    {
        self.count(match answer {
            Ok(value) => Ok(Some(value)),
            Err(e) if is_interrupted(&e) => Ok(None),
            Err(_) => Err(Failed),
        })
    }

    /// Counts a call by how many bytes it moved of a piece that isn't empty. None says that it was interrupted, and is to
    /// be made again. It has failed where the answer is any other error, or that it moved no byte.
    pub fn moved(&mut self, answer: io::Result<usize>) -> Result<Option<usize>, Failed>
        ensures some { IfOk answer (λ n. 0 < n → result ≡ Ok (Some n)) }
        ensures none { answer ≡ Ok 0 → IsErr result }
        ensures interrupted { IfErr answer (λ e. error_kind e ≡ ErrorKind.Interrupted → result ≡ Ok None) }
        ensures failed { IfErr answer (λ e. error_kind e ≢ ErrorKind.Interrupted → IsErr result) }
        ensures made { self.new.made ≡ one_more self.old.made }
        ensures counts { Counts self.old self.new result }
    {
        match answer {
            Ok(0) => self.count(Err(Failed)),
            _ => self.tried(answer),
        }
    }

    /// Makes a call, and again while it is interrupted, and counts each. It fails where the last answer is another error,
    /// or where no more calls can be counted.
    pub fn retry<T, F: Fn() -> io::Result<T>>(&mut self, call: F) -> Result<T, Failed>
        requires { F.IsAlwaysCallable call }
        ensures ok { IfOk result (λ value. F.post call (Ok value)) }
        ensures err { OnErr result ((2 ^ 64 - 1 ≤ self.new.made) ⊎ ((e : _) × F.post call (Err e) × (error_kind e ≢ ErrorKind.Interrupted))) }
        ensures counts { Counts self.old self.new result }
    {
        while !self.are_full() {
            if let Some(value) = self.tried(call())? {
                return Ok(value);
            }
        }
        Err(self.give_up())
    }

    /// Counts as failed that no more calls can be made.
    pub fn give_up(&mut self) -> Failed
        requires { 2 ^ 64 - 1 ≤ self.old.made }
        ensures made { self.new.made ≡ self.old.made }
        ensures failed { self.new.failed ≡ one_more self.old.failed }
        ensures later { self.old.failed ≤ self.new.failed }
    {
        self.failed = self.failed.saturating_add(1);
        Failed
    }
}
