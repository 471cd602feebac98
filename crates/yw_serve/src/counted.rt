// A server that is fed the lines of a bench.
ghost use Rattle.std.specs.Prelude.{◌≡◌, ◌≢◌, ◌+◌, ◌<◌, ◌≤◌, ◌^◌, ◌∷◌, ◌++◌, [], List, ℕ, IfOk, IsTrue, OnOk, string_bytes};
ghost use Rattle.yw_outside.specs.declared.desk.File.{File};
ghost use Rattle.yw_serve.specs.Bench.{bench_lines, case_lines};
ghost use Rattle.yw_serve.specs.Counted.{BenchFaults, Begins, CanTake, IsEmpty, IsFaultOfStart, IsFaultOfStop, TakesOn};

use crate::bench_lines::{
    amount_of, complete_line, enter_line, launch_line, load_line, next_seed, person_line,
    start_line,
};
use crate::opening::StartFault;
use crate::server::{Server, Stop};
use crate::summary::Summary;
use std::alloc::{AllocError, Global};
use thiserror::Error;
use yw_outside::Desk;

/// Why a bench isn't done.
#[derive(Clone, Copy, Debug, Error, PartialEq, Eq)]
pub enum BenchFault {
    /// A call of the desk's files failed.
    #[error("a call of the files failed")]
    Disk,
    /// A reply couldn't be said whole.
    #[error("a reply couldn't be said")]
    Write,
    /// No memory was left.
    #[error("no memory was left")]
    Memory,
}

impl From<AllocError> for BenchFault {
    ghost use Rattle.std.specs.Prelude.{◌≡◌};
    ghost use Rattle.yw_serve.specs.declared.counted.BenchFault.TheVariants.{Memory};

    ghost from_gives = { λ _ fault. fault ≡ Memory };

    fn from(_: AllocError) -> BenchFault {
        BenchFault::Memory
    }
}

/// Where no entry ends: the entries of a bench are too few.
const LIMIT: u64 = 1 << 62;

/// Why a bench isn't done, where its server doesn't start. There is no damage in empty files.
fn fault_of_start(fault: StartFault) -> BenchFault
    requires { (f : File) (place : ℕ) → fault ≢ StartFault.Damaged f place }
    ensures { IsFaultOfStart fault result }
{
    match fault {
        StartFault::Disk => BenchFault::Disk,
        StartFault::Memory => BenchFault::Memory,
        StartFault::Damaged(_, _) => unreachable!(),
    }
}

/// Why a bench isn't done, where a line stops. There is room for each entry.
fn fault_of_stop(stop: Stop) -> BenchFault
    requires { (n : ℕ) → stop ≢ Stop.Full n }
    ensures { IsFaultOfStop stop result }
{
    match stop {
        Stop::Disk => BenchFault::Disk,
        Stop::Write => BenchFault::Write,
        Stop::Memory => BenchFault::Memory,
        Stop::Full(_) => unreachable!(),
    }
}

/// A server, the number of its next line, and what the lines before come to.
#[derive(Drop)]
pub struct Counted {
    pub server: Server,
    pub number: u64,
    pub summary: Summary,
}

impl Counted {
    /// Starts a server on empty files.
    pub fn start<D: Desk>(alloc: Global, desk: &mut D) -> Result<Counted, BenchFault>
        requires tells { IsTrue (D.tells desk.old) }
        requires empty { IsEmpty (D.state desk.old) }

        ensures begins { IfOk result (λ counted. Begins D.Desk counted desk.old desk.new) }
        ensures faults { BenchFaults D.Desk result desk.old desk.new }
    {
        // There is nothing to be read into it.
        let mut piece = [0; 5];
        match Server::start(alloc, LIMIT, &mut piece, desk) {
            Ok(server) => Ok(Counted {
                server,
                number: 1,
                summary: Summary::new(),
            }),
            Err(fault) => Err(fault_of_start(fault)),
        }
    }

    /// Answers the next line, and counts what it did.
    fn take<D: Desk>(&mut self, desk: &mut D, line: &[u8]) -> Result<(), BenchFault>
        requires can { CanTake D.Desk self.old desk.old }
        requires few { self.old.number < 2 ^ 20 }

        ensures ok { OnOk result ((lines : List (List ℕ))
            → TakesOn D.Desk self.old self.new lines (lines ++ line.now ∷ []) desk.old desk.new) }
        ensures can { OnOk result (CanTake D.Desk self.new desk.new) }
        ensures number { OnOk result (self.new.number ≡ self.old.number + 1) }
        ensures faults { BenchFaults D.Desk result desk.old desk.new }
    {
        let plan = match self.server.answer(desk, self.number, line) {
            Ok(plan) => plan,
            Err(stop) => return Err(fault_of_stop(stop)),
        };
        self.summary.count(&plan);
        self.number += 1;
        Ok(())
    }

    /// The same of a line for which there may have been no memory.
    fn take_made<D: Desk>(
        &mut self,
        desk: &mut D,
        line: Result<String, AllocError>,
    ) -> Result<(), BenchFault>
        requires can { CanTake D.Desk self.old desk.old }
        requires few { self.old.number < 2 ^ 20 }

        ensures ok { OnOk result ((text : List ℕ) (lines : List (List ℕ))
            → IfOk line (λ made. string_bytes made ≡ text)
            → TakesOn D.Desk self.old self.new lines (lines ++ text ∷ []) desk.old desk.new) }
        ensures can { OnOk result (CanTake D.Desk self.new desk.new) }
        ensures number { OnOk result (self.new.number ≡ self.old.number + 1) }
        ensures faults { BenchFaults D.Desk result desk.old desk.new }
    {
        let line = line?;
        self.take(desk, line.as_bytes())
    }

    /// Answers the lines of the case with this number and this amount.
    fn take_case<D: Desk>(
        &mut self,
        alloc: Global,
        desk: &mut D,
        case: u64,
        amount: u64,
    ) -> Result<(), BenchFault>
        requires can { CanTake D.Desk self.old desk.old }
        requires few { self.old.number < 2 ^ 19 }
        requires small { case < 2 ^ 20 }

        ensures ok { OnOk result ((lines : List (List ℕ)) → TakesOn D.Desk self.old self.new
            lines (lines ++ case_lines case amount) desk.old desk.new) }
        ensures can { OnOk result (CanTake D.Desk self.new desk.new) }
        ensures number { OnOk result (self.new.number ≡ self.old.number + 4) }
        ensures faults { BenchFaults D.Desk result desk.old desk.new }
    {
        self.take_made(desk, launch_line(alloc, amount))?;
        self.take_made(desk, enter_line(alloc, case))?;
        self.take_made(desk, start_line(alloc, case))?;
        self.take_made(desk, complete_line(alloc, case))
    }

    /// Answers the lines of so many cases, where those of the person and of the specification are answered.
    fn take_cases<D: Desk>(
        &mut self,
        alloc: Global,
        desk: &mut D,
        start: u64,
        count: u64,
    ) -> Result<(), BenchFault>
        requires can { CanTake D.Desk self.old desk.old }
        requires first { self.old.number ≡ 3 }
        requires start { start < 2 ^ 31 }
        requires count { count ≤ 100000 }

        ensures ok { OnOk result (TakesOn D.Desk self.old self.new
            (bench_lines start 0) (bench_lines start count) desk.old desk.new) }
        ensures faults { BenchFaults D.Desk result desk.old desk.new }
    {
        let mut seed = start;
        for k in 0..count {
            seed = next_seed(seed);
            self.take_case(alloc, desk, 3 * k + 1, amount_of(seed))?;
        }
        Ok(())
    }

    /// Answers all lines of a bench, and tells what they come to.
    pub fn take_bench<D: Desk>(
        &mut self,
        alloc: Global,
        desk: &mut D,
        start: u64,
        count: u64,
    ) -> Result<Summary, BenchFault>
        requires can { CanTake D.Desk self.old desk.old }
        requires first { self.old.number ≡ 1 }
        requires start { start < 2 ^ 31 }
        requires count { count ≤ 100000 }

        ensures ok { OnOk result (TakesOn D.Desk self.old self.new
            [] (bench_lines start count) desk.old desk.new) }
        ensures summary { IfOk result (λ summary. summary ≡ self.new.summary) }
        ensures faults { BenchFaults D.Desk result desk.old desk.new }
    {
        self.take(desk, person_line().as_bytes())?;
        self.take(desk, load_line().as_bytes())?;
        self.take_cases(alloc, desk, start, count)?;
        Ok(self.summary)
    }
}
