// The call `bench`, and the words that make it.
ghost use Rattle.std.specs.Prelude.{◌≡◌, ◌≤◌, ℕ, IfOk, IsTrue};
ghost use Rattle.yw_serve.specs.Counted.{BenchFaults, Benches, IsEmpty, IsSummary, SaysBench};
ghost use Rattle.yw_serve.specs.Faults.{StatusFaults};

use crate::counted::{BenchFault, Counted};
use crate::summary::{Summary, write_summary};
use crate::top::{Status, tell_notice};
use crate::words::{GREATEST_COUNT, GREATEST_START};
use std::alloc::Global;
use yw_outside::{Desk, NeverDesk};

/// Answers the lines of a bench by a server on the files of a desk, which are empty, and tells what they come to. The first line makes the
/// person `bot`. The second loads a specification with a task by hand, and behind it one of two empty ones, `low` and `high`, by an amount.
/// Then come `count` cases, each of which is launched, entered, started and completed by `bot`. A case draws three numbers, from 1 on. The
/// amounts are chosen by a row of numbers, in which (1103515245 x + 12345) mod 2^31 follows x: behind `start` each case has the next number
/// x of the row, and the amount (x div 65536) mod 1000.
///
/// `Disk` comes only where a call of the files failed, `Write` only where a say did, and `Memory` where no memory was left.
pub fn bench<D: Desk>(
    alloc: Global,
    desk: &mut D,
    start: u64,
    count: u64,
) -> Result<Summary, BenchFault>
    requires tells { IsTrue (D.tells desk.old) }
    requires empty { IsEmpty (D.state desk.old) }
    requires start { start ≤ GREATEST_START }
    requires count { count ≤ GREATEST_COUNT }

    // The files hold the entries of a run over these lines, all replies are said, and the summary is what they come to.
    ensures ok { IfOk result (λ summary.
        Benches D.Desk start count summary desk.old desk.new) }

    // Each answer has its cause, and no failed call is passed over.
    ensures faults { BenchFaults D.Desk result desk.old desk.new }
{
    let mut counted = Counted::start(alloc, desk)?;
    counted.take_bench(alloc, desk, start, count)
}

/// What a bench comes to, on a desk in memory. An `Err` says that no memory was left.
fn own_bench(alloc: Global, start: u64, count: u64) -> Result<Summary, BenchFault>
    requires start { start ≤ GREATEST_START }
    requires count { count ≤ GREATEST_COUNT }
    ensures { IfOk result (IsSummary start count) }
{
    let mut desk = NeverDesk::new(alloc);
    bench(alloc, &mut desk, start, count)
}

/// Runs a bench on a desk of its own, and says its summary on the one that is given, of which no file is touched.
pub fn serve_bench<D: Desk>(alloc: Global, start: u64, count: u64, desk: &mut D) -> Status
    requires start { start ≤ GREATEST_START }
    requires count { count ≤ GREATEST_COUNT }

    ensures says { SaysBench D.Desk result start count desk.old desk.new }
    ensures faults { (before now : ℕ) → now ≡ before
        → StatusFaults D.Desk result before now desk.old desk.new }
{
    match own_bench(alloc, start, count) {
        Ok(summary) => tell_notice(write_summary(alloc, &summary), Status::Ok, desk),
        // A call of a desk in memory fails only for want of it.
        Err(_) => Status::Memory,
    }
}
