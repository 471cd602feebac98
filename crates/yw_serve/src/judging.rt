// The words that judge one text.
ghost use Rattle.std.specs.Prelude.{◌≡◌, ◌⊎◌, List, ℕ, Some, IsTrue};
ghost use Rattle.yw_outside.specs.Causes.{Rose};
ghost use Rattle.yw_judge.specs.Ends.{KeepsFiles};
ghost use Rattle.yw_serve.specs.Faults.{StatusFaults};
ghost use Rattle.yw_serve.specs.Judging.{IsOfJudging, Judges, TellsFound, status_of};

use crate::top::Status;
use std::alloc::Global;
use yw_judge::{Judgement, Verdict, judge_input};
use yw_outside::{Desk, Source};

fn status_of(verdict: Verdict) -> Status
    ensures { result ≡ status_of verdict }
{
    match verdict {
        Verdict::Accepted => Status::Ok,
        Verdict::Refused => Status::Findings,
        Verdict::Memory => Status::Memory,
        Verdict::Read => Status::Read,
        Verdict::Write => Status::Write,
    }
}

/// Says the verdict on the text that the source gives, by one way to judge. No file is touched.
pub fn serve_judging<J: Judgement, S: Source, D: Desk>(
    alloc: Global,
    source: &mut S,
    desk: &mut D,
) -> Status
    ensures judges { IsTrue (D.tells desk.old) → (bytes : List ℕ) → S.left source.old ≡ Some bytes
        → Judges D.Desk J.Judgement result bytes (S.left source.new) desk.old desk.new }
    ensures tells { (bytes : List ℕ) → S.left source.old ≡ Some bytes
        → TellsFound J.Judgement bytes result }
    ensures files { KeepsFiles D.Desk desk.old desk.new }
    ensures told { IsOfJudging result }
    ensures faults { StatusFaults D.Desk result (S.faults source.old) (S.faults source.new)
        desk.old desk.new }
    ensures complete { ¬ (Rose (S.faults source.old) (S.faults source.new))
        → ¬ (Rose (D.say_faults desk.old) (D.say_faults desk.new))
        → (result ≡ Status.Ok) ⊎ (result ≡ Status.Findings) ⊎ (result ≡ Status.Memory) }
{
    status_of(judge_input::<J, S, D>(alloc, source, desk))
}
