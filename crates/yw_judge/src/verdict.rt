// The top call.
ghost use Rattle.std.specs.Prelude.{◌≡◌, ◌⊎◌, ◌≤◌, List, ℕ, Bool, Some, Err, IfOk, IsTrue};
ghost use Rattle.yw_outside.specs.Causes.{Rose};
ghost use Rattle.yw_judge.specs.Counts.{CountsRead, CountsSay, Reads};
ghost use Rattle.yw_judge.specs.Ends.{Ends, IsVerdictOf, KeepsFiles, Says, Takes, verdict_of};
ghost use Rattle.yw_judge.specs.Taken.{TakesAll, TakesSome};

use crate::Judgement;
use crate::input::{InputFault, read_text};
use std::alloc::{AllocError, Global};
use yw_outside::{Desk, Failed, Source};

/// How the judging of an input ends.
#[derive(Clone, Copy, Debug, PartialEq, Eq)]
pub enum Verdict {
    /// What is found is a yes, and its line was said.
    Accepted,
    /// What is found is a no, and its line was said.
    Refused,
    /// No memory was left. Nothing was said.
    Memory,
    /// The input couldn't be read to its end. Nothing was said.
    Read,
    /// The line couldn't be said whole. A prefix of it may have been said.
    Write,
}

/// Reads a text, and finds what it is.
fn find<J: Judgement, S: Source>(alloc: Global, source: &mut S) -> Result<J, InputFault>
    ensures ok { IfOk result (λ finding. (bytes : List ℕ) → S.left source.old ≡ Some bytes
        → J.is_found bytes finding × TakesAll J.limit bytes (S.left source.new)) }
    ensures some { (bytes : List ℕ) → S.left source.old ≡ Some bytes
        → TakesSome J.limit bytes (S.left source.new) }
    ensures counts { Reads (S.faults source.old) (S.faults source.new) result }
{
    let text = read_text(alloc, J::limit(), source)?;
    let finding = J::judge(alloc, &text)?;
    Ok(finding)
}

/// The verdict where a finding is said whole, by whether it is a yes.
fn verdict_of(accepts: bool) -> Verdict
    ensures { result ≡ verdict_of accepts }
{
    if accepts {
        Verdict::Accepted
    } else {
        Verdict::Refused
    }
}

/// Says what was found.
fn tell<J: Judgement, D: Desk>(alloc: Global, finding: &J, desk: &mut D) -> Verdict
    ensures says { IsTrue (D.tells desk.old)
        → Says D.Desk J.Judgement result finding.now desk.old desk.new }
    ensures verdicts { (result ≡ verdict_of (J.accepts finding.now)) ⊎ (result ≡ Verdict.Write)
        ⊎ ((result ≡ Verdict.Memory) × (desk.new ≡ desk.old)) }
    ensures files { KeepsFiles D.Desk desk.old desk.new }
    ensures counts { CountsSay D.Desk result desk.old desk.new }
{
    let line = match finding.line(alloc) {
        Ok(line) => line,
        Err(AllocError) => return Verdict::Memory,
    };
    match desk.say(line.as_slice()) {
        Ok(()) => verdict_of(finding.accepts()),
        Err(Failed) => Verdict::Write,
    }
}

/// Reads one text from the source to its end, judges it, and says what is found in one line on the desk. Of a text that has more than
/// `limit` bytes reading ends with the byte that is one too many.
///
/// It makes no call of the desk's files. The time is that of `judge`, and the memory that of the text and of `judge`.
pub fn judge_input<J: Judgement, S: Source, D: Desk>(
    alloc: Global,
    source: &mut S,
    desk: &mut D,
) -> Verdict
    // What each verdict says of the text and of the output, at every moment since the call began.
    ensures ends { IsTrue (D.tells desk.old) → (bytes : List ℕ) → S.left source.old ≡ Some bytes
        → Ends D.Desk J.Judgement result bytes desk.old desk.new }

    // Whatever may be found of the text is what was answered and said: nothing else is found.
    ensures only { IsTrue (D.tells desk.old) → (bytes : List ℕ) (finding : J)
        → S.left source.old ≡ Some bytes → J.is_found bytes finding
        → Says D.Desk J.Judgement result finding desk.old desk.new }

    // Also of a desk that doesn't tell what was said: the verdict is that of what may be found, or there is none.
    ensures judges { (bytes : List ℕ) (finding : J)
        → S.left source.old ≡ Some bytes → J.is_found bytes finding
        → IsVerdictOf (J.accepts finding) result }

    // How much of the input was taken.
    ensures takes { (bytes : List ℕ) → S.left source.old ≡ Some bytes
        → Takes J.limit result bytes (S.left source.new) }

    // The files stay, and where nothing was said, so does the desk.
    ensures files { KeepsFiles D.Desk desk.old desk.new }
    ensures memory_says_nothing { result ≡ Verdict.Memory → desk.new ≡ desk.old }
    ensures read_says_nothing { result ≡ Verdict.Read → desk.new ≡ desk.old }

    // Read and Write have their cause, and no failed call is passed over: with another answer none has failed.
    ensures read_cause { CountsRead result (S.faults source.old) (S.faults source.new) }
    ensures source_later { S.faults source.old ≤ S.faults source.new }
    ensures say_cause { CountsSay D.Desk result desk.old desk.new }

    // Where neither the source nor a say failed, the text is judged, or no memory was left.
    ensures complete { ¬ (Rose (S.faults source.old) (S.faults source.new))
        → ¬ (Rose (D.say_faults desk.old) (D.say_faults desk.new))
        → (result ≡ Verdict.Accepted) ⊎ (result ≡ Verdict.Refused) ⊎ (result ≡ Verdict.Memory) }
{
    match find::<J, S>(alloc, source) {
        Ok(finding) => tell(alloc, &finding, desk),
        Err(InputFault::Unread) => Verdict::Read,
        Err(InputFault::Memory) => Verdict::Memory,
    }
}
