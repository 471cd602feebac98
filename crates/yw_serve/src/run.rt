// The loop over the input.
ghost use Rattle.std.specs.Prelude.{◌≡◌, ◌+◌, ◌<◌, ◌≤◌, List, [], ℕ, length, Some, IsTrue, MatchOption, IsNone};
ghost use Rattle.yw_journal.specs.Files.{Content};
ghost use Rattle.yw_journal.specs.Journal.{IsCurrent};
ghost use Rattle.yw_texts.specs.Texts.{reader};
ghost use Rattle.yw_state.specs.State.{State};
ghost use Rattle.yw_state.specs.Well.{IsWell};
ghost use Rattle.yw_serve.specs.Desks.{KeepsCounts, KeepsJournal, Stands};
ghost use Rattle.yw_serve.specs.Ends.{EndsAs};
ghost use Rattle.yw_serve.specs.Faults.{EndingFaults, TurnFaults};
ghost use Rattle.yw_serve.specs.Reading.{HasRead, IsFurther};
ghost use Rattle.yw_serve.specs.Session.{state_of};

use crate::answer::{feed, finish};
use crate::server::Stop;
use crate::session::Session;
use yw_outside::{Desk, Failed, Source, read_piece};

/// How the answering of an input ends.
#[derive(Clone, Copy, Debug, PartialEq, Eq)]
pub enum Ending {
    /// The input was read to its end, and every line answered.
    Whole,
    /// The input couldn't be read further.
    Unread,
    /// More bytes came than an input may have.
    Past,
    /// A line couldn't be answered.
    Stopped(Stop),
}

/// The most bytes of an input.
pub const INPUT_LIMIT: usize = 4_294_967_296;

/// Reads once and answers the lines that end in the piece. It answers an ending where that was the last turn.
fn turn<S: Source, D: Desk>(
    limit: usize,
    taken: &mut usize,
    session: &mut Session,
    piece: &mut [u8],
    source: &mut S,
    desk: &mut D,
) -> Option<Ending>
    requires limit { limit ≤ INPUT_LIMIT }
    requires within { taken.old ≤ limit }
    requires room { 0 < length piece.old }
    requires number { session.old.number ≤ taken.old + 1 }
    requires stands { Stands D.Desk session.old.server.journal desk.old }

    ensures ends { IsTrue (D.tells desk.old)
        → (c : Content) (s : State) (bytes : List ℕ) (start : D) → IsWell reader s
        → HasRead D.Desk c s session.old limit taken.old bytes (S.left source.old) start desk.old
        → MatchOption result
        (HasRead D.Desk c s session.new limit taken.new bytes (S.left source.new) start desk.new)
        (λ ending. EndsAs D.Desk ending c s session.old.server.journal.limit limit bytes
        (S.left source.new) (S.piece source.new) start desk.new) }
    ensures progress { IsNone result → IsFurther limit taken.old taken.new session.new.number }
    ensures stands { IsNone result → (Stands D.Desk session.new.server.journal desk.new) }
    ensures keeps { KeepsJournal D.Desk session.old.server.journal session.new.server.journal
        desk.old desk.new }
    ensures faults { TurnFaults D.Desk result (S.faults source.old) (S.faults source.new)
        desk.old desk.new }
{
    let count = match read_piece(source, piece, limit - *taken + 1) {
        Ok(count) => count,
        Err(Failed) => return Some(Ending::Unread),
    };
    if count == 0 {
        return match finish(session, desk) {
            Ok(()) => Some(Ending::Whole),
            Err(stop) => Some(Ending::Stopped(stop)),
        };
    }
    let kept = count.min(limit - *taken);
    *taken += count;
    match feed(session, desk, &piece[..kept]) {
        Ok(()) => None,
        Err(stop) => Some(Ending::Stopped(stop)),
    }
}

/// Answers each line of the input, as far as the limit goes.
pub fn run<S: Source, D: Desk>(
    limit: usize,
    session: &mut Session,
    piece: &mut [u8],
    source: &mut S,
    desk: &mut D,
) -> Ending
    requires limit { limit ≤ INPUT_LIMIT }
    requires room { 0 < length piece.old }
    requires number { session.old.number ≡ 1 }
    requires line { session.old.line.items ≡ [] }
    requires stands { Stands D.Desk session.old.server.journal desk.old }

    ensures ends { IsTrue (D.tells desk.old) → (c : Content) (bytes : List ℕ)
        → IsWell reader (state_of session.old)
        → IsCurrent session.old.server.journal c (D.state desk.old)
        → S.left source.old ≡ Some bytes
        → EndsAs D.Desk result c (state_of session.old) session.old.server.journal.limit limit bytes
        (S.left source.new) (S.piece source.new) desk.old desk.new }
    ensures counts { KeepsCounts D.Desk desk.old desk.new }
    ensures faults { EndingFaults D.Desk result (S.faults source.old) (S.faults source.new)
        desk.old desk.new }
{
    let mut taken: usize = 0;
    while taken <= limit {
        if let Some(ending) = turn(limit, &mut taken, session, piece, source, desk) {
            return ending;
        }
    }
    Ending::Past
}
