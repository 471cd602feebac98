// The answer to each line when it has ended.
ghost use Rattle.std.specs.Prelude.{◌≡◌, ◌+◌, ◌<◌, ◌≤◌, ◌^◌, ◌∷◌, ◌++◌, [], length, IfErr, OnOk};
ghost use Rattle.yw_lines.specs.Lines.{newline, HasNoNewline};
ghost use Rattle.yw_serve.specs.Kept.{kept_of};
ghost use Rattle.yw_serve.specs.Desks.{KeepsJournal, Stands, StopsInPiece, StopsInRest, TakesPiece, TakesRest};
ghost use Rattle.yw_serve.specs.Faults.{CallFaults};

use crate::pieces::{keep, split_line};
use crate::server::Stop;
use crate::session::Session;
use std::alloc::AllocError;
use yw_outside::Desk;

/// Takes bytes that end no line.
fn take_part(session: &mut Session, part: &[u8]) -> Result<(), Stop>
    requires { HasNoNewline part.now }
    ensures ok { OnOk result
        (session.new.line.items ≡ kept_of (session.old.line.items ++ part.now)) }
    ensures server { session.new.server ≡ session.old.server }
    ensures number { session.new.number ≡ session.old.number }
    ensures memory { IfErr result (λ stop. stop ≡ Stop.Memory) }
{
    match keep(&mut session.line, part) {
        Ok(()) => Ok(()),
        Err(AllocError) => Err(Stop::Memory),
    }
}

/// Takes the rest of a line and its newline, and answers it.
fn take_line<D: Desk>(session: &mut Session, desk: &mut D, part: &[u8]) -> Result<(), Stop>
    requires number { session.old.number + 1 < 2 ^ 64 }
    requires part { HasNoNewline part.now }
    requires stands { Stands D.Desk session.old.server.journal desk.old }

    ensures ok { OnOk result (TakesPiece D.Desk session.old session.new
        (part.now ++ newline ∷ []) desk.old desk.new) }
    ensures err { IfErr result (λ stop. StopsInPiece D.Desk stop session.old
        (part.now ++ newline ∷ []) desk.old desk.new) }
    ensures number { session.new.number ≤ session.old.number + 1 }
    ensures stands { OnOk result (Stands D.Desk session.new.server.journal desk.new) }
    ensures keeps { KeepsJournal D.Desk session.old.server.journal session.new.server.journal
        desk.old desk.new }
    ensures faults { CallFaults D.Desk result desk.old desk.new }
{
    take_part(session, part)?;
    session.server.line(desk, session.number, &session.line)?;
    session.line.clear();
    session.number += 1;
    Ok(())
}

/// Takes a piece of the input, and answers each line that it ends.
pub fn feed<D: Desk>(session: &mut Session, desk: &mut D, piece: &[u8]) -> Result<(), Stop>
    requires number { session.old.number + length piece.now < 2 ^ 64 }
    requires stands { Stands D.Desk session.old.server.journal desk.old }

    ensures ok { OnOk result
        (TakesPiece D.Desk session.old session.new piece.now desk.old desk.new) }
    ensures err { IfErr result (λ stop.
        StopsInPiece D.Desk stop session.old piece.now desk.old desk.new) }
    ensures number { session.new.number ≤ session.old.number + length piece.now }
    ensures stands { OnOk result (Stands D.Desk session.new.server.journal desk.new) }
    ensures keeps { KeepsJournal D.Desk session.old.server.journal session.new.server.journal
        desk.old desk.new }
    ensures faults { CallFaults D.Desk result desk.old desk.new }
{
    let mut rest = piece;
    while let Some((part, after)) = split_line(rest) {
        take_line(session, desk, part)?;
        rest = after;
    }
    take_part(session, rest)
}

/// Answers the last line, where bytes follow the last newline.
pub fn finish<D: Desk>(session: &mut Session, desk: &mut D) -> Result<(), Stop>
    requires { Stands D.Desk session.old.server.journal desk.old }

    ensures ok { OnOk result (TakesRest D.Desk session.old session.new desk.old desk.new) }
    ensures err { IfErr result (λ stop. StopsInRest D.Desk stop session.old desk.old desk.new) }
    ensures stands { OnOk result (Stands D.Desk session.new.server.journal desk.new) }
    ensures keeps { KeepsJournal D.Desk session.old.server.journal session.new.server.journal
        desk.old desk.new }
    ensures faults { CallFaults D.Desk result desk.old desk.new }
{
    if session.line.is_empty() {
        return Ok(());
    }
    session.server.line(desk, session.number, &session.line)
}
