// A server: the state, where it is kept, and the answer to one line.
ghost use Rattle.std.specs.Prelude.{◌≡◌, ◌≢◌, ◌++◌, ◌∷◌, [], IfErr, IfOk, Err, OnOk, OnErr, IsTrue};
ghost use Rattle.yw_outside.specs.Image.{SaysPart, Speaks};
ghost use Rattle.yw_outside.specs.Moments.{After, IsSettled};
ghost use Rattle.yw_outside.specs.Since.{LeavesOnly};
ghost use Rattle.yw_engine.specs.Held as held;
ghost use Rattle.yw_judge.specs.Ends.{KeepsFiles};
ghost use Rattle.yw_serve.specs.Desks.{ForContent, Grows, KeepsCounts, KeepsJournal, Stands, StaysSettled};
ghost use Rattle.yw_serve.specs.Faults.{CallFaults};
ghost use Rattle.yw_serve.specs.Plans.{CanBeAppended, DoesLine, ForPlan};
ghost use Rattle.yw_serve.specs.Session.{AreDone, CutsLine, EndsLine, OfSteps, Why, server_state};

use crate::plan::{Plan, plan_line};
use std::alloc::{AllocError, Global};
use yw_journal::{AppendFault, Journal};
use yw_office::Office;
use yw_outside::{Desk, Failed};

/// Why lines aren't answered any further.
#[derive(Clone, Copy, Debug, PartialEq, Eq)]
pub enum Stop {
    /// An entry couldn't be written, or not be synced.
    Disk,
    /// A reply couldn't be said whole.
    Write,
    /// No memory was left.
    Memory,
    /// The entry would end at this offset, which is past the limit.
    Full(u64),
}

impl From<AllocError> for Stop {
    ghost use Rattle.std.specs.Prelude.{◌≡◌};
    ghost use Rattle.yw_serve.specs.declared.server.Stop.TheVariants.{Memory};

    ghost from_gives = { λ _ stop. stop ≡ Memory };

    fn from(_: AllocError) -> Stop {
        Stop::Memory
    }
}

/// A server over the files of a desk: the state, and where it is kept. `Server::start` makes one, and `Server::line` answers a
/// line. Its parts are this crate's own, so that nobody puts back what it was: after an `Err` of a line nothing says that it stands on the
/// desk, and it can't be asked again.
#[derive(Drop)]
pub struct Server {
    pub(crate) alloc: Global,
    /// Decides what commands do, and tells persons' work.
    pub(crate) office: Office,
    /// Where entries are appended.
    pub(crate) journal: Journal,
    /// The last entry as it was appended; its room serves the next.
    pub(crate) entry: Vec<u8>,
}

/// Says a text. At `Write` a prefix of it may have been said.
pub fn tell<D: Desk>(desk: &mut D, text: &[u8]) -> Result<(), Stop>
    ensures said { OnOk result (IsTrue (D.tells desk.old)
        → (D.state desk.new).said ≡ (D.state desk.old).said ++ text.now) }
    ensures a { (D.state desk.new).a ≡ (D.state desk.old).a }
    ensures b { (D.state desk.new).b ≡ (D.state desk.old).b }
    ensures settled { StaysSettled D.Desk desk.old desk.new }
    ensures any_moment { IsTrue (D.tells desk.old)
        → IsSettled (D.state desk.old) (D.may_leave desk.old)
        → LeavesOnly D.Desk desk.old desk.new (Speaks text.now (D.state desk.old)) }
    ensures part { IsTrue (D.tells desk.old)
        → SaysPart (D.state desk.old).said text.now (D.state desk.new).said }
    ensures passes { IsTrue (D.tells desk.old)
        → LeavesOnly D.Desk desk.old desk.new (After (Speaks text.now) (D.may_leave desk.old)) }
    ensures counts { KeepsCounts D.Desk desk.old desk.new }
    ensures files { KeepsFiles D.Desk desk.old desk.new }
    ensures write { IfErr result (λ stop. stop ≡ Stop.Write) }
    ensures faults { CallFaults D.Desk result desk.old desk.new }
{
    match desk.say(text) {
        Ok(()) => Ok(()),
        Err(Failed) => Err(Stop::Write),
    }
}

/// Does what is planned: what is appended is on the disk before its reply is said.
fn carry_out<D: Desk>(
    journal: &mut Journal,
    plan: &Plan,
    entry: &[u8],
    desk: &mut D,
) -> Result<(), Stop>
    requires framed { CanBeAppended entry.now plan.now }
    requires stands { Stands D.Desk journal.old desk.old }

    ensures ok { OnOk result (ForPlan D.Desk journal.old desk.old plan.now entry.now (λ c step.
        AreDone D.Desk c (step ∷ []) journal.new desk.old desk.new)) }
    ensures moments { OnErr result (ForPlan D.Desk journal.old desk.old plan.now entry.now
        (λ c step. LeavesOnly D.Desk desk.old desk.new
        (OfSteps journal.old.file c (step ∷ []) (D.state desk.old)))) }
    ensures why { IfErr result (λ stop. ForPlan D.Desk journal.old desk.old plan.now entry.now
        (λ c step. Why D.Desk c stop journal.old (step ∷ []) desk.old desk.new)) }

    ensures stands { OnOk result (Stands D.Desk journal.new desk.new) }
    ensures keeps { KeepsJournal D.Desk journal.old journal.new desk.old desk.new }
    ensures grows { Grows result journal.old journal.new }
    ensures faults { CallFaults D.Desk result desk.old desk.new }
    ensures memory { result ≢ Err Stop.Memory }
{
    match plan {
        Plan::Say(reply) => tell(desk, reply.as_slice()),
        Plan::Accept(_, reply) => match journal.append(desk, entry) {
            Ok(()) => tell(desk, reply.as_slice()),
            Err(AppendFault::Disk) => Err(Stop::Disk),
            Err(AppendFault::Full(end)) => Err(Stop::Full(end)),
        },
    }
}

impl Server {
    /// A server of these parts. It takes no memory.
    pub(crate) fn new(alloc: Global, office: Office, journal: Journal) -> Server
        ensures state { server_state result ≡ held.state_of office }
        ensures journal { result.journal ≡ journal }
    {
        Server {
            alloc,
            office,
            journal,
            entry: Vec::new(alloc),
        }
    }

    /// Answers one line as `line` does, and hands on the plan that was done for it.
    pub(crate) fn answer<D: Desk>(
        &mut self,
        desk: &mut D,
        n: u64,
        line: &[u8],
    ) -> Result<Plan, Stop>
        requires stands { Stands D.Desk self.old.journal desk.old }

        ensures ok { IfOk result (λ plan. ForContent D.Desk self.old.journal desk.old (λ c.
            DoesLine D.Desk c plan self.old self.new n line.now desk.old desk.new)) }
        ensures err { IfErr result (λ stop. ForContent D.Desk self.old.journal desk.old (λ c.
            CutsLine D.Desk c stop self.old n line.now desk.old desk.new)) }

        ensures stands { OnOk result (Stands D.Desk self.new.journal desk.new) }
        ensures keeps { KeepsJournal D.Desk self.old.journal self.new.journal desk.old desk.new }
        ensures grows { Grows result self.old.journal self.new.journal }
        ensures faults { CallFaults D.Desk result desk.old desk.new }
    {
        let plan = plan_line(self.alloc, &mut self.office, &mut self.entry, n, line)?;
        carry_out(&mut self.journal, &plan, self.entry.as_slice(), desk)?;
        Ok(plan)
    }

    /// Answers one line, given without its newline, by one line said on the desk. The reply names the line by this number; lines
    /// are numbered from 1 by who feeds them. Of a line that is longer than a line may be, one byte past the limit may stand for
    /// all that is too long. What the line does is on the disk before its reply is said. A refusal is a reply.
    ///
    /// An `Err` says where the server stopped: `Disk` only where a call of the files failed, `Write` only where the say did,
    /// `Full` only where the entry would end past the limit, and `Memory` where no memory was left. The server isn't
    /// used again then: `Server::start` opens the files anew.
    pub fn line<D: Desk>(&mut self, desk: &mut D, n: u64, line: &[u8]) -> Result<(), Stop>
        requires stands { Stands D.Desk self.old.journal desk.old }

        ensures ok { OnOk result (ForContent D.Desk self.old.journal desk.old (λ c.
            EndsLine D.Desk c self.old self.new n line.now desk.old desk.new)) }
        ensures err { IfErr result (λ stop. ForContent D.Desk self.old.journal desk.old (λ c.
            CutsLine D.Desk c stop self.old n line.now desk.old desk.new)) }

        ensures stands { OnOk result (Stands D.Desk self.new.journal desk.new) }
        ensures keeps { KeepsJournal D.Desk self.old.journal self.new.journal desk.old desk.new }
        ensures faults { CallFaults D.Desk result desk.old desk.new }
    {
        self.answer(desk, n, line)?;
        Ok(())
    }
}
