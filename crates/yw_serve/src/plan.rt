// What is to be done for a line, decided before anything is done.
ghost use Rattle.std.specs.Prelude.{◌≡◌, ◌≤◌, ℕ, List, IfOk, true, length};
ghost use Rattle.std.specs.List.{list_all};
ghost use Rattle.yw_codec.specs.Entries.{is_writable};
ghost use Rattle.yw_engine.specs.Held.{state_of};
ghost use Rattle.yw_built.specs.Asked.{CanBeAsked};
ghost use Rattle.yw_state.specs.Broken.{placeless};
ghost use Rattle.yw_serve.specs.Plans.{Accepts, CanBeAppended, IsPlan, IsPlanFor, Refuses, RefusesBy, entry_of};
ghost use Rattle.yw_wire.specs.Faults.{rule_of};

use crate::queries::plan_query;
use std::alloc::{AllocError, Global};
use yw_base::{Bytes, Text};
use yw_codec::write_entry_into;
use yw_engine::{Decided, EngineFault};
use yw_lines::Word;
use yw_office::Office;
use yw_state::{Asked, Command, Refusal, Rule};
use yw_wire::{WireFault, read_command, reply_done, reply_refused};

/// The words whose commands and queries are built.
const BUILT: [Word; 15] = [
    Word::Person,
    Word::Load,
    Word::Launch,
    Word::Enter,
    Word::Start,
    Word::Complete,
    Word::Add,
    Word::Suspend,
    Word::Continue,
    Word::Cancel,
    Word::Advance,
    Word::List,
    Word::Show,
    Word::Ended,
    Word::Specs,
];

/// What is to be said, and whether an entry is appended before it.
#[derive(Drop)]
pub enum Plan {
    /// Nothing is taken, and this reply said: the line is refused, or a query that is answered.
    Say(Bytes),
    /// The line is accepted with what was decided: the entry in the buffer, which is that, is appended as it stands, and then this reply said.
    Accept(Decided, Bytes),
}

/// The plan that refuses by a rule.
fn refuse(alloc: Global, n: u64, refusal: &Refusal) -> Result<Plan, AllocError>
    ensures { IfOk result (Refuses n refusal.now) }
{
    Ok(Plan::Say(reply_refused(alloc, n, refusal)?))
}

/// The same by a rule without a place.
pub fn refuse_by(alloc: Global, n: u64, rule: Rule) -> Result<Plan, AllocError>
    ensures { IfOk result (Refuses n (placeless rule)) }
{
    let at = Text::new(alloc);
    refuse(alloc, n, &Refusal { rule, at })
}

/// The plan that takes what was decided as an entry, which the buffer has then.
fn accept(alloc: Global, buffer: &mut Vec<u8>, n: u64, decided: Decided) -> Result<Plan, AllocError>
    requires some { 1 ≤ length decided.events }
    requires few { length decided.events ≤ 4097 }
    requires writable { list_all is_writable decided.events ≡ true }
    ensures { IfOk result (Accepts n (entry_of decided) buffer.new.items) }
{
    let reply = reply_done(alloc, n, &decided.events, decided.quiet)?;
    write_entry_into(buffer, &decided.events)?;
    Ok(Plan::Accept(decided, reply))
}

/// What is to be done for a command. The office is then that after it.
fn plan_command(
    alloc: Global,
    office: &mut Office,
    buffer: &mut Vec<u8>,
    n: u64,
    command: Command,
) -> Result<Plan, AllocError>
    requires { CanBeAsked command }
    ensures { IfOk result (λ plan.
        IsPlanFor (state_of office.old) n command plan buffer.new.items (state_of office.new)) }
{
    match office.decide(command) {
        Ok(decided) => accept(alloc, buffer, n, decided),
        Err(EngineFault::Refused(refusal)) => refuse(alloc, n, &refusal),
        Err(EngineFault::Memory) => Err(AllocError),
        Err(EngineFault::Spent) => Err(AllocError),
    }
}

/// What is to be done for a line that asks nothing.
fn plan_fault(alloc: Global, n: u64, fault: WireFault) -> Result<Plan, AllocError>
    ensures { IfOk result (RefusesBy n (rule_of fault)) }
{
    match fault.rule() {
        Some(rule) => refuse_by(alloc, n, rule),
        None => Err(AllocError),
    }
}

/// What is to be done for a line. The office is then that after it, and where an entry is to be appended, the buffer has it. A query changes
/// neither.
/// An `Err` says that no memory was left.
pub fn plan_line(
    alloc: Global,
    office: &mut Office,
    buffer: &mut Vec<u8>,
    n: u64,
    line: &[u8],
) -> Result<Plan, AllocError>
    ensures plan { IfOk result (λ plan.
        IsPlan (state_of office.old) n line.now plan buffer.new.items (state_of office.new)) }
    ensures framed { IfOk result (CanBeAppended buffer.new.items) }
{
    match read_command(alloc, line, &BUILT) {
        Ok(Asked::Command(command)) => plan_command(alloc, office, buffer, n, command),
        Ok(Asked::Query(query)) => plan_query(alloc, office, n, &query),
        Err(fault) => plan_fault(alloc, n, fault),
    }
}
