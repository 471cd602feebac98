// The office: an engine, and the work lists beside it.
ghost use Rattle.std.specs.List.{list_all};
ghost use Rattle.std.specs.Prelude.{◌≡◌, IfOk, Some, false, true};
ghost use Rattle.yw_built.specs.Asked.{CanBeAsked};
ghost use Rattle.yw_built.specs.Built.{is_built};
ghost use Rattle.yw_engine.specs.Answers.{IfRefused, TellsSpent};
ghost use Rattle.yw_engine.specs.Held.{state_of};
ghost use Rattle.yw_office.specs.Kept.{Decides, IsKept};
ghost use Rattle.yw_state.specs.Broken.{Breaks};
ghost use Rattle.yw_state.specs.Legal.{IsLegal};
ghost use Rattle.yw_state.specs.State.{opening};
ghost use Rattle.yw_texts.specs.Texts.{reader};
ghost use Rattle.yw_worklist.specs.Rows.{IsToldWork};

use crate::cases::cases_below;
use std::alloc::{AllocError, Global};
use std::marker::Model;
use yw_base::Name;
use yw_engine::{Decided, Engine, EngineFault};
use yw_state::{Command, WorkList};
use yw_worklist::Lists;

/// An engine, and the work lists of all persons, which are those of its state. A contract sees what the engine holds, and whether the office is
/// spent: as the engine is, or since no memory was left for the lists.
#[derive(Drop)]
pub struct Office {
    alloc: Global,
    engine: Engine,
    lists: Lists,
    spent: bool,
}

impl Model for Office {
    ghost use Rattle.std.specs.Prelude.{◌≡◌, false};
    ghost use Rattle.yw_engine.specs.Held.{Held};
    ghost use Rattle.yw_office.specs.Kept.{IsKept};

    ghost Value = { Held };

    ghost use Rattle.std.specs.Coded.{codes};
    ghost use Rattle.yw_expr.specs.Tree.{tree_code};
    ghost use Rattle.yw_state.specs.contracts.loaded.Loaded as loaded;
    ghost use Rattle.yw_tree.specs.contracts.NetState as net;
    ghost use Rattle.yw_tree.specs.contracts.Run as run;

    ghost coded = { Prim.hlevel (codes, tree_code, loaded.the_row.coded, net.the_row.coded, run.the_row.coded) };

    ghost view = { λ o. record { standing = o.engine.standing; spent = o.spent } };

    ghost invariant = { λ o. o.spent ≡ false → IsKept o.engine o.lists };
}

/// Decides on a command, does what it asks for, and notes its events in the lists. What the engine and the lists hold after `Memory` is told nowhere;
/// `Spent` never comes.
fn decide_noting(
    alloc: Global,
    engine: &mut Engine,
    lists: &mut Lists,
    command: Command,
) -> Result<Decided, EngineFault>
    requires kept { IsKept engine.old lists.old }
    requires asked { CanBeAsked command }
    ensures { Decides engine.old command result engine.new lists.new }
{
    // No work is done by this: it says that the lists are of a state that is well.
    engine.is_well();
    match engine.decide(command) {
        Ok(decided) => {
            // Nor by these: they say what the lists are noted by.
            engine.is_held();
            engine.is_plain();
            lists.note(alloc, engine.known(), engine.forest(), &decided.events)?;
            Ok(decided)
        }
        Err(fault) => Err(fault),
    }
}

impl Office {
    /// An engine, and the lists of its state. An `Err` says that no memory was left.
    pub fn of(alloc: Global, engine: Engine) -> Result<Office, AllocError>
        ensures state { IfOk result (λ office. state_of office ≡ state_of engine) }
        ensures spent { IfOk result (λ office. office.spent ≡ engine.spent) }
    {
        // No work is done by these: they say what the lists are made of.
        engine.is_held();
        engine.is_plain();
        let (known, forest) = (engine.known(), engine.forest());
        let cases = cases_below(alloc, forest, engine.next())?;
        let lists = Lists::new(alloc, known, forest, cases.as_slice())?;
        let spent = engine.is_spent();
        Ok(Office {
            alloc,
            engine,
            lists,
            spent,
        })
    }

    /// An office in the opening state: nobody is known, and nothing stands. It takes no memory.
    pub fn opening(alloc: Global) -> Office
        ensures state { state_of result ≡ opening }
        ensures fresh { result.spent ≡ false }
    {
        let engine = Engine::opening(alloc);
        let lists = Lists::opening(alloc);
        Office {
            alloc,
            engine,
            lists,
            spent: false,
        }
    }

    /// Decides on a command, and does what it asks for, as `Engine::decide` does: the state is then that after the events that are answered. The
    /// lists are those of that state.
    ///
    /// `Refused` comes where the command breaks a rule, with the first one, and changes nothing. `Memory` comes only where no
    /// memory was left, for what is done or for the lists; what the office holds is then told no longer, and each later call answers `Spent`,
    /// which comes nowhere else.
    pub fn decide(&mut self, command: Command) -> Result<Decided, EngineFault>
        requires asked { CanBeAsked command }
        ensures legal { IfOk result (λ d.
            IsLegal reader (state_of self.old) command d.events d.quiet (state_of self.new)) }
        ensures built { IfOk result (λ d. list_all is_built d.events ≡ true) }
        ensures refused { IfRefused result (λ refusal.
            Breaks reader (state_of self.old) command (Some refusal) × (self.new ≡ self.old)) }
        ensures spent { TellsSpent result self.old self.new }
    {
        if self.spent {
            return Err(EngineFault::Spent);
        }
        match decide_noting(self.alloc, &mut self.engine, &mut self.lists, command) {
            Ok(decided) => Ok(decided),
            Err(EngineFault::Refused(refusal)) => Err(EngineFault::Refused(refusal)),
            Err(EngineFault::Memory) => {
                self.spent = true;
                Err(EngineFault::Memory)
            }
            Err(EngineFault::Spent) => unreachable!(),
        }
    }

    /// What a person may do, in order of identity, then of the task's name; `None` exactly where nobody has this name. An `Err` says that no
    /// memory was left, now or once before.
    pub fn rows(&self, who: &Name) -> Result<Option<WorkList>, AllocError>
        ensures { IfOk result (IsToldWork (state_of self.now) who.now) }
    {
        if self.is_spent() {
            return Err(AllocError);
        }
        self.lists.rows(self.alloc, who)
    }

    /// No memory was left once, and what the office holds is told no longer.
    pub fn is_spent(&self) -> bool
        ensures { result ≡ self.now.spent }
    {
        self.spent
    }

    /// The engine: its state is that of the office.
    pub fn engine(&self) -> &Engine
        ensures state { state_of result.now ≡ state_of self.now }
        ensures fresh { self.now.spent ≡ false → result.now.spent ≡ false }
    {
        &self.engine
    }
}
