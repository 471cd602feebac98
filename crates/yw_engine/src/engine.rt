// The engine: what it holds, and what it can be asked.
ghost use Rattle.std.specs.Prelude.{◌≡◌, true, false, IfOk, MatchOption, OnOk, Some};
ghost use Rattle.std.specs.List.{list_all};
ghost use Rattle.yw_engine.specs.Answers.{IfRefused, TellsSpent};
ghost use Rattle.yw_cases.specs.State.{MayStand, standing_of};
ghost use Rattle.yw_engine.specs.Held.{state_of};
ghost use Rattle.yw_library.specs.Held.{IsHeld};
ghost use Rattle.yw_built.specs.Asked.{CanBeAsked};
ghost use Rattle.yw_plain.specs.Plain.{IsPlain};
ghost use Rattle.yw_standing.specs.State as kept;
ghost use Rattle.yw_texts.specs.Texts.{reader};
ghost use Rattle.yw_state.specs.Automatic.{Comes, IsQuiet};
ghost use Rattle.yw_state.specs.Broken.{Breaks, placeless};
ghost use Rattle.yw_built.specs.Built.{is_built};
ghost use Rattle.yw_state.specs.Events.{Leads};
ghost use Rattle.yw_state.specs.Legal.{IsLegal};
ghost use Rattle.yw_state.specs.Map.{get};
ghost use Rattle.yw_state.specs.State.{State, opening};
ghost use Rattle.yw_state.specs.Well.{IsWell};
ghost use Rattle.yw_state.specs.declared.rule.Rule.TheVariants.{NotEnabled};

use crate::applying::apply_event;
use crate::decide::decide_on;
use crate::front::placeless;
use crate::work::Work;
use crate::{Decided, EngineFault};
use std::alloc::{AllocError, Global};
use std::marker::Model;
use yw_cases::Cases;
use yw_known::Known;
use yw_library::{Library, Parts};
use yw_state::{Command, Event, Rule, Way};
use yw_tree::Forest;

/// What the server holds of persons, specifications and cases. It decides on commands and does events. A contract sees these, how cases
/// ended, the number that is drawn next, and whether the engine is spent, since no memory was left; by `state_of` they stand for a state.
/// Unless it is spent, that state is well.
#[derive(Drop)]
pub struct Engine {
    work: Work,
    spent: bool,
}

impl Model for Engine {
    ghost use Rattle.std.specs.Prelude.{◌≡◌, false};
    ghost use Rattle.yw_cases.specs.State.{MayStand};
    ghost use Rattle.yw_engine.specs.Held.{Held};

    ghost Value = { Held };

    ghost use Rattle.std.specs.Coded.{codes};
    ghost use Rattle.yw_expr.specs.Tree.{tree_code};
    ghost use Rattle.yw_state.specs.contracts.loaded.Loaded as loaded;
    ghost use Rattle.yw_tree.specs.contracts.NetState as net;
    ghost use Rattle.yw_tree.specs.contracts.Run as run;

    ghost coded = { Prim.hlevel (codes, tree_code, loaded.the_row.coded, net.the_row.coded, run.the_row.coded) };

    ghost view = { λ e. record { standing = e.work.standing; spent = e.spent } };

    ghost invariant = { λ e. e.spent ≡ false → MayStand e.work.standing };
}

impl Engine {
    /// An engine of these parts, whose state is well, plain and without a worklet. An `Err` says that no memory was left.
    pub fn new(alloc: Global, parts: Parts) -> Result<Engine, AllocError>
        requires { MayStand (standing_of parts) }
        ensures state { IfOk result (λ engine. state_of engine ≡ kept.state_of (standing_of parts)) }
        ensures fresh { IfOk result (λ engine. engine.spent ≡ false) }
    {
        let standing = Cases::of(alloc, parts)?;
        standing.may_stand();
        Ok(Engine {
            work: Work { alloc, standing },
            spent: false,
        })
    }

    /// An engine that holds nothing, in the opening state. It takes no memory.
    pub fn opening(alloc: Global) -> Engine
        ensures state { state_of result ≡ opening }
        ensures fresh { result.spent ≡ false }
    {
        let standing = Cases::new(alloc);
        standing.may_stand();
        Engine {
            work: Work { alloc, standing },
            spent: false,
        }
    }

    /// Decides on a command, and does what it asks for: its own event, and after it what comes of itself. The state is then
    /// that after these events. Which events these are is told by `IsLegal`, whatever the command is.
    ///
    /// `Refused` comes where the command breaks a rule, with the first one, and changes nothing. `Memory` comes only where no
    /// memory was left; what the engine holds is then told no longer, and each later call answers `Spent`, which comes nowhere
    /// else. That one call goes from a command to its events is our own.
    pub fn decide(&mut self, command: Command) -> Result<Decided, EngineFault>
        requires asked { CanBeAsked command }
        ensures legal { IfOk result (λ d. IsLegal reader (state_of self.old) command d.events d.quiet (state_of self.new)) }
        ensures built { IfOk result (λ d. list_all is_built d.events ≡ true) }
        ensures refused { IfRefused result (λ refusal. Breaks reader (state_of self.old) command (Some refusal) × (self.new ≡ self.old)) }
        ensures spent { TellsSpent result self.old self.new }
    {
        if self.spent {
            return Err(EngineFault::Spent);
        }
        match decide_on(&mut self.work, command) {
            Ok(decided) => Ok(decided),
            Err(EngineFault::Refused(refusal)) => Err(EngineFault::Refused(refusal)),
            Err(EngineFault::Memory) => {
                self.spent = true;
                Err(EngineFault::Memory)
            }
            Err(EngineFault::Spent) => unreachable!(),
        }
    }

    /// Does one event, as the files tell it. The state is then that after it.
    ///
    /// `Refused` comes exactly where the event isn't allowed, so that it leads nowhere, unless memory runs out first. The rule is
    /// `NotEnabled`, without a place, and nothing changes. `Memory` and `Spent` come as they do from `decide`.
    pub fn apply(&mut self, event: Event) -> Result<(), EngineFault>
        requires built { is_built event ≡ true }
        ensures leads { OnOk result (Leads reader (state_of self.old) event (state_of self.new)) }
        ensures refused { IfRefused result (λ refusal. (refusal ≡ placeless NotEnabled)
            × ((t : State) → Leads reader (state_of self.old) event t → ⊥) × (self.new ≡ self.old)) }
        ensures spent { TellsSpent result self.old self.new }
    {
        if self.spent {
            return Err(EngineFault::Spent);
        }
        match apply_event(&mut self.work, event) {
            Ok(true) => Ok(()),
            Ok(false) => Err(EngineFault::Refused(placeless(self.work.alloc, Rule::NotEnabled))),
            Err(AllocError) => {
                self.spent = true;
                Err(EngineFault::Memory)
            }
        }
    }

    /// Unless the engine is spent, its state is well. A law: nothing is done.
    pub fn is_well(&self)
        ensures { self.now.spent ≡ false → IsWell reader (state_of self.now) }
    {
        let _ = &self.spent;
    }

    /// Unless the engine is spent, its state is that of what is known and of the cases that stand. A law: nothing is done.
    pub fn is_held(&self)
        ensures { self.now.spent ≡ false
            → IsHeld self.now.standing.known self.now.standing.forest (state_of self.now) }
    {
        let _ = &self.spent;
    }

    /// Unless the engine is spent, its state is plain: no tree has a rule, and no run and no check stands. A law: nothing is done.
    pub fn is_plain(&self)
        ensures { self.now.spent ≡ false → IsPlain (state_of self.now) }
    {
        let _ = &self.spent;
    }

    /// No memory was left once, and what the engine holds is told no longer.
    pub fn is_spent(&self) -> bool
        ensures { result ≡ self.now.spent }
    {
        self.spent
    }

    /// What is known beside cases: persons, specifications, and what is upstream in their nets.
    pub fn known(&self) -> &Known
        ensures { result.now ≡ self.now.standing.known }
    {
        self.work.standing.known()
    }

    /// The persons and the specifications that are loaded.
    pub fn library(&self) -> &Library
        ensures { result.now ≡ self.now.standing.known }
    {
        self.work.standing.known().library()
    }

    /// The cases that stand.
    pub fn forest(&self) -> &Forest
        ensures { result.now ≡ self.now.standing.forest }
    {
        self.work.standing.forest()
    }

    /// The next event that comes of itself in a case, or `None` exactly where the case is quiet, as it is where no case has the number. An `Err`
    /// says that no memory was left, now or once before. Nothing is done.
    pub fn next_auto(&self, case: u64) -> Result<Option<Event>, AllocError>
        ensures { IfOk result (λ found. MatchOption found (IsQuiet (state_of self.now) case) (Comes (state_of self.now) case)) }
    {
        if self.spent {
            return Err(AllocError);
        }
        match self.work.next_event(case)? {
            Some(found) => Ok(Some(found.event)),
            None => Ok(None),
        }
    }

    /// How the case of a number ended, or `None` where none of that number is over. It takes no memory.
    pub fn ended(&self, n: u64) -> Option<Way>
        ensures { result ≡ get (state_of self.now).ended n }
    {
        self.work.standing.ended(n)
    }

    /// The number that is drawn next: of a case, an item or a run. It is 1 to 2^48, unless the engine is spent.
    pub fn next(&self) -> u64
        ensures { result ≡ self.now.standing.next }
    {
        self.work.standing.next()
    }
}
