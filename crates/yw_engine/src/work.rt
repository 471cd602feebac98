// What is held between two events, and one event after another.
ghost use Rattle.std.specs.Prelude.{◌≡◌, IfOk, OnOk, false, true};
ghost use Rattle.yw_built.specs.Built.{is_built};
ghost use Rattle.yw_cases.specs.State.{MayStand};
ghost use Rattle.yw_cases.specs.Tried.{is_load, is_numbered};
ghost use Rattle.yw_engine.specs.Decides.{IsApplied};

use std::alloc::{AllocError, Global};
use yw_cases::Cases;
use yw_settle::Machine;
use yw_state::Event;
use yw_walk::{Computed, Found, is_quiet, next_event};

/// What events are done to. It is the machine that takes what comes of itself.
#[derive(Drop)]
pub struct Work {
    pub alloc: Global,
    pub standing: Cases,
}

impl Work {
    ghost use Rattle.std.specs.Prelude.{◌≡◌, ◌↔◌, IfOk, IsTrue, OnOk, false, true};
    ghost use Rattle.yw_built.specs.Built.{is_built};
    ghost use Rattle.yw_cases.specs.State.{MayStand};
    ghost use Rattle.yw_cases.specs.Tried.{IsNumbered, is_apart, is_numbered};
    ghost use Rattle.yw_engine.specs.Decides.{IsApplied, IsDone, IsNext, TellsRest};
    ghost use Rattle.yw_standing.specs.State.{state_of};
    ghost use Rattle.yw_standing.specs.Tried.{LeadsOn};
    ghost use Rattle.yw_state.specs.Automatic.{IsQuiet};
    ghost use Rattle.yw_walk.specs.Computed.{IsComputedOf};

    /// The next event that comes of itself in a case, by a walk over its boxes.
    fn walk(&self, case: u64) -> Result<Option<Found>, AllocError>
        requires { MayStand self.now.standing }
        ensures { IfOk result (IsNext self.now.standing case) }
    {
        let standing = &self.standing;
        let (known, forest) = (standing.known(), standing.forest());
        next_event(self.alloc, known, forest, case, standing.next())
    }

    /// The next event that comes of itself in a case, with what was computed of it, or `None` where the case is quiet. An `Err` says that no memory
    /// was left.
    pub fn next_event(&self, case: u64) -> Result<Option<Found>, AllocError>
        requires { MayStand self.now.standing }
        ensures { IfOk result (IsNext self.now.standing case) }
    {
        if self.standing.is_at_rest(case) {
            return Ok(None);
        }
        self.walk(case)
    }

    /// The same, by what events have set moving. What is held doesn't change.
    fn next_loose(&mut self, case: u64) -> Result<Option<Found>, AllocError>
        requires { MayStand self.old.standing }
        ensures found { IfOk result (IsNext self.old.standing case) }
        ensures same { self.new.standing ≡ self.old.standing }
    {
        self.standing.next_event(case)
    }

    /// The same, of a case that may not stand: of such a case nothing is kept.
    fn look_whole(&mut self, case: u64) -> Result<Option<Found>, AllocError>
        requires { MayStand self.old.standing }
        ensures found { IfOk result (IsNext self.old.standing case) }
        ensures same { self.new.standing ≡ self.old.standing }
    {
        if self.standing.forest().case(case).is_none() {
            return self.walk(case);
        }
        self.next_loose(case)
    }

    /// Whether a case is quiet, of which it isn't known yet: it is looked at, so that it is known from now on what comes of itself there. What is held
    /// doesn't change. An `Err` says that no memory was left.
    pub fn look(&mut self, case: u64) -> Result<bool, AllocError>
        requires { MayStand self.old.standing }
        ensures rest { IfOk result (TellsRest self.old.standing case) }
        ensures same { self.new.standing ≡ self.old.standing }
    {
        match self.look_whole(case)? {
            Some(_found) => Ok(false),
            None => Ok(true),
        }
    }

    /// Nothing comes of itself in a case. An `Err` says that no memory was left.
    fn is_case_quiet(&self, case: u64) -> Result<bool, AllocError>
        requires { MayStand self.now.standing }
        ensures { IfOk result (λ quiet. IsTrue quiet ↔ IsQuiet (state_of self.now.standing) case) }
    {
        let standing = &self.standing;
        let (known, forest) = (standing.known(), standing.forest());
        is_quiet(self.alloc, known, forest, case, standing.next())
    }

    /// Asks whether an event is allowed, and does it where it is: `true`, and what is held is then that after it; else `false`, and nothing has
    /// changed. An `Err` says that no memory was left; what is held then is told nowhere.
    fn apply(&mut self, event: &Event) -> Result<bool, AllocError>
        requires built { is_built event.now ≡ true }
        requires apart { is_apart event.now ≡ false }
        ensures applied { IfOk result (λ leads. IsApplied self.old.standing event.now leads self.new.standing) }
        ensures stands { OnOk result (MayStand self.new.standing) }
    {
        let Some(computed) = self.standing.may(event)? else {
            // No work is done here: this says that what is held may stand.
            self.standing.may_stand();
            return Ok(false);
        };
        self.take(event, computed)?;
        Ok(true)
    }

    /// The same of a launch and of an addition, by the number that is found.
    fn apply_numbered(&mut self, event: &Event) -> Result<bool, AllocError>
        requires { is_numbered event.now ≡ true }
        ensures applied { IfOk result (λ leads.
            IsApplied self.old.standing event.now leads self.new.standing) }
        ensures stands { OnOk result (MayStand self.new.standing) }
    {
        match self.standing.may_numbered(event) {
            Some(number) => {
                self.take_numbered(event, number)?;
                Ok(true)
            }
            None => {
                // No work is done here: this says that what is held may stand.
                self.standing.may_stand();
                Ok(false)
            }
        }
    }

    /// Does an event that is allowed, with what was computed of it. An `Err` says that no memory was left; what is held then is told nowhere.
    pub fn take(&mut self, event: &Event, computed: Computed) -> Result<(), AllocError>
        requires built { is_built event.now ≡ true }
        requires apart { is_apart event.now ≡ false }
        requires leads { LeadsOn self.old.standing event.now }
        requires computed { IsComputedOf (state_of self.old.standing) event.now computed }
        ensures { OnOk result (IsDone self.old.standing event.now self.new.standing) }
    {
        self.standing.act(event, computed)?;
        self.standing.may_stand();
        Ok(())
    }

    /// Does a launch or an addition that is allowed, by the number of its specification or of its task. An `Err` says that no memory was left; what is
    /// held then is told nowhere.
    pub fn take_numbered(&mut self, event: &Event, number: usize) -> Result<(), AllocError>
        requires leads { LeadsOn self.old.standing event.now }
        requires numbered { IsNumbered self.old.standing event.now number }
        ensures { OnOk result (IsDone self.old.standing event.now self.new.standing) }
    {
        self.standing.act_numbered(event, number)?;
        self.standing.may_stand();
        Ok(())
    }
}

/// A launch or an addition.
fn is_numbered(event: &Event) -> bool
    ensures { result ≡ is_numbered event.now }
{
    match event {
        Event::Launch { .. } | Event::Add { .. } => true,
        _ => false,
    }
}

/// Does an event where it is allowed, as `Work::apply` says; it isn't a load.
pub fn apply_owned(work: &mut Work, event: Event) -> Result<bool, AllocError>
    requires built { is_built event ≡ true }
    requires load { is_load event ≡ false }
    ensures applied { IfOk result (λ leads. IsApplied work.old.standing event leads work.new.standing) }
    ensures stands { OnOk result (MayStand work.new.standing) }
{
    if is_numbered(&event) {
        return work.apply_numbered(&event);
    }
    work.apply(&event)
}

impl Machine for Work {
    ghost use Rattle.yw_built.specs.Built.{is_built};
    ghost use Rattle.yw_cases.specs.State.{MayStand};
    ghost use Rattle.yw_standing.specs.State.{state_of};

    ghost state = { λ work. state_of work.standing };

    ghost is_ready = { λ work. MayStand work.standing };

    ghost passes = { is_built };

    fn step(&mut self, case: u64) -> Result<Option<Event>, AllocError> {
        let Some(found) = self.next_loose(case)? else {
            return Ok(None);
        };
        let Found { event, computed } = found;
        self.take(&event, computed)?;
        Ok(Some(event))
    }

    fn is_quiet(&self, case: u64) -> Result<bool, AllocError> {
        self.is_case_quiet(case)
    }
}
