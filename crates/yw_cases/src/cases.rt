// All that is kept, so that an event leads from one state that is well to another.
ghost use Rattle.std.specs.Prelude.{◌≡◌, IfOk, MatchOption, OnErr, OnOk, false, true};
ghost use Rattle.yw_library.specs.Ended.{ended_of};
ghost use Rattle.yw_cases.specs.Said.{TellsLoaded};
ghost use Rattle.yw_cases.specs.State.{MayStand, standing_of};
ghost use Rattle.yw_cases.specs.Tried.{IsNumbered, IsUnfit, TellsComputed, TellsNumbered};
ghost use Rattle.yw_cases.specs.Tried.{is_apart, is_numbered};
ghost use Rattle.yw_library.specs.Accepts.{IfRefused};
ghost use Rattle.yw_standing.specs.State.{state_of};
ghost use Rattle.yw_standing.specs.Tried.{LeadsOn};
ghost use Rattle.yw_texts.specs.Texts.{reader};
ghost use Rattle.yw_plain.specs.Plain.{keeps_plain};
ghost use Rattle.yw_state.specs.Automatic.{IsQuiet};
ghost use Rattle.yw_state.specs.Events.{Leads};
ghost use Rattle.yw_state.specs.Map.{get};
ghost use Rattle.yw_state.specs.State.{opening};
ghost use Rattle.yw_state.specs.declared.event.Event.TheVariants as events;
ghost use Rattle.yw_walk.specs.Computed.{IsComputedOf};
ghost use Rattle.yw_walk.specs.Finds.{IsFound};

use crate::event::{act, act_numbered, may, may_numbered};
use crate::library::{load, load_as};
use std::alloc::{AllocError, Global};
use std::marker::Model;
use yw_base::Name;
use yw_known::Known;
use yw_library::{EndedTable, FIRST_NUMBER, LibraryFault, Parts};
use yw_loose::Loose;
use yw_standing::Standing;
use yw_state::{Event, Way};
use yw_tree::Forest;
use yw_walk::{Computed, Found};

/// Persons, specifications, the cases that stand, how cases ended, and the number that is drawn next. A contract sees these; by `state_of` they
/// are a state, which is well. Beside them is kept where something may come of itself.
#[derive(Drop)]
pub struct Cases {
    alloc: Global,
    standing: Standing,
    loose: Loose,
}

impl Model for Cases {
    ghost use Rattle.yw_cases.specs.Rested.{StandsRested};
    ghost use Rattle.yw_standing.specs.declared.standing.Standing.{Standing};

    ghost Value = { Standing };

    ghost use Rattle.std.specs.Coded.{codes};
    ghost use Rattle.yw_expr.specs.Tree.{tree_code};
    ghost use Rattle.yw_state.specs.contracts.loaded.Loaded as loaded;
    ghost use Rattle.yw_tree.specs.contracts.NetState as net;
    ghost use Rattle.yw_tree.specs.contracts.Run as run;

    ghost coded = { Prim.hlevel (codes, tree_code, loaded.the_row.coded, net.the_row.coded, run.the_row.coded) };

    ghost view = { λ c. c.standing };

    ghost invariant = { λ c. StandsRested c.standing c.loose };
}

/// Nothing is kept: nobody, no specification and no case.
fn nothing(alloc: Global) -> Standing
    ensures state { state_of result ≡ opening }
    ensures stands { MayStand result }
{
    Standing {
        known: Known::new(alloc),
        forest: Forest::new(alloc),
        ended: EndedTable::new(alloc),
        next: FIRST_NUMBER,
    }
}

/// Nothing is kept any more.
fn forget(alloc: Global, standing: &mut Standing)
    ensures state { state_of standing.new ≡ opening }
    ensures stands { MayStand standing.new }
{
    *standing = nothing(alloc);
}

impl Cases {
    /// Nobody, no specification and no case. It takes no memory.
    pub fn new(alloc: Global) -> Cases
        ensures { state_of result ≡ opening }
    {
        Cases {
            alloc,
            standing: nothing(alloc),
            loose: Loose::new(alloc),
        }
    }

    /// What these parts hold, whose state is well, plain and without a worklet. Nothing is known of where something may come of itself. An `Err`
    /// says that no memory was left.
    pub fn of(alloc: Global, parts: Parts) -> Result<Cases, AllocError>
        requires { MayStand (standing_of parts) }
        ensures { IfOk result (λ cases. cases ≡ standing_of parts) }
    {
        let Parts {
            library,
            forest,
            next,
            ended,
        } = parts;
        Ok(Cases {
            alloc,
            standing: Standing {
                known: Known::of(alloc, library)?,
                forest,
                ended,
                next,
            },
            loose: Loose::new(alloc),
        })
    }

    /// What is computed of an event that is allowed, so that it leads on; `None` exactly where it leads nowhere. An `Err` says that no memory was
    /// left. Nothing changes. A load, a launch and an addition have calls of their own: `load_as`, `may_numbered` and `act_numbered`.
    ///
    /// What a command's rules have shown, and what comes of itself, is allowed; so only who does an event that something else tells needs to ask.
    /// That an event is done exactly where the definitions allow it is our own.
    pub fn may(&self, event: &Event) -> Result<Option<Computed>, AllocError>
        requires plain { keeps_plain event.now ≡ true }
        requires apart { is_apart event.now ≡ false }
        ensures { IfOk result (TellsComputed self.now event.now) }
    {
        may(self.alloc, &self.standing, event)
    }

    /// The same of a launch and of an addition: the number of its specification among those that are loaded, or of its task in the net; `None` exactly
    /// where the event leads nowhere. It takes no memory. Nothing changes.
    pub fn may_numbered(&self, event: &Event) -> Option<usize>
        requires { is_numbered event.now ≡ true }
        ensures { TellsNumbered self.now event.now result }
    {
        may_numbered(&self.standing, event)
    }

    /// Does an event that is allowed, with what was computed of it: the state is then that after it. Nothing is tested, nor computed anew. An
    /// `Err` says that no memory was left; then nothing is kept any more.
    pub fn act(&mut self, event: &Event, computed: Computed) -> Result<(), AllocError>
        requires plain { keeps_plain event.now ≡ true }
        requires apart { is_apart event.now ≡ false }
        requires leads { LeadsOn self.old event.now }
        requires computed { IsComputedOf (state_of self.old) event.now computed }
        ensures done { OnOk result (Leads reader (state_of self.old) event.now (state_of self.new)) }
        ensures err { OnErr result (state_of self.new ≡ opening) }
    {
        match act(self.alloc, &mut self.standing, event, computed) {
            Ok(()) => {
                self.loose.after(self.alloc, &self.standing.forest, event);
                Ok(())
            }
            Err(AllocError) => {
                forget(self.alloc, &mut self.standing);
                self.loose.forget();
                Err(AllocError)
            }
        }
    }

    /// The same of a launch and of an addition that is allowed, by the number of its specification or of its task: no name is looked up.
    pub fn act_numbered(&mut self, event: &Event, number: usize) -> Result<(), AllocError>
        requires leads { LeadsOn self.old event.now }
        requires numbered { IsNumbered self.old event.now number }
        ensures done { OnOk result (Leads reader (state_of self.old) event.now (state_of self.new)) }
        ensures err { OnErr result (state_of self.new ≡ opening) }
    {
        match act_numbered(self.alloc, &mut self.standing, event, number) {
            Ok(()) => {
                self.loose.after(self.alloc, &self.standing.forest, event);
                Ok(())
            }
            Err(AllocError) => {
                forget(self.alloc, &mut self.standing);
                self.loose.forget();
                Err(AllocError)
            }
        }
    }

    /// Loads the specification that a text says, and gives its name: the state is that after the event that loads it under this name.
    ///
    /// `Refused` comes exactly where the text breaks a rule, with the first, and changes nothing. `Memory` comes only where no memory was left;
    /// then nothing is kept any more.
    pub fn load(&mut self, text: &str) -> Result<Name, LibraryFault>
        ensures ok { IfOk result (λ name. Leads reader (state_of self.old) (events.Load name text.now) (state_of self.new)) }
        ensures refused { IfRefused result (λ refusal. IsUnfit self.old text.now refusal × (self.new ≡ self.old)) }
    {
        match load(&mut self.standing, text) {
            Ok(name) => Ok(name),
            Err(LibraryFault::Refused(refusal)) => Err(LibraryFault::Refused(refusal)),
            Err(LibraryFault::Memory) => {
                forget(self.alloc, &mut self.standing);
                self.loose.forget();
                Err(LibraryFault::Memory)
            }
        }
    }

    /// Loads the specification that a text says under this name, as an event tells it: `true` where that event leads on, and the state is then that
    /// after it; `false` where it leads nowhere, since the text can't be loaded or says another name, and nothing has changed. So the text is read once,
    /// where a question and then a deed would read it twice. An `Err` says that no memory was left; then nothing is kept any more.
    pub fn load_as(&mut self, name: &Name, text: &str) -> Result<bool, AllocError>
        ensures told { IfOk result (λ leads. TellsLoaded self.old name.now text.now leads self.new) }
        ensures err { OnErr result (state_of self.new ≡ opening) }
    {
        match load_as(&mut self.standing, name, text) {
            Ok(leads) => Ok(leads),
            Err(AllocError) => {
                forget(self.alloc, &mut self.standing);
                self.loose.forget();
                Err(AllocError)
            }
        }
    }

    /// The next event that comes of itself in a case, by what events have set moving, with what was computed of it: `None` exactly where the case
    /// is quiet, as it is where no case has this number. An `Err` says that no memory was left. Nothing changes.
    pub fn next_event(&mut self, n: u64) -> Result<Option<Found>, AllocError>
        ensures found { IfOk result (λ found. MatchOption found (IsQuiet (state_of self.old) n) (IsFound (state_of self.old) n)) }
        ensures same { self.new ≡ self.old }
    {
        let Standing {
            known,
            forest,
            next,
            ..
        } = &self.standing;
        self.loose.next_event(self.alloc, known, forest, n, *next)
    }

    /// It is known that a case is quiet; `false` says nothing. No case is looked at, and it takes no memory.
    pub fn is_at_rest(&self, n: u64) -> bool
        ensures { result ≡ true → IsQuiet (state_of self.now) n }
    {
        self.loose.is_at_rest(n)
    }

    /// The state is well, it is that of what is known and of the forest, and it is plain. A law: nothing is done.
    pub fn may_stand(&self)
        ensures { MayStand self.now }
    {
        let _ = &self.standing;
    }

    /// The persons and the specifications.
    pub fn known(&self) -> &Known
        ensures { result.now ≡ self.now.known }
    {
        &self.standing.known
    }

    /// The cases that stand.
    pub fn forest(&self) -> &Forest
        ensures { result.now ≡ self.now.forest }
    {
        &self.standing.forest
    }

    /// How the case of a number ended, or `None` where none of that number is over. It takes no memory.
    pub fn ended(&self, n: u64) -> Option<Way>
        ensures { result ≡ get (ended_of self.now.ended) n }
    {
        self.standing.ended.get(n)
    }

    /// The number that is drawn next: of a case, an item or a run. It is 1 to 2^48.
    pub fn next(&self) -> u64
        ensures { result ≡ self.now.next }
    {
        self.standing.next
    }
}
