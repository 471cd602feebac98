// Persons, specifications, rule trees, and the upstream of each net.
ghost use Rattle.std.specs.Prelude.{◌≡◌, Option, None, Some, Ok, true, All, IfOk, OnOk, OnErr, MatchOption};
ghost use Rattle.yw_known.specs.Known.{IsKnownNet, net_numbered};
ghost use Rattle.yw_known.specs.Upstreams.{IsAllOrNothing};
ghost use Rattle.yw_library.specs.Accepts.{Answers, IfRefused};
ghost use Rattle.yw_library.specs.Always.{AlwaysBreaks, AlwaysLeads, IsTried};
ghost use Rattle.yw_library.specs.Holdings as kept;
ghost use Rattle.yw_library.specs.Holdings.{AddsSpec, AreNamed, IsKept, state_of, with_library, with_person};
ghost use Rattle.yw_texts.specs.Texts.{reader};
ghost use Rattle.yw_state.specs.Broken.{Breaks};
ghost use Rattle.yw_state.specs.Events.{after};
ghost use Rattle.yw_state.specs.Map.{get};
ghost use Rattle.yw_state.specs.State.{State, opening};
ghost use Rattle.yw_state.specs.Texts.{nothing};
ghost use Rattle.yw_state.specs.declared.command.Command.TheVariants as commands;
ghost use Rattle.yw_state.specs.declared.event.Event.TheVariants as events;
ghost use Rattle.yw_state.specs.declared.rule.Refusal.{Refusal};

use crate::upstreams::{UpstreamRows, keep_upstreams, rows_of};
use std::alloc::{AllocError, Global};
use std::marker::Model;
use yw_base::{Items, Name, NameList};
use yw_library::{Library, LibraryFault};
use yw_path::Upstream;
use yw_spec::{Net, Spec};

/// A net of a specification that is loaded, and what is upstream of its places.
#[derive(Drop)]
pub struct KnownNet<'a> {
    /// The specification.
    pub spec: &'a Spec,
    /// The net.
    pub net: &'a Net,
    /// The net's own upstream.
    pub up: &'a Upstream,
}

/// What is known beside cases: persons with their roles, the specifications that are loaded with their rule trees, and
/// for each of their nets what is upstream of its places, by which an OR-join waits. A contract sees what its library
/// holds. That upstreams are kept, and not computed at each question, is our own.
#[derive(Drop)]
pub struct Known {
    alloc: Global,
    library: Library,
    rows: UpstreamRows,
}

impl Model for Known {
    ghost use Rattle.yw_known.specs.Upstreams.{AreKnown};
    ghost use Rattle.yw_library.specs.Holdings.{Holdings};

    ghost Value = { Holdings };

    ghost use Rattle.std.specs.Coded.{codes};
    ghost use Rattle.yw_state.specs.contracts.loaded.Loaded as loaded;
    ghost use Rattle.yw_expr.specs.Tree.{tree_code};

    ghost coded = { Prim.hlevel (codes, loaded.the_row.coded, tree_code) };

    ghost view = { λ k. k.library };

    ghost invariant = { λ k. AreKnown k.library.specs k.rows };
}

impl Known {
    /// Nobody, no specification and no rule. It takes no memory.
    pub fn new(alloc: Global) -> Known
        ensures empty { result ≡ kept.nothing }
        ensures state { state_of result ≡ opening }
    {
        Known {
            alloc,
            library: Library::new(alloc),
            rows: Items::new(alloc),
        }
    }

    /// What a library holds. The upstreams of its nets are made here. An `Err` says that no memory was left.
    pub fn of(alloc: Global, library: Library) -> Result<Known, AllocError>
        ensures { IfOk result (λ known. known ≡ library) }
    {
        // No work is done here: it says that specifications are found under their names.
        library.are_named();
        let rows = rows_of(alloc, &library)?;
        Ok(Known {
            alloc,
            library,
            rows,
        })
    }

    /// The person has these roles from now on, and no others, as `Library::person` says. An `Err` says that no memory was left, and changes
    /// nothing.
    pub fn person(&mut self, name: &Name, roles: &NameList) -> Result<(), AllocError>
        ensures ok { OnOk result ((s : State)
            → with_library s self.new ≡ after (with_library s self.old) (events.Person name.now roles.now) nothing) }
        ensures place { OnOk result (self.new ≡ with_person self.old (record { name = name.now; roles = roles.now })) }
        ensures err { OnErr result (self.new ≡ self.old) }
    {
        self.library.person(name, roles)
    }

    /// Loads the specification that a TOML text says, and gives its name, as `Library::load` says: it stands behind all others.
    ///
    /// `Refused` comes exactly where the text breaks a rule, with the first, and changes nothing. `Memory` comes only where no memory was left:
    /// then all is as it was, or nothing is known any more, since the library can't give back what it has loaded.
    pub fn load(&mut self, text: &str) -> Result<Name, LibraryFault>
        ensures ok { IfOk result (λ name. AlwaysLeads self.old (events.Load name text.now) self.new) }
        ensures place { IfOk result (λ name. AddsSpec self.old self.new name text.now) }
        ensures refused { IfRefused result (λ refusal.
            AlwaysBreaks self.old (commands.Load text.now) (Some refusal) × (self.new ≡ self.old)) }

        // What is answered is the only answer that the definitions allow.
        ensures only { (s : State) (found : Option Refusal)
            → Breaks reader (with_library s self.old) (commands.Load text.now) found → Answers result found }
        ensures err { OnErr result (IsAllOrNothing self.old self.new) }
    {
        let name = self.library.load(text)?;
        keep_upstreams(self.alloc, &mut self.library, &mut self.rows)?;
        Ok(name)
    }

    /// Loads the specification that a text says under this name, as an event tells it and `Library::load_as` says: `true` where that leads on;
    /// `false` where it leads nowhere, and nothing has changed. An `Err` says that no memory was left: then all is as it was, or nothing is
    /// known any more.
    pub fn load_as(&mut self, name: &Name, text: &str) -> Result<bool, AllocError>
        ensures tried { IfOk result (λ leads. IsTried self.old (events.Load name.now text.now) leads self.new) }
        ensures place { result ≡ Ok true → AddsSpec self.old self.new name.now text.now }
        ensures err { OnErr result (IsAllOrNothing self.old self.new) }
    {
        let leads = self.library.load_as(name, text)?;
        if leads {
            keep_upstreams(self.alloc, &mut self.library, &mut self.rows)?;
        }
        Ok(leads)
    }

    /// The persons, the specifications and the rule trees.
    pub fn library(&self) -> &Library
        ensures { result.now ≡ self.now }
    {
        &self.library
    }

    /// The specification with this name and its number, or `None` where none of this name is loaded. It takes no memory.
    pub fn spec_named(&self, name: &Name) -> Option<(&Spec, usize)>
        ensures { MatchOption result (get (state_of self.now).specs name.now ≡ None)
            (λ found. IsKept self.now name.now found.0.now found.1) }
    {
        self.library.spec(name)
    }

    /// The net with this number of the specification with this number, or `None` where there is none. It takes no memory.
    pub fn net(&self, spec: usize, net: usize) -> Option<KnownNet<'_>>
        ensures { MatchOption result (net_numbered self.now spec net ≡ None) (IsKnownNet self.now spec net) }
    {
        let loaded = self.library.specs().get(spec)?;
        let row = self.rows.get(spec)?;
        let found = loaded.spec.nets.get(net)?;
        let up = row.get(net)?;
        Some(KnownNet {
            spec: &loaded.spec,
            net: found,
            up,
        })
    }

    /// Each specification is found under its name. A law: nothing is done.
    pub fn are_named(&self)
        ensures { AreNamed self.now }
    {
        let _ = &self.rows;
    }
}
