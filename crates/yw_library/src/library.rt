// Persons with their roles, the specifications that are loaded, and the rule trees of these.
ghost use Rattle.std.specs.Prelude.{◌≡◌, ◌<◌, List, ℕ, Option, Some, None, Ok, true, false, length, slice_get, slice_set, All, IfOk, OnOk, OnErr, MatchOption};
ghost use Rattle.std.specs.Option.{option_copied};
ghost use Rattle.yw_state.specs.declared.event.Event.TheVariants as events;
ghost use Rattle.yw_state.specs.declared.rule.Refusal.{Refusal};
ghost use Rattle.yw_state.specs.Broken.{Breaks};
ghost use Rattle.yw_state.specs.Events.{after};
ghost use Rattle.yw_state.specs.Map.{get, has_key};
ghost use Rattle.yw_state.specs.State.{State, opening};
ghost use Rattle.yw_state.specs.Texts.{nothing};
ghost use Rattle.yw_state.specs.declared.command.Command.TheVariants as commands;
ghost use Rattle.yw_texts.specs.Texts.{reader};
ghost use Rattle.yw_library.specs.Accepts.{Answers, IfRefused};
ghost use Rattle.yw_library.specs.Always.{AlwaysBreaks, AlwaysLeads, IsTried};
ghost use Rattle.yw_library.specs.Holdings as kept;
ghost use Rattle.yw_library.specs.Holdings.{AddsSpec, AreNamed, IsFresh, IsKept, SaysItsText, person_name, spec_name, state_of, with_library, with_person, with_spec};
ghost use Rattle.yw_library.specs.Adding.{IsGrown};
ghost use Rattle.yw_library.specs.Numbers.{IsNumberOf, NoneNamed};
ghost use Rattle.yw_rdr.specs.Attached.{Takes};
ghost use Rattle.yw_trees.specs.Grown.{rule_of};
ghost use Rattle.yw_trees.specs.Owners.{Owns, SpecsApart};
ghost use Rattle.yw_trees.specs.Placed.{AreOwned, links_for};

use crate::accepted::{accepted, placeless};
use crate::copies::copy_of_person;
use crate::numbers::Numbers;
use crate::{LibraryFault, Person, PersonList};
use std::alloc::{AllocError, Global};
use std::marker::Model;
use std::mem;
use yw_base::{Items, Name, NameList, Text};
use yw_spec::Spec;
use yw_state::{Loaded, LoadedList, Rule, TreePlace};
use yw_trees::{NewRule, Owner, Trees};

/// The persons with their roles, the specifications that are loaded, and their rule trees. Persons and specifications
/// are found by name without a scan, trees by numbers. A contract sees three lists, and by `state_of` the state that
/// the first two stand for.
#[derive(Drop)]
pub struct Library {
    alloc: Global,
    persons: PersonList,
    person_numbers: Numbers,
    specs: LoadedList,
    spec_numbers: Numbers,
    trees: Trees,
}

impl Model for Library {
    ghost use Rattle.yw_library.specs.Holdings.{Holdings, IsKeptRight};

    ghost Value = { Holdings };

    ghost use Rattle.std.specs.Coded.{codes};
    ghost use Rattle.yw_state.specs.contracts.loaded.Loaded as loaded;
    ghost use Rattle.yw_expr.specs.Tree.{tree_code};

    ghost coded = { Prim.hlevel (codes, loaded.the_row.coded, tree_code) };

    ghost view = { λ l. record { persons = l.persons; specs = l.specs; rules = l.trees } };

    ghost invariant = { λ l. IsKeptRight l.persons l.person_numbers l.specs l.spec_numbers l.trees };
}

/// The persons, with this one in place of the one with this number.
fn replaced(persons: PersonList, number: usize, person: Person) -> PersonList
    requires { number < length persons }
    ensures { result ≡ slice_set persons number person }
{
    let mut persons = persons.into_vec();
    persons[number] = person;
    Items::from_vec(persons)
}

impl Library {
    /// Nobody, no specification and no rule. It takes no memory.
    pub fn new(alloc: Global) -> Library
        ensures empty { result ≡ kept.nothing }
        ensures state { state_of result ≡ opening }
    {
        Library {
            alloc,
            persons: Items::new(alloc),
            person_numbers: Numbers::new(alloc),
            specs: Items::new(alloc),
            spec_numbers: Numbers::new(alloc),
            trees: Trees::new(alloc),
        }
    }

    /// The number of the person with this name. A name may have a number where memory ran out before its
    /// person came, so the name at the number is compared.
    fn person_number(&self, name: &str) -> Option<usize>
        ensures { IsNumberOf person_name self.now.persons name.now result }
    {
        let number = self.person_numbers.get(name)?;
        match self.persons.get(number) {
            Some(person) if person.name.as_str() == name => Some(number),
            _ => None,
        }
    }

    /// The number of the specification with this name, found as a person's is.
    fn spec_number(&self, name: &str) -> Option<usize>
        ensures { IsNumberOf spec_name self.now.specs name.now result }
    {
        let number = self.spec_numbers.get(name)?;
        match self.specs.get(number) {
            Some(loaded) if loaded.spec.name.as_str() == name => Some(number),
            _ => None,
        }
    }

    /// This person in the place of the one with this number, who has the same name. It takes no memory.
    fn replace(&mut self, number: usize, person: Person)
        requires { IsNumberOf person_name self.old.persons person.name (Some number) }
        ensures { self.new ≡ with_person self.old person }
    {
        let persons = mem::replace(&mut self.persons, Items::new(self.alloc));
        self.persons = replaced(persons, number, person);
    }

    /// A person whose name no one has, behind all others. An `Err` says that no memory was left, and changes
    /// nothing.
    fn add(&mut self, person: Person) -> Result<(), AllocError>
        requires { NoneNamed person_name self.old.persons person.name }
        ensures ok { OnOk result (self.new ≡ with_person self.old person) }
        ensures err { OnErr result (self.new ≡ self.old) }
    {
        let number = self.persons.len();
        self.person_numbers
            .put(self.alloc, person.name.as_str(), number)?;
        self.persons.push(person)?;
        Ok(())
    }

    /// The person with this number and this name has these roles from now on. Where they are those that stand there,
    /// nothing is copied. An `Err` says that no memory was left, and changes nothing.
    fn set_roles(&mut self, number: usize, name: &Name, roles: &NameList) -> Result<(), AllocError>
        requires { IsNumberOf person_name self.old.persons name.now (Some number) }
        ensures ok { OnOk result (self.new ≡ with_person self.old (record { name = name.now; roles = roles.now })) }
        ensures err { OnErr result (self.new ≡ self.old) }
    {
        let wanted = roles.as_slice();
        match self.persons.get(number) {
            Some(person) if person.roles.as_slice() == wanted => Ok(()),
            _ => {
                let person = copy_of_person(self.alloc, name, roles)?;
                self.replace(number, person);
                Ok(())
            }
        }
    }

    /// The person has these roles from now on, and no others. Who was there keeps the place among the persons, and who
    /// comes first stands behind all others. The roles aren't looked at: that they are at most 64, and none twice, is
    /// for the caller. It is so in each state with this library in it. A person who has these roles already takes no
    /// memory. An `Err` says that no memory was left, and changes nothing.
    pub fn person(&mut self, name: &Name, roles: &NameList) -> Result<(), AllocError>
        ensures ok { OnOk result ((s : State) → with_library s self.new ≡ after (with_library s self.old) (events.Person name.now roles.now) nothing) }
        ensures place { OnOk result (self.new ≡ with_person self.old (record { name = name.now; roles = roles.now })) }
        ensures err { OnErr result (self.new ≡ self.old) }
    {
        match self.person_number(name.as_str()) {
            Some(number) => self.set_roles(number, name, roles)?,
            None => self.add(copy_of_person(self.alloc, name, roles)?)?,
        }
        Ok(())
    }

    /// One specification more, behind all others. An `Err` says that no memory was left, and changes nothing.
    fn keep(&mut self, loaded: Loaded) -> Result<(), AllocError>
        requires accepted { SaysItsText loaded }
        requires new { NoneNamed spec_name self.old.specs loaded.spec.name }
        ensures ok { OnOk result (self.new ≡ with_spec self.old loaded) }
        ensures err { OnErr result (self.new ≡ self.old) }
    {
        let number = self.specs.len();
        self.spec_numbers
            .put(self.alloc, loaded.spec.name.as_str(), number)?;
        self.specs.push(loaded)?;
        Ok(())
    }

    /// Keeps the specification that a text says with a copy of the text. An `Err` says that no memory was left, and
    /// changes nothing.
    fn keep_fresh(&mut self, text: &str, spec: Spec) -> Result<(), AllocError>
        requires { IsFresh self.old text.now spec }
        ensures leads { OnOk result (AlwaysLeads self.old (events.Load spec.name text.now) self.new) }
        ensures place { OnOk result (AddsSpec self.old self.new spec.name text.now) }
        ensures err { OnErr result (self.new ≡ self.old) }
    {
        let text = Text::copy_of(self.alloc, text)?;
        self.keep(Loaded { text, spec })?;
        Ok(())
    }

    /// The specification that a text says, where one of its name isn't loaded. Else the first rule that the text
    /// breaks, as `load` says.
    fn fresh(&self, text: &str) -> Result<Spec, LibraryFault>
        ensures ok { IfOk result (IsFresh self.now text.now) }
        ensures refused { IfRefused result (λ refusal. AlwaysBreaks self.now (commands.Load text.now) (Some refusal)) }
    {
        let spec = accepted(self.alloc, text)?;
        match self.spec_number(spec.name.as_str()) {
            Some(_) => Err(LibraryFault::Refused(placeless(self.alloc, Rule::SpecExists))),
            None => Ok(spec),
        }
    }

    /// Loads the specification that a TOML text says, and gives its name. It stands after all others, so its
    /// number is how many were loaded before.
    ///
    /// `Refused` comes exactly where the text breaks a rule, with the first: `SpecText` where it is no TOML
    /// document; `SpecShape` where the document hasn't the shape of a specification, with the path of the first
    /// fault; `SpecCheck` where one of the twelve checks fails, with the first that does and what it names;
    /// `SpecExists` where one of its name is loaded. `Memory` comes only where no memory was left. An `Err` changes
    /// nothing. All this is so in each state with this library in it.
    /// The rules and their order are our own.
    pub fn load(&mut self, text: &str) -> Result<Name, LibraryFault>
        ensures ok { IfOk result (λ name. AlwaysLeads self.old (events.Load name text.now) self.new) }
        ensures place { IfOk result (λ name. AddsSpec self.old self.new name text.now) }
        ensures refused { IfRefused result (λ refusal. AlwaysBreaks self.old (commands.Load text.now) (Some refusal) × (self.new ≡ self.old)) }

        // What is answered is the only answer that the definitions allow.
        ensures only { (s : State) (found : Option Refusal) → Breaks reader (with_library s self.old) (commands.Load text.now) found → Answers result found }
        ensures err { OnErr result (self.new ≡ self.old) }
    {
        let spec = self.fresh(text)?;
        let name = spec.name.copy()?;
        self.keep_fresh(text, spec)?;
        Ok(name)
    }

    /// Loads the specification that a text says under this name, as an event tells it: `true` where that leads on, and
    /// the library is then that after it; `false` where it leads nowhere, since the text can't be loaded or says
    /// another name, and nothing has changed. It is so in each state with this library in it. An `Err` says that no
    /// memory was left, and changes nothing.
    pub fn load_as(&mut self, name: &Name, text: &str) -> Result<bool, AllocError>
        ensures tried { IfOk result (λ leads. IsTried self.old (events.Load name.now text.now) leads self.new) }
        ensures place { result ≡ Ok true → AddsSpec self.old self.new name.now text.now }
        ensures err { OnErr result (self.new ≡ self.old) }
    {
        let spec = match self.fresh(text) {
            Ok(spec) => spec,
            Err(LibraryFault::Refused(_)) => return Ok(false),
            Err(LibraryFault::Memory) => return Err(AllocError),
        };
        if spec.name.as_str() != name.as_str() {
            return Ok(false);
        }
        self.keep_fresh(text, spec)?;
        Ok(true)
    }

    /// The specification with this name and its number in `specs`, or `None` where none of this name is loaded.
    /// It takes no memory.
    pub fn spec(&self, name: &Name) -> Option<(&Spec, usize)>
        ensures { MatchOption result (get (state_of self.now).specs name.now ≡ None) (λ found. IsKept self.now name.now found.0.now found.1) }
    {
        let number = self.spec_number(name.as_str())?;
        match self.specs.get(number) {
            Some(loaded) => Some((&loaded.spec, number)),
            None => None,
        }
    }

    /// The roles of the person with this name, or `None` where there is none. It takes no memory.
    pub fn roles(&self, name: &Name) -> Option<&NameList>
        ensures { option_copied result ≡ get (state_of self.now).persons name.now }
    {
        let number = self.person_number(name.as_str())?;
        match self.persons.get(number) {
            Some(person) => Some(&person.roles),
            None => None,
        }
    }

    /// Each specification is found under its name. A law: nothing is done.
    pub fn are_named(&self)
        ensures { AreNamed self.now }
    {
        let _ = &self.specs;
    }

    /// No two specifications have one name. A law: nothing is done.
    pub fn are_apart(&self)
        ensures { SpecsApart self.now.specs }
    {
        let _ = &self.specs;
    }

    /// The rule trees that have a rule, each at a place of what has it.
    pub fn trees(&self) -> &Trees
        ensures same { result.now ≡ self.now.rules }
        ensures owned { AreOwned self.now.specs self.now.rules }
    {
        self.are_apart();
        &self.trees
    }

    /// Where memory is taken.
    pub(crate) fn alloc(&self) -> Global {
        self.alloc
    }

    /// One rule more in a tree, behind its others, and its number. A tree without a rule begins with it. An `Err` says
    /// that no memory was left, and changes nothing but that the rule's parts are gone.
    pub(crate) fn grow(
        &mut self,
        owner: Owner,
        place: &TreePlace,
        rule: NewRule,
    ) -> Result<u32, AllocError>
        requires owns { Owns self.old.specs owner place.now }
        requires takes { Takes (links_for owner place.now.kind self.old.rules) rule.at rule.side }
        ensures ok { IfOk result (IsGrown self.old self.new owner place.now (rule_of rule)) }
        ensures err { OnErr result (self.new ≡ self.old) }
    {
        self.trees.add(owner, place, rule)
    }

    /// The persons in the order in which they came first.
    pub fn persons(&self) -> &PersonList
        ensures { result.now ≡ self.now.persons }
    {
        &self.persons
    }

    /// The specifications in the order in which they were loaded, which is that of their numbers.
    pub fn specs(&self) -> &LoadedList
        ensures all { result.now ≡ self.now.specs }
        ensures accepted { All SaysItsText self.now.specs }
    {
        &self.specs
    }
}
