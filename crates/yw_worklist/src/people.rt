// Persons with their roles, by name.
ghost use Rattle.std.specs.List.{filter_map};
ghost use Rattle.std.specs.Prelude.{◌≡◌, ◌∷◌, [], ℕ, List, OnOk, None, Some, map, option_copied, option_to_list};
ghost use Rattle.yw_library.specs.Holdings.{person_name};
ghost use Rattle.yw_worklist.specs.People.{Asks, SetsRoles, person_of, roles_in};

use indexmap::IndexMap;
use std::alloc::{AllocError, Global};
use yw_base::{Name, NameList};
use yw_known::Known;
use yw_library::copy_of_names;
use yw_state::Event;

/// The roles of each person, by name. Our own: they are kept beside what is known, so that a person's work is told without that.
#[derive(Drop)]
pub(crate) struct People {
    pub(crate) map: IndexMap<Name, NameList>,
}

/// The person whose roles an event changes.
fn person_of(event: &Event) -> Option<&Name>
    ensures { option_copied result ≡ person_of event.now }
{
    match event {
        Event::Person { name, .. } => Some(name),
        _ => None,
    }
}

impl People {
    /// Nobody. It takes no memory.
    pub(crate) fn new(alloc: Global) -> People
        ensures { (who : List ℕ) → roles_in result who ≡ None }
    {
        People {
            map: IndexMap::new(alloc),
        }
    }

    /// The roles of the person with this name, or `None` where there is none. It takes no memory.
    pub(crate) fn roles(&self, who: &Name) -> Option<&NameList>
        ensures { option_copied result ≡ roles_in self.now who.now }
    {
        self.map.get(who)
    }

    fn put(&mut self, alloc: Global, name: &Name, roles: &NameList) -> Result<(), AllocError>
        ensures { OnOk result (SetsRoles self.old self.new name.now (Some roles.now)) }
    {
        let copy = copy_of_names(alloc, roles.as_slice())?;
        self.map.insert(name.copy()?, copy)?;
        Ok(())
    }

    fn forget(&mut self, name: &Name)
        ensures { SetsRoles self.old self.new name.now None }
    {
        self.map.swap_remove(name);
    }

    /// The person with this name is kept as it is known.
    fn ask(&mut self, alloc: Global, known: &Known, name: &Name) -> Result<(), AllocError>
        ensures { OnOk result (Asks known.now self.old self.new (name.now ∷ [])) }
    {
        match known.library().roles(name) {
            Some(roles) => self.put(alloc, name, roles),
            None => {
                self.forget(name);
                Ok(())
            }
        }
    }

    /// All persons are kept as they are known. An `Err` says that no memory was left.
    pub(crate) fn ask_all(&mut self, alloc: Global, known: &Known) -> Result<(), AllocError>
        ensures { OnOk result (Asks known.now self.old self.new
            (map person_name known.now.persons)) }
    {
        let persons = known.library().persons().as_slice();
        for person in persons {
            self.ask(alloc, known, &person.name)?;
        }
        Ok(())
    }

    fn ask_event(&mut self, alloc: Global, known: &Known, event: &Event) -> Result<(), AllocError>
        ensures { OnOk result (Asks known.now self.old self.new
            (option_to_list (person_of event.now))) }
    {
        match person_of(event) {
            Some(name) => self.ask(alloc, known, name),
            None => Ok(()),
        }
    }

    /// The persons whose roles events have changed are kept as they are known. An `Err` says that no memory was left.
    pub(crate) fn ask_events(
        &mut self,
        alloc: Global,
        known: &Known,
        events: &[Event],
    ) -> Result<(), AllocError>
        ensures { OnOk result (Asks known.now self.old self.new (filter_map person_of events.now)) }
    {
        for event in events {
            self.ask_event(alloc, known, event)?;
        }
        Ok(())
    }
}
