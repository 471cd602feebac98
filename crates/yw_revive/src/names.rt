// Persons and specifications, made of their rows.
ghost use Rattle.std.specs.Prelude.{◌≡◌, ◌↔◌, [], true, map, All, IfOk, IsTrue, OnOk};
ghost use Rattle.std.specs.List.{list_all};
ghost use Rattle.yw_library.specs.Holdings.{nothing};
ghost use Rattle.yw_revive.specs.Names.{IsLibraryOf, LoadsAll, LoadsTexts, TellsLoaded, are_roles_of, person_of, spec_before};
ghost use Rattle.yw_state.specs.Allowed.{are_roles};
ghost use Rattle.yw_states.specs.Ascending.{ascend};
ghost use Rattle.yw_states.specs.Rows.{person_before};

use std::alloc::{AllocError, Global};
use yw_base::{Name, NameList, Text};
use yw_library::{Library, LibraryFault};
use yw_state::Loaded;
use yw_states::{Ascending, PersonRow};

const MOST_ROLES: usize = 64;

// A person may have these roles: at most 64, and none twice.
fn are_roles(roles: &NameList) -> bool
    ensures { result ≡ are_roles roles.now }
{
    roles.len() <= MOST_ROLES && roles.are_distinct()
}

// Each person may have the roles of the row.
fn all_fit(rows: &[PersonRow]) -> bool
    ensures { result ≡ list_all are_roles_of rows.now }
{
    rows.iter().all(|row| are_roles(&row.roles))
}

// The persons of these rows come to a library without any. An `Err` says that no memory was left.
fn add_persons(library: &mut Library, rows: &[PersonRow]) -> Result<(), AllocError>
    requires nobody { library.old.persons ≡ [] }
    requires up { ascend person_before rows.now ≡ true }
    ensures { OnOk result (library.new ≡ record library.old { persons = map person_of rows.now }) }
{
    for row in rows {
        library.person(&row.name, &row.roles)?;
    }
    Ok(())
}

// Whether a text was loaded, or was none that could be.
fn is_loaded(found: Result<Name, LibraryFault>) -> Result<bool, AllocError>
    ensures { IfOk result (TellsLoaded found) }
{
    match found {
        Ok(_) => Ok(true),
        Err(LibraryFault::Refused(_)) => Ok(false),
        Err(LibraryFault::Memory) => Err(AllocError),
    }
}

// Loads these texts, in order, into a library without specifications. `false` says that one of them is none that
// could be loaded then. An `Err` says that no memory was left.
fn load_texts(library: &mut Library, texts: &[Text]) -> Result<bool, AllocError>
    requires none { library.old.specs ≡ [] }
    ensures { IfOk result (λ loaded. LoadsTexts library.old texts.now loaded library.new) }
{
    for text in texts {
        // No work is done here: it says that each specification is what its text says.
        let _ = library.specs();
        if !is_loaded(library.load(text.as_str()))? {
            return Ok(false);
        }
    }
    Ok(true)
}

// Each specification's name comes before that of the next.
fn do_ascend(specs: &[Loaded]) -> bool
    ensures { result ≡ ascend spec_before specs.now }
{
    let mut i = 1;
    while i < specs.len() {
        let before = &specs[i - 1];
        let after = &specs[i];
        if !before
            .spec
            .name
            .as_str()
            .cmp(after.spec.name.as_str())
            .is_lt()
        {
            return false;
        }
        i += 1;
    }
    true
}

// Loads these texts, in order, into a library without specifications. `false` says that they are no texts of a
// state: one of them is none that could be loaded then, or their names don't ascend. An `Err` says that no memory
// was left.
fn load_all(library: &mut Library, texts: &[Text]) -> Result<bool, AllocError>
    requires none { library.old.specs ≡ [] }
    ensures { IfOk result (λ loaded. LoadsAll library.old texts.now loaded library.new) }
{
    if !load_texts(library, texts)? {
        return Ok(false);
    }
    Ok(do_ascend(library.specs().as_slice()))
}

/// The persons and the specifications of which these are the rows and the texts. `None` comes exactly where they
/// are those of no state that is well: a person has more than 64 roles, or one twice; a text is none that may be
/// loaded; or the names of what they say don't ascend. An `Err` says that no memory was left.
pub fn read_library(
    alloc: Global,
    persons: &Ascending<PersonRow>,
    texts: &[Text],
) -> Result<Option<Library>, AllocError>
    ensures { IfOk result (IsLibraryOf persons.now texts.now) }
{
    let rows = persons.as_slice();
    if !all_fit(rows) {
        return Ok(None);
    }
    let mut library = Library::new(alloc);
    add_persons(&mut library, rows)?;
    if !load_all(&mut library, texts)? {
        return Ok(None);
    }
    Ok(Some(library))
}
