// Persons and texts in order of their names.
ghost use Rattle.std.specs.Prelude.{◌≡◌, ◌++◌, map, option_map, IfOk, OnOk};
ghost use Rattle.std.specs.Option.{option_copied};
ghost use Rattle.yw_library.specs.Holdings.{state_of, with_library};
ghost use Rattle.yw_restore.specs.Lines.{row_of_person, text_of_line};
ghost use Rattle.yw_restore.specs.Names.{AreNames, row_if_person, text_in, text_if_loaded};
ghost use Rattle.yw_state.specs.Map.{entries, get};
ghost use Rattle.yw_state.specs.State.{State};
ghost use Rattle.yw_states.specs.States.{person_row, text_row};

use crate::lines::{PersonLine, TextLine};
use crate::named::Named;
use std::alloc::{AllocError, Global};
use std::collections::BTreeMap;
use yw_base::{Items, Name, Text};
use yw_library::Library;

// Names by their bytes, in order.
type ByBytes<'a> = BTreeMap<&'a str, &'a Name>;

// The names that some have, in byte order.
fn ordered_names<T: Named>(alloc: Global, things: &[T]) -> Result<ByBytes<'_>, AllocError>
    ensures { IfOk result (λ names. AreNames (map T.named things.now) names.entries) }
{
    let mut names = BTreeMap::new(alloc);
    for thing in things {
        let name = thing.name();
        names.insert(name.as_str(), name)?;
    }
    Ok(names)
}

// The person of a name.
fn push_person<'a>(
    library: &'a Library,
    name: &'a Name,
    lines: &mut Items<PersonLine<'a>>,
) -> Result<(), AllocError>
    ensures { OnOk result (map row_of_person lines.new
        ≡ map row_of_person lines.old
        ++ row_if_person name.now (get (state_of library.now).persons name.now)) }
{
    match library.roles(name) {
        Some(roles) => lines.push(PersonLine { name, roles }),
        None => Ok(()),
    }
}

/// The persons in order of their names. An `Err` says that no memory was left.
pub fn person_lines<'a>(
    alloc: Global,
    library: &'a Library,
) -> Result<Items<PersonLine<'a>>, AllocError>
    ensures { IfOk result (λ lines. (s : State) → s ≡ with_library s library.now
        → map row_of_person lines ≡ map person_row (entries s.persons)) }
{
    let mut lines = Items::new(alloc);
    for (_, name) in &ordered_names(alloc, library.persons().as_slice())? {
        push_person(library, *name, &mut lines)?;
    }
    Ok(lines)
}

// The text under a name.
fn text_under<'a>(library: &'a Library, name: &Name) -> Option<&'a Text>
    ensures { option_copied result
        ≡ option_map text_in (get (state_of library.now).specs name.now) }
{
    match library.spec(name) {
        Some((_, number)) => match library.specs().get(number) {
            Some(loaded) => Some(&loaded.text),
            None => None,
        },
        None => None,
    }
}

fn push_text<'a>(
    library: &'a Library,
    name: &Name,
    lines: &mut Items<TextLine<'a>>,
) -> Result<(), AllocError>
    ensures { OnOk result (map text_of_line lines.new
        ≡ map text_of_line lines.old
        ++ text_if_loaded name.now (get (state_of library.now).specs name.now)) }
{
    match text_under(library, name) {
        Some(text) => lines.push(TextLine { text }),
        None => Ok(()),
    }
}

/// The texts of the specifications in order of their names. An `Err` says that no memory was left.
pub fn text_lines<'a>(
    alloc: Global,
    library: &'a Library,
) -> Result<Items<TextLine<'a>>, AllocError>
    ensures { IfOk result (λ lines. (s : State) → s ≡ with_library s library.now
        → map text_of_line lines ≡ map text_row (entries s.specs)) }
{
    let mut lines = Items::new(alloc);
    for (_, name) in &ordered_names(alloc, library.specs().as_slice())? {
        push_text(library, name, &mut lines)?;
    }
    Ok(lines)
}
