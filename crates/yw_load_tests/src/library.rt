// What no clause says, and no line of the program can show: that what is loaded is found by its number, with its text, and that of a library
// with specifications all that is known can be made.
use std::alloc::{AllocError, Global};
use yw_base::{Name, NameFault};
use yw_documents::{deep, remind, seq};
use yw_known::Known;
use yw_library::{Library, LibraryFault};

fn three_specs(alloc: Global) -> Result<Library, LibraryFault> {
    let mut library = Library::new(alloc);
    library.load(seq())?;
    library.load(deep())?;
    library.load(remind())?;
    Ok(library)
}

fn name(alloc: Global, text: &str) -> Result<Name, AllocError> {
    match Name::read(alloc, text) {
        Ok(name) => Ok(name),
        Err(NameFault::Shape) => Err(AllocError),
        Err(NameFault::Memory) => Err(AllocError),
    }
}

/// The specification of this name has this number.
fn is_numbered(library: &Library, name: &Name, number: usize) -> bool {
    match library.spec(name) {
        Some((spec, found)) => found == number && spec.name.as_str() == name.as_str(),
        None => false,
    }
}

/// At this number the specification of this name is kept, with its text.
fn is_kept(library: &Library, number: usize, name: &str, text: &str) -> bool {
    match library.specs().get(number) {
        Some(kept) => kept.spec.name.as_str() == name && kept.text.as_str() == text,
        None => false,
    }
}

fn spec_stands(alloc: Global, library: &Library, number: usize, text: &str) -> bool {
    match name(alloc, text) {
        Ok(name) => is_numbered(library, &name, number),
        Err(AllocError) => false,
    }
}

fn is_unknown(alloc: Global, library: &Library, text: &str) -> bool {
    match name(alloc, text) {
        Ok(name) => library.spec(&name).is_none() && library.roles(&name).is_none(),
        Err(AllocError) => false,
    }
}

fn specs_stand(alloc: Global, library: &Library) -> bool {
    spec_stands(alloc, library, 0, "seq")
        && spec_stands(alloc, library, 1, "deep")
        && spec_stands(alloc, library, 2, "remind")
        && is_kept(library, 0, "seq", seq())
        && is_kept(library, 2, "remind", remind())
        && is_unknown(alloc, library, "loan")
}

fn three_specs_are_known(alloc: Global) -> bool {
    let Ok(library) = three_specs(alloc) else {
        return false;
    };
    match Known::of(alloc, library) {
        Ok(known) => specs_stand(alloc, known.library()),
        Err(AllocError) => false,
    }
}

#[test]
fn what_a_library_holds_is_known(rt: HostRuntime) {
    assert!(rt; three_specs_are_known(rt.alloc()));
}
