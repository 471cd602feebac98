// The names of the specifications that are loaded.
ghost use Rattle.std.specs.Prelude.{◌≡◌, IfOk};
ghost use Rattle.yw_library.specs.Holdings.{with_library};
ghost use Rattle.yw_state.specs.Answers.{spec_names};
ghost use Rattle.yw_state.specs.State.{State};
ghost use Rattle.yw_worklist.specs.Names.{AreNames};

use std::alloc::{AllocError, Global};
use std::collections::BTreeMap;
use yw_base::{Items, Name, NameList};
use yw_library::Library;
use yw_state::Loaded;

/// Names by their bytes, in order.
type ByBytes<'a> = BTreeMap<&'a str, &'a Name>;

/// The names of specifications, in byte order.
fn ordered_names(alloc: Global, specs: &[Loaded]) -> Result<ByBytes<'_>, AllocError>
    ensures { IfOk result (λ names. AreNames specs.now names.entries) }
{
    let mut names = BTreeMap::new(alloc);
    for loaded in specs {
        let name = &loaded.spec.name;
        names.insert(name.as_str(), name)?;
    }
    Ok(names)
}

/// The names of the specifications that are loaded, in byte order. An `Err` says that no memory was left.
pub fn spec_names(alloc: Global, library: &Library) -> Result<NameList, AllocError>
    ensures { IfOk result (λ names. (s : State) → s ≡ with_library s library.now → names ≡ spec_names s) }
{
    let mut names = Items::new(alloc);
    for (_, name) in &ordered_names(alloc, library.specs().as_slice())? {
        names.push(name.copy()?)?;
    }
    Ok(names)
}
