// Names that were seen, each found without going over the others.
ghost use Rattle.std.specs.Prelude.{◌≡◌, false, true, IfOk, MatchOption, OnOk, map, string_bytes};
ghost use Rattle.yw_accept.specs.Faults.{in_net};
ghost use Rattle.yw_accept.specs.Names.{AreNew, IsNew, is_usable};
ghost use Rattle.yw_check_names.specs.Seen.{Adds, AddsAll, Knows, Notes, Tries, TriesAll};
ghost use Rattle.yw_lex.specs.Spelling.{is_reserved};

use std::alloc::{AllocError, Global};
use std::collections::BTreeSet;
use yw_accept::{Broken, Named};
use yw_base::{Items, Name, NameFault, Text};

/// Names that were seen.
pub type NameSet = BTreeSet<String>;

/// One of the words of the expression language.
fn is_reserved(text: &str) -> bool
    ensures { result ≡ is_reserved text.now }
{
    text == "and"
        || text == "or"
        || text == "not"
        || text == "true"
        || text == "false"
        || text == "len"
        || text == "sum"
}

/// The text, if it is a name and no word of the expression language. An `Err` says that no memory was left.
fn usable(alloc: Global, text: &Text) -> Result<Option<String>, AllocError>
    ensures { IfOk result (λ name. MatchOption name (is_usable text.now ≡ false) (λ n. (string_bytes n ≡ text.now) × (is_usable text.now ≡ true))) }
{
    match Name::read(alloc, text.as_str()) {
        Err(NameFault::Shape) => Ok(None),
        Err(NameFault::Memory) => Err(AllocError),
        Ok(name) => {
            if is_reserved(name.as_str()) {
                return Ok(None);
            }
            Ok(Some(name.into_string()))
        }
    }
}

/// Adds a name, and answers whether it wasn't there. An `Err` says that no memory was left.
pub fn add(set: &mut NameSet, name: String) -> Result<bool, AllocError>
    ensures { IfOk result (Adds set.old set.new (string_bytes name)) }
{
    let added = set.insert(name)?;
    Ok(added)
}

/// Notes a name among those seen. It answers whether the name may be used and wasn't seen before. An `Err` says
/// that no memory was left.
fn note(alloc: Global, seen: &mut NameSet, name: &Text) -> Result<bool, AllocError>
    ensures { IfOk result (λ good. Notes seen.old seen.new name.now good) }
{
    match usable(alloc, name)? {
        None => Ok(false),
        Some(name) => add(seen, name),
    }
}

/// Tries a name that has to be usable and none of those seen, and sees it.
pub fn new_name(
    alloc: Global,
    net: &Text,
    seen: &mut NameSet,
    name: &Text,
) -> Result<Option<Broken>, AllocError>
    ensures { IfOk result (Tries Knows (IsNew (in_net 1 net.now)) seen.old seen.new name.now) }
{
    if note(alloc, seen, name)? {
        return Ok(None);
    }
    let broken = Broken::in_net(alloc, 1, net, name)?;
    Ok(Some(broken))
}

/// Tries names in turn, each of which has to be usable and none of those seen, and sees it.
pub fn new_names<T: Named>(
    alloc: Global,
    net: &Text,
    seen: &mut NameSet,
    items: &[T],
) -> Result<Option<Broken>, AllocError>
    ensures { IfOk result (TriesAll Knows (IsNew (in_net 1 net.now)) seen.old seen.new (map T.name_of items.now)) }
{
    for item in items {
        if let Some(broken) = new_name(alloc, net, seen, item.name())? {
            return Ok(Some(broken));
        }
    }
    Ok(None)
}

/// Tries names in turn, each of which has to be usable and none of those before it.
pub fn distinct_names<T: Named + Drop>(
    alloc: Global,
    net: &Text,
    items: &Items<T>,
) -> Result<Option<Broken>, AllocError>
    ensures { IfOk result (AreNew (in_net 1 net.now) (map T.name_of items.now)) }
{
    let mut seen = BTreeSet::new(alloc);
    let found = new_names(alloc, net, &mut seen, items.as_slice())?;
    Ok(found)
}

/// The text may stand as a name. An `Err` says that no memory was left.
pub fn is_usable(alloc: Global, text: &Text) -> Result<bool, AllocError>
    ensures { IfOk result (λ usable. usable ≡ is_usable text.now) }
{
    let name = usable(alloc, text)?;
    Ok(name.is_some())
}

/// Adds names, which may be any texts. An `Err` says that no memory was left.
pub fn add_all<T: Named>(alloc: Global, set: &mut NameSet, items: &[T]) -> Result<(), AllocError>
    ensures { OnOk result (AddsAll set.old set.new (map T.name_of items.now)) }
{
    for item in items {
        add(set, String::from_str(alloc, item.name().as_str())?)?;
    }
    Ok(())
}

/// The set of some names, which may be any texts. An `Err` says that no memory was left.
pub fn set_of<T: Named>(alloc: Global, items: &[T]) -> Result<NameSet, AllocError>
    ensures { IfOk result (λ set. Knows set (map T.name_of items.now)) }
{
    let mut set = BTreeSet::new(alloc);
    add_all(alloc, &mut set, items)?;
    Ok(set)
}
