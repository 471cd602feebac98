// Texts by their numbers.
ghost use Rattle.std.specs.Prelude.{◌≡◌, ℕ, List, true, Some, IsSome, IfOk, map, slice_get};
ghost use Rattle.yw_accept.specs.Index.{IsIndexOf};
ghost use Rattle.yw_accept.specs.Nodes.{is_name_among};

use crate::named::Named;
use std::alloc::{AllocError, Global};
use std::collections::BTreeMap;

/// Texts by their numbers in a list. A text is found in time that grows with the logarithm of the list's
/// length, whatever the texts are.
#[derive(Drop)]
pub struct Index {
    numbers: BTreeMap<String, usize>,
}

impl Index {
    ghost use Rattle.std.specs.Prelude.{◌≡◌, ℕ, List, [], ◌∷◌, ◌++◌, length, OnOk, string_bytes};
    ghost use Rattle.std.specs.BTreeMap.{get_by_text};
    ghost use Rattle.yw_accept.specs.Index.{IsIndexOf};

    /// The index of no text. It takes no memory.
    pub fn new(alloc: Global) -> Index
        ensures { IsIndexOf [] result }
    {
        Index {
            numbers: BTreeMap::new(alloc),
        }
    }

    /// Adds the text that stands behind the others, under its number, which is how many there were. Of two equal
    /// texts the later number is found. An `Err` says that no memory was left.
    pub fn add(&mut self, text: String, number: usize) -> Result<(), AllocError>
        ensures { OnOk result ((texts : List (List ℕ)) → IsIndexOf texts self.old → number ≡ length texts → IsIndexOf (texts ++ string_bytes text ∷ []) self.new) }
    {
        self.numbers.insert(text, number)?;
        Ok(())
    }

    fn find(&self, text: &str) -> Option<usize>
        ensures { result ≡ get_by_text self.now.numbers text.now }
    {
        self.numbers.get(text).copied()
    }
}

/// The index of the names of a list. An `Err` says that no memory was left.
pub fn index_of<T: Named>(alloc: Global, items: &[T]) -> Result<Index, AllocError>
    ensures { IfOk result (IsIndexOf (map T.name_of items.now)) }
{
    let mut index = Index::new(alloc);
    for (number, item) in items.iter().enumerate() {
        index.add(String::from_str(alloc, item.name().as_str())?, number)?;
    }
    Ok(index)
}

/// The number of a text of the list, or `None` where it isn't among them. It takes no memory.
pub fn number_of(index: &Index, text: &str) -> Option<usize>
    ensures found { (texts : List (List ℕ)) → IsIndexOf texts index.now → (k : ℕ) → result ≡ Some k → slice_get texts k ≡ Some text.now }
    ensures missed { (texts : List (List ℕ)) → IsIndexOf texts index.now → is_name_among texts text.now ≡ true → IsSome result }
{
    index.find(text)
}

/// The text is one of the list. It takes no memory.
pub fn has(index: &Index, text: &str) -> bool
    ensures { (texts : List (List ℕ)) → IsIndexOf texts index.now → result ≡ is_name_among texts text.now }
{
    index.find(text).is_some()
}
