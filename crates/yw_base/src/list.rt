// Values in order, which contracts see as a list.
ghost use Rattle.std.specs.Prelude.{◌≡◌, ◌↔◌, [], ◌∷◌, ◌++◌, List, ℕ, length, IfOk, OnOk, OnErr, IsTrue, slice_get, slice_set, ◌<◌};
ghost use Rattle.std.specs.Option.{option_copied};
ghost use Rattle.std.specs.List.{list_any};
ghost use Rattle.std.specs.Str.{bytes_eq};
ghost use Rattle.yw_base.specs.Spelling.{are_distinct};

use crate::Name;
use std::alloc::{AllocError, Global};
use std::marker::Model;

/// Values in order. A contract sees them as a list. Our own, over a `Vec`: a `Vec` shows contracts its
/// capacity, by which two equal lists would differ.
#[derive(Debug, Drop)]
pub struct Items<T: Drop> {
    items: Vec<T>,
}

/// Bytes in order.
pub type Bytes = Items<u8>;

/// Names in order.
pub type NameList = Items<Name>;

impl<T: Drop> Model for Items<T> {
    ghost use Rattle.std.specs.Prelude.{List};

    ghost Value = { List T };

    ghost view = { λ l. l.items.items };
}

impl<T: Drop> Items<T> {
    /// The empty list. It takes no memory.
    pub fn new(alloc: Global) -> Items<T>
        ensures { result ≡ [] }
    {
        Items {
            items: Vec::new(alloc),
        }
    }

    /// The values of a `Vec`. It takes no memory.
    pub fn from_vec(items: Vec<T>) -> Items<T>
        ensures { result ≡ items.items }
    {
        Items { items }
    }

    /// The `Vec` of these values. It takes no memory.
    pub fn into_vec(self) -> Vec<T>
        ensures { result.items ≡ self }
    {
        self.items
    }

    /// How many values stand in it.
    pub fn len(&self) -> usize
        ensures { result ≡ length self.now }
    {
        self.items.len()
    }

    /// No value stands in it.
    pub fn is_empty(&self) -> bool
        ensures { IsTrue result ↔ (self.now ≡ []) }
    {
        self.items.is_empty()
    }

    /// The values as a slice.
    pub fn as_slice(&self) -> &[T]
        ensures { result.now ≡ self.now }
    {
        &self.items
    }

    /// The value at a place, or `None` past the end. It takes no memory.
    pub fn get(&self, index: usize) -> Option<&T>
        ensures { option_copied result ≡ slice_get self.now index }
    {
        self.items.get(index)
    }

    /// Puts a value in the place of the one that stands there. It takes no memory.
    pub fn set(&mut self, index: usize, item: T)
        requires { index < length self.old }
        ensures { self.new ≡ slice_set self.old index item }
    {
        self.items[index] = item;
    }

    /// Adds a value at the end. An `Err` says that no memory was left, and changes nothing but that the
    /// value is gone.
    pub fn push(&mut self, item: T) -> Result<(), AllocError>
        ensures ok { OnOk result (self.new ≡ self.old ++ item ∷ []) }
        ensures err { OnErr result (self.new ≡ self.old) }
    {
        self.items.push(item)?;
        Ok(())
    }
}

fn has_text(names: &[Name], text: &str) -> bool
    ensures { result ≡ list_any (bytes_eq text.now) names.now }
{
    names.iter().any(|name| text == name.as_str())
}

impl Items<Name> {
    /// No name comes twice. It compares each two names, so it is for short lists.
    pub fn are_distinct(&self) -> bool
        ensures { result ≡ are_distinct self.now }
    {
        for i in 0..self.items.len() {
            if has_text(&self.items[i + 1..], self.items[i].as_str()) {
                return false;
            }
        }
        true
    }
}
