// Names and the sorts of their values.
ghost use Rattle.std.specs.Prelude.{◌≡◌, ◌+◌, ◌<◌, ◌^◌, [], unwrap_or};
ghost use Rattle.std.specs.Option.{option_copied, option_map};
ghost use Rattle.yw_expr.specs.Scope.{place_in};

use std::alloc::{AllocError, Global};
use std::collections::BTreeMap;
use std::marker::Model;
use yw_base::{Sort, Text};

/// A name and the sort of its values.
#[derive(Debug, Drop)]
pub struct Binding {
    pub name: Text,
    pub sort: Sort,
}

/// One layer of names with the sorts of their values, in the order in which they were added. A contract sees
/// it as the list of its bindings. A name is added and found by a search tree beside the list, in time that
/// grows with the logarithm of the list's length, whatever the names are.
#[derive(Debug, Drop)]
pub struct Bindings {
    list: Vec<Binding>,
    places: BTreeMap<String, usize>,
}

impl Model for Bindings {
    ghost use Rattle.std.specs.Prelude.{◌≡◌, ℕ, List};
    ghost use Rattle.std.specs.BTreeMap.{get_by_text};
    ghost use Rattle.yw_expr.specs.declared.scope.Binding.{Binding};
    ghost use Rattle.yw_expr.specs.Scope.{place_in};

    ghost Value = { List Binding };

    ghost view = { λ b. b.list.items };

    ghost invariant = { λ b. (name : List ℕ) → get_by_text b.places name ≡ place_in b.list.items name };
}

impl Bindings {
    ghost use Rattle.std.specs.Prelude.{◌≡◌, ◌↔◌, ◌<◌, ◌^◌, [], ◌∷◌, ◌++◌, length, slice_get, Ok, true, false, None, IfOk, IfSome, OnErr, IsTrue, is_none};
    ghost use Rattle.std.specs.Option.{option_map};
    ghost use Rattle.yw_expr.specs.Scope.{binding, place_in};

    /// The layer without names. It takes no memory.
    pub fn new(alloc: Global) -> Bindings
        ensures { result ≡ [] }
    {
        Bindings {
            list: Vec::new(alloc),
            places: BTreeMap::new(alloc),
        }
    }

    /// How many names stand in it.
    pub fn len(&self) -> usize
        ensures len { result ≡ length self.now }
        ensures small { result < 2 ^ 63 }
    {
        self.list.len()
    }

    /// No name stands in it.
    pub fn is_empty(&self) -> bool
        ensures { IsTrue result ↔ (self.now ≡ []) }
    {
        self.list.is_empty()
    }

    /// Adds a name with the sort of its values behind the others. It is `true` where the name is new. Where
    /// it stands there already it is `false`, and nothing changes. A text that isn't written as a name may be
    /// added; no expression speaks of it. An `Err` says that no memory was left, and nothing changes.
    pub fn add(&mut self, name: &str, sort: Sort) -> Result<bool, AllocError>
        ensures new { IfOk result (λ added. added ≡ is_none (place_in self.old name.now)) }
        ensures added { result ≡ Ok true → self.new ≡ self.old ++ binding name.now sort ∷ [] }
        ensures known { result ≡ Ok false → self.new ≡ self.old }
        ensures err { OnErr result (self.new ≡ self.old) }
    {
        if self.places.contains_key(name) {
            return Ok(false);
        }
        let alloc = *self.list.allocator();
        let key = String::from_str(alloc, name)?;
        let name = Text::copy_of(alloc, name)?;
        self.list.reserve(1)?;
        self.places.insert(key, self.list.len())?;
        self.list.push(Binding { name, sort }).unwrap();
        Ok(true)
    }

    /// The place of a name, from 0, or `None` where it doesn't stand there. It takes no memory.
    pub fn place_of(&self, name: &str) -> Option<usize>
        ensures place { result ≡ place_in self.now name.now }
        ensures small { IfSome result (λ place. place < 2 ^ 63) }
    {
        self.places.get(name).copied()
    }

    /// The sort of the values at a place, or `None` past the end. It takes no memory.
    pub fn sort_at(&self, place: usize) -> Option<Sort>
        ensures { result ≡ option_map (λ b. b.sort) (slice_get self.now place) }
    {
        match self.list.get(place) {
            Some(binding) => Some(binding.sort),
            None => None,
        }
    }
}

/// The names that an expression may speak of, in the order of the values of a row: one layer, or an inner
/// layer before an outer one. Both are borrowed, so making a scope takes no memory. A contract sees it as the
/// bindings of the inner layer and then those of the outer one. Of two equal names the first one counts: a
/// name of the inner layer hides its like in the outer one, whose value keeps its place in the row.
#[derive(Debug, Drop)]
pub struct Scope<'a> {
    inner: &'a Bindings,
    outer: Option<&'a Bindings>,
}

impl<'a> Model for Scope<'a> {
    ghost use Rattle.std.specs.Prelude.{List, [], ◌++◌, unwrap_or};
    ghost use Rattle.std.specs.Option.{option_copied};
    ghost use Rattle.yw_expr.specs.declared.scope.Binding.{Binding};

    ghost Value = { List Binding };

    ghost view = { λ s. s.inner.now ++ unwrap_or (option_copied s.outer) [] };
}

/// The place of a name of the outer layer, where so many names stand in the inner one.
fn place_behind(inner_len: usize, outer: Option<&Bindings>, name: &str) -> Option<usize>
    requires { inner_len < 2 ^ 63 }
    ensures { let names = unwrap_or (option_copied outer.entry) [] in
        result ≡ option_map (λ place. inner_len + place) (place_in names name.now) }
{
    match outer?.place_of(name) {
        Some(place) => Some(inner_len + place),
        None => None,
    }
}

impl<'a> Scope<'a> {
    ghost use Rattle.std.specs.Prelude.{◌≡◌, ◌++◌, length, slice_get};
    ghost use Rattle.std.specs.Option.{option_map};
    ghost use Rattle.yw_expr.specs.Scope.{place_in};

    /// The names of one layer.
    pub fn of(bindings: &'a Bindings) -> Scope<'a>
        ensures { result ≡ bindings.now }
    {
        Scope {
            inner: bindings,
            outer: None,
        }
    }

    /// The names of an inner layer, and behind them those of an outer one.
    pub fn nested(inner: &'a Bindings, outer: &'a Bindings) -> Scope<'a>
        ensures { result ≡ inner.now ++ outer.now }
    {
        Scope {
            inner,
            outer: Some(outer),
        }
    }

    /// The place of a name, from 0, or `None` where it isn't in scope. It takes no memory.
    pub fn place_of(&self, name: &str) -> Option<usize>
        ensures { result ≡ place_in self.now name.now }
    {
        match self.inner.place_of(name) {
            Some(place) => Some(place),
            None => place_behind(self.inner.len(), self.outer, name),
        }
    }

    /// The sort of the values at a place, or `None` past the end. It takes no memory.
    pub fn sort_at(&self, place: usize) -> Option<Sort>
        ensures { result ≡ option_map (λ b. b.sort) (slice_get self.now place) }
    {
        let len = self.inner.len();
        if place < len {
            return self.inner.sort_at(place);
        }
        match self.outer {
            Some(outer) => outer.sort_at(place - len),
            None => None,
        }
    }
}
