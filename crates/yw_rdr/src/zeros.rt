// What stands for a value that there isn't.
ghost use Rattle.std.specs.Prelude.{◌≡◌, [], ◌∷◌};
ghost use Rattle.yw_base.specs.Values.{zero_of};
ghost use Rattle.yw_rdr.specs.Item.{zeros};

use std::alloc::Global;
use std::marker::Model;
use yw_base::{Items, Sort, Text, Value};

/// A value for each sort: false, 0, the empty text, the empty lists. A contract sees them in this order.
#[derive(Drop)]
pub struct Zeros {
    truth: Value,
    int: Value,
    text: Value,
    ints: Value,
    texts: Value,
}

impl Model for Zeros {
    ghost use Rattle.std.specs.Prelude.{List, ◌≡◌, [], ◌∷◌};
    ghost use Rattle.yw_base.specs.declared.value.Value as values;
    ghost use Rattle.yw_rdr.specs.Item.{zeros};

    ghost Value = { List values.Value };

    ghost view = { λ z. z.truth ∷ z.int ∷ z.text ∷ z.ints ∷ z.texts ∷ [] };

    ghost invariant = { λ z. z.truth ∷ z.int ∷ z.text ∷ z.ints ∷ z.texts ∷ [] ≡ zeros };
}

impl Zeros {
    /// One for each sort. It takes no memory.
    pub fn new(alloc: Global) -> Zeros
        ensures { result ≡ zeros }
    {
        Zeros {
            truth: Value::Bool(false),
            int: Value::Int(0),
            text: Value::Text(Text::new(alloc)),
            ints: Value::Ints(Items::new(alloc)),
            texts: Value::Texts(Items::new(alloc)),
        }
    }

    /// The one of a sort.
    pub fn of(&self, sort: Sort) -> &Value
        ensures { result.now ≡ zero_of sort }
    {
        match sort {
            Sort::Bool => &self.truth,
            Sort::Int => &self.int,
            Sort::Text => &self.text,
            Sort::Ints => &self.ints,
            Sort::Texts => &self.texts,
        }
    }
}
