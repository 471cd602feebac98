// What has values by number: a row, two rows behind one another, a row with some values in the place of its own.
ghost use Rattle.std.specs.Prelude.{◌≡◌, ◌++◌, List, fold, slice_get};
ghost use Rattle.std.specs.Option.{option_copied};
ghost use Rattle.yw_base.specs.declared.value.Value.{Value};
ghost use Rattle.yw_expr.specs.Rows.{put_in};

use yw_base::{Row, Value};

/// What has values by number. What an expression is worth over it is what it is worth over the row of all of them.
pub trait Values {
    ghost use Rattle.std.specs.Prelude.{◌≡◌, slice_get, List};
    ghost use Rattle.std.specs.Option.{option_copied};
    ghost use Rattle.yw_base.specs.declared.value.Value.{Value};

    /// All of them.
    ghost values: { Self → List Value };

    /// One of them, by its number. It takes no memory.
    fn get(&self, k: usize) -> Option<&Value>
        ensures { option_copied result ≡ slice_get (values self.now) k };
}

impl Values for Row {
    ghost values = { λ row. row };

    fn get(&self, k: usize) -> Option<&Value> {
        self.as_slice().get(k)
    }
}

/// Two rows, the second behind the first.
#[derive(Drop)]
pub struct Joined<'a> {
    /// The first.
    pub first: &'a [Value],
    /// What stands behind it.
    pub then: &'a [Value],
}

impl<'a> Values for Joined<'a> {
    ghost use Rattle.std.specs.Prelude.{◌++◌};

    ghost values = { λ row. row.first.now ++ row.then.now };

    fn get(&self, k: usize) -> Option<&Value> {
        let own = self.first.len();
        if k < own {
            self.first.get(k)
        } else {
            self.then.get(k - own)
        }
    }
}

/// A value in the place of the one with a number.
#[derive(Drop)]
pub struct Put {
    /// The number.
    pub at: usize,
    /// The value.
    pub value: Value,
}

/// A row in which some values stand in the place of its own, a later one before an earlier. One past the end is nowhere.
#[derive(Drop)]
pub struct Changed<'a> {
    /// The row.
    pub base: &'a [Value],
    /// What stands in the place of what, in turn.
    pub puts: &'a [Put],
}

/// The value with number `k`, where it was this one before this is put.
fn once_put<'a>(found: Option<&'a Value>, put: &'a Put, k: usize) -> Option<&'a Value>
    ensures { (row : List Value) → option_copied found.entry ≡ slice_get row k → option_copied result ≡ slice_get (put_in row put.now) k }
{
    if put.at == k && found.is_some() {
        Some(&put.value)
    } else {
        found
    }
}

/// The value with this number, once these are put.
fn found<'a>(base: &'a [Value], puts: &'a [Put], k: usize) -> Option<&'a Value>
    ensures { option_copied result ≡ slice_get (fold put_in base.now puts.now) k }
{
    let mut found = base.get(k);
    for put in puts {
        found = once_put(found, put, k);
    }
    found
}

impl<'a> Values for Changed<'a> {
    ghost use Rattle.std.specs.Prelude.{fold};
    ghost use Rattle.yw_expr.specs.Rows.{put_in};

    ghost values = { λ row. fold put_in row.base.now row.puts.now };

    fn get(&self, k: usize) -> Option<&Value> {
        found(self.base, self.puts, k)
    }
}
