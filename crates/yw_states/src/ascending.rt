// Lists of rows whose keys ascend, none twice: a map as bytes.
ghost use Rattle.std.specs.Prelude.{◌≡◌, true, SomeIff};
ghost use Rattle.yw_states.specs.Ascending.{ascend};

use std::alloc::{AllocError, Global};
use std::marker::Model;
use yw_base::{Ident, Items};
use yw_codec::{CodecFault, Field, Reader};

/// A row of a map, which has a key.
pub trait Keyed: Field {
    ghost use Rattle.std.specs.Prelude.{◌≡◌, Bool};

    /// The key comes before that of the other.
    ghost before: { Self → Self → Bool };

    /// Whether the key comes before that of the other. It takes no memory.
    fn comes_before(&self, other: &Self) -> bool
        ensures { result ≡ before self.now other.now };
}

/// An identity is its own key.
impl Keyed for Ident {
    ghost use Rattle.yw_states.specs.Ascending.{ident_before};

    ghost before = { ident_before };

    fn comes_before(&self, other: &Ident) -> bool {
        self.cmp(other).is_lt()
    }
}

// Each row comes before the next.
fn do_ascend<T: Keyed>(rows: &[T]) -> bool
    ensures { result ≡ ascend T.before rows.now }
{
    let mut i = 1;
    while i < rows.len() {
        if !rows[i - 1].comes_before(&rows[i]) {
            return false;
        }
        i += 1;
    }
    true
}

/// Rows whose keys ascend. A contract sees the list.
#[derive(Drop)]
pub struct Ascending<T: Keyed> {
    rows: Items<T>,
}

impl<T: Keyed> Model for Ascending<T> {
    ghost use Rattle.std.specs.Prelude.{◌≡◌, List, true};
    ghost use Rattle.yw_states.specs.Ascending.{ascend};

    ghost Value = { List T };

    ghost view = { λ a. a.rows };

    ghost invariant = { λ a. ascend T.before a.rows ≡ true };
}

impl<T: Keyed> Ascending<T> {
    /// These rows, or `None` exactly where their keys don't ascend. It takes no memory.
    pub fn of(rows: Items<T>) -> Option<Ascending<T>>
        ensures { SomeIff result (ascend T.before rows ≡ true) rows }
    {
        if do_ascend(rows.as_slice()) {
            Some(Ascending { rows })
        } else {
            None
        }
    }

    /// The rows in order.
    pub fn as_slice(&self) -> &[T]
        ensures rows { result.now ≡ self.now }
        ensures ascend { ascend T.before self.now ≡ true }
    {
        self.rows.as_slice()
    }

    /// The rows in order, which are moved. It takes no memory.
    pub fn into_rows(self) -> Items<T>
        ensures rows { result ≡ self }
        ensures ascend { ascend T.before result ≡ true }
    {
        self.rows
    }
}

impl<T: Keyed> Field for Ascending<T> {
    ghost use Rattle.yw_codec.specs.Fields.{list_bytes};
    ghost use Rattle.yw_states.specs.Ascending.{is_ascending, ascending_apart};

    ghost is_field = { is_ascending T.is_field T.before };

    ghost bytes = { list_bytes T.bytes };

    ghost apart = { ascending_apart T.is_field T.bytes T.before T.apart };

    fn read(alloc: Global, reader: &mut Reader<'_>) -> Result<Ascending<T>, CodecFault> {
        let rows = <Items<T> as Field>::read(alloc, reader)?;
        match Ascending::of(rows) {
            Some(rows) => Ok(rows),
            None => Err(CodecFault::Bad),
        }
    }

    fn write(&self, out: &mut Vec<u8>) -> Result<(), AllocError> {
        self.rows.write(out)
    }
}
