// All rows of a state.
ghost use Rattle.std.specs.Prelude.{◌≡◌, ◌++◌, true, IfOk, IfErr, OnOk};
ghost use Rattle.yw_states.specs.Rows.{is_rows, rows_bytes};
ghost use Rattle.yw_states.specs.Wholes.{IsWhole};
ghost use Rattle.yw_states.specs.declared.rows.Rows.{Rows};

use crate::ascending::Ascending;
use crate::cases::{DueRow, EndedRow, ItemRow, NetRow, RunRow, TokenRow};
use crate::kept::{PersonRow, TreeRow};
use std::alloc::{AllocError, Global};
use yw_base::{Ident, Items, Text};
use yw_codec::{CodecFault, Field, Reader};

/// All rows of a state: each of its maps, in order of its keys.
#[derive(Drop)]
pub struct Rows {
    /// The number that is drawn next.
    pub next: u64,
    /// By name.
    pub persons: Ascending<PersonRow>,
    /// The texts of the specifications that are loaded, by their names.
    pub texts: Items<Text>,
    /// By place.
    pub trees: Ascending<TreeRow>,
    pub nets: Ascending<NetRow>,
    /// By identity, and then in the order of the net's places.
    pub tokens: Items<TokenRow>,
    pub items: Ascending<ItemRow>,
    pub runs: Ascending<RunRow>,
    /// Where cases and items are suspended.
    pub suspended: Ascending<Ident>,
    pub due: Ascending<DueRow>,
    /// By number.
    pub ended: Ascending<EndedRow>,
}

type FromDue = (Ascending<DueRow>, Ascending<EndedRow>);

type FromRuns = (Ascending<RunRow>, (Ascending<Ident>, FromDue));

type FromNets = (
    Ascending<NetRow>,
    (Items<TokenRow>, (Ascending<ItemRow>, FromRuns)),
);

type FromNext = (
    u64,
    (
        Ascending<PersonRow>,
        (Items<Text>, (Ascending<TreeRow>, FromNets)),
    ),
);

impl Field for Rows {
    ghost use Rattle.yw_states.specs.RowLaws.{rows_apart};
    ghost use Rattle.yw_states.specs.Rows.{is_rows, rows_bytes};

    ghost is_field = { is_rows };

    ghost bytes = { rows_bytes };

    ghost apart = { rows_apart };

    fn read(alloc: Global, reader: &mut Reader<'_>) -> Result<Rows, CodecFault> {
        let (next, (persons, (texts, (trees, from_nets)))) = <FromNext>::read(alloc, reader)?;
        let (nets, (tokens, (items, (runs, (suspended, (due, ended)))))) = from_nets;
        Ok(Rows {
            next,
            persons,
            texts,
            trees,
            nets,
            tokens,
            items,
            runs,
            suspended,
            due,
            ended,
        })
    }

    fn write(&self, out: &mut Vec<u8>) -> Result<(), AllocError> {
        self.next.write(out)?;
        self.persons.write(out)?;
        self.texts.write(out)?;
        self.trees.write(out)?;
        self.nets.write(out)?;
        self.tokens.write(out)?;
        self.items.write(out)?;
        self.runs.write(out)?;
        self.suspended.write(out)?;
        self.due.write(out)?;
        self.ended.write(out)
    }
}

// All of the bytes are one field's.
fn read_whole<T: Field>(alloc: Global, bytes: &[u8]) -> Result<T, CodecFault>
    ensures ok { IfOk result (IsWhole T.is_field T.bytes bytes.now) }
    ensures bad { IfErr result (λ fault. fault ≡ CodecFault.Bad
        → (value : T) → IsWhole T.is_field T.bytes bytes.now value → ⊥) }
{
    let mut reader = Reader::new(bytes);
    let value = T::read(alloc, &mut reader)?;
    if reader.left() > 0 {
        return Err(CodecFault::Bad);
    }
    Ok(value)
}

/// Reads the rows whose bytes these are, all of them. `Bad` comes exactly where they are no rows' bytes: also where keys of a map don't
/// ascend, and where bytes are left. `Memory` comes only where no memory was left.
pub fn read_rows(alloc: Global, bytes: &[u8]) -> Result<Rows, CodecFault>
    ensures ok { IfOk result (IsWhole is_rows rows_bytes bytes.now) }
    ensures bad { IfErr result (λ fault. fault ≡ CodecFault.Bad
        → (rows : Rows) → IsWhole is_rows rows_bytes bytes.now rows → ⊥) }
{
    read_whole(alloc, bytes)
}

/// Writes rows after what stands in `out`. An `Err` says that no memory was left, that a length or a count doesn't fit its field, or that a
/// primitive is `Unknown`; what `out` has then is told nowhere.
pub fn write_rows(out: &mut Vec<u8>, rows: &Rows) -> Result<(), AllocError>
    ensures bytes { OnOk result (out.new.items ≡ out.old.items ++ rows_bytes rows.now) }
    ensures rows { OnOk result (is_rows rows.now ≡ true) }
{
    rows.write(out)
}
