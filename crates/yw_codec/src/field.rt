// What a field is, fields one after the other, and lists of fields.
ghost use Rattle.std.specs.Prelude.{◌≡◌, ◌++◌, ◌∷◌, [], List, ℕ, Bool, true, IfOk, IfErr, OnOk, length, ◌<◌};
ghost use Rattle.std.specs.List.{flat_map, list_all};
ghost use Rattle.yw_codec.specs.Forms.{Stands, NoneStands, AreApart, are_counted};
ghost use Rattle.yw_codec.specs.Fields.{is_short_list, short_list_bytes};

use crate::reader::{CodecFault, Reader};
use std::alloc::{AllocError, Global};
use yw_base::Items;

/// A kind of field: what may stand in it, its bytes, and how it is read and written.
pub trait Field: Sized + Drop {
    /// The value may stand in it.
    ghost is_field: { Self → Bool };

    /// Its bytes.
    ghost bytes: { Self → List ℕ };

    /// The value whose bytes stand at the front. `Bad` comes exactly where none's do, unless memory runs out first, which is `Memory`.
    /// What the reader has after a fault is told nowhere.
    fn read(alloc: Global, reader: &mut Reader<'_>) -> Result<Self, CodecFault>
        ensures ok { IfOk result (λ value. Stands is_field bytes reader.old value reader.new) }
        ensures bad { IfErr result (λ fault. fault ≡ CodecFault.Bad → NoneStands is_field bytes reader.old) };

    /// Writes the value after what stands in `out`. An `Err` says that no memory was left, that a length or a count doesn't fit its field, or
    /// that the value has no bytes; what `out` has then is told nowhere.
    fn write(&self, out: &mut Vec<u8>) -> Result<(), AllocError>
        ensures bytes { OnOk result (out.new.items ≡ out.old.items ++ bytes self.now) }
        ensures range { OnOk result (is_field self.now ≡ true) };

    /// The bytes tell where they end.
    ghost apart: { AreApart is_field bytes };
}

impl<A: Field, B: Field> Field for (A, B) {
    ghost use Rattle.yw_codec.specs.Forms.{pair_is, pair_bytes};
    ghost use Rattle.yw_codec.specs.FieldLaws.{pair_apart};

    ghost is_field = { pair_is A.is_field B.is_field };

    ghost bytes = { pair_bytes A.bytes B.bytes };

    ghost apart = { pair_apart A.is_field A.bytes B.is_field B.bytes A.apart B.apart };

    fn read(alloc: Global, reader: &mut Reader<'_>) -> Result<(A, B), CodecFault> {
        let first = A::read(alloc, reader)?;
        let second = B::read(alloc, reader)?;
        Ok((first, second))
    }

    fn write(&self, out: &mut Vec<u8>) -> Result<(), AllocError> {
        self.0.write(out)?;
        self.1.write(out)
    }
}

// So many fields of a kind.
pub fn read_items<T: Field>(
    alloc: Global,
    reader: &mut Reader<'_>,
    count: u32,
) -> Result<Items<T>, CodecFault>
    ensures ok { IfOk result (λ items. Stands (are_counted T.is_field count) (flat_map T.bytes) reader.old items reader.new) }
    ensures bad { IfErr result (λ fault. fault ≡ CodecFault.Bad → NoneStands (are_counted T.is_field count) (flat_map T.bytes) reader.old) }
{
    let mut items = Items::new(alloc);
    for _i in 0..count {
        items.push(T::read(alloc, reader)?)?;
    }
    Ok(items)
}

// Fields of a kind, one after the other.
pub fn write_items<T: Field>(out: &mut Vec<u8>, items: &[T]) -> Result<(), AllocError>
    ensures bytes { OnOk result (out.new.items ≡ out.old.items ++ flat_map T.bytes items.now) }
    ensures range { OnOk result (list_all T.is_field items.now ≡ true) }
{
    for item in items {
        item.write(out)?;
    }
    Ok(())
}

impl<T: Field> Field for Items<T> {
    ghost use Rattle.yw_codec.specs.Fields.{is_list, list_bytes};
    ghost use Rattle.yw_codec.specs.ListLaws.{list_apart};

    ghost is_field = { is_list T.is_field };

    ghost bytes = { list_bytes T.bytes };

    ghost apart = { list_apart T.is_field T.bytes T.apart };

    fn read(alloc: Global, reader: &mut Reader<'_>) -> Result<Items<T>, CodecFault> {
        let count = u32::read(alloc, reader)?;
        read_items(alloc, reader, count)
    }

    fn write(&self, out: &mut Vec<u8>) -> Result<(), AllocError> {
        let Ok(count) = u32::try_from(self.len()) else {
            return Err(AllocError);
        };
        count.write(out)?;
        write_items(out, self.as_slice())
    }
}

/// So many fields of a kind as a count of one byte says, which stands before them. Faults are those of `Field::read`.
pub fn read_short_list<T: Field>(
    alloc: Global,
    reader: &mut Reader<'_>,
) -> Result<Items<T>, CodecFault>
    ensures ok { IfOk result (λ items. Stands (is_short_list T.is_field) (short_list_bytes T.bytes) reader.old items reader.new) }
    ensures bad { IfErr result (λ fault. fault ≡ CodecFault.Bad → NoneStands (is_short_list T.is_field) (short_list_bytes T.bytes) reader.old) }
{
    let count = reader.byte()?;
    read_items(alloc, reader, u32::from(count))
}

/// Writes fields of a kind, fewer than 256, after a count of one byte. An `Err` is that of `Field::write`.
pub fn write_short_list<T: Field>(out: &mut Vec<u8>, items: &[T]) -> Result<(), AllocError>
    requires { length items.now < 256 }
    ensures bytes { OnOk result (out.new.items ≡ out.old.items ++ short_list_bytes T.bytes items.now) }
    ensures range { OnOk result (list_all T.is_field items.now ≡ true) }
{
    out.push(items.len() as u8)?;
    write_items(out, items)
}
