// Rows that are written of what is lent.
ghost use Rattle.std.specs.Prelude.{◌≡◌, ◌++◌, List, ℕ, Bool, true, OnOk};
ghost use Rattle.std.specs.List.{flat_map, list_all};
ghost use Rattle.yw_codec.specs.Fields.{is_list, list_bytes};

use std::alloc::AllocError;
use yw_base::Items;
use yw_codec::Field;

/// A row that is written of what is lent, so that nothing is copied.
pub trait Line: Sized + Drop {
    /// It is in its range.
    ghost is_line: { Self → Bool };

    /// Its bytes.
    ghost bytes: { Self → List ℕ };

    /// Writes the row after what stands in `out`. An `Err` says that no memory was left, that a length or a count doesn't fit its field, or
    /// that the row has no bytes; what `out` has then is told nowhere.
    fn write(&self, out: &mut Vec<u8>) -> Result<(), AllocError>
        ensures bytes { OnOk result (out.new.items ≡ out.old.items ++ bytes self.now) }
        ensures range { OnOk result (is_line self.now ≡ true) };
}

// Lines, one after the other.
fn write_each<T: Line>(out: &mut Vec<u8>, lines: &[T]) -> Result<(), AllocError>
    ensures bytes { OnOk result (out.new.items ≡ out.old.items ++ flat_map T.bytes lines.now) }
    ensures range { OnOk result (list_all T.is_line lines.now ≡ true) }
{
    for line in lines {
        line.write(out)?;
    }
    Ok(())
}

/// Writes a count of four bytes and these lines after it. An `Err` is that of `Line::write`, or says that they are too many.
pub fn write_lines<T: Line>(out: &mut Vec<u8>, lines: &Items<T>) -> Result<(), AllocError>
    ensures bytes { OnOk result (out.new.items ≡ out.old.items ++ list_bytes T.bytes lines.now) }
    ensures range { OnOk result (is_list T.is_line lines.now ≡ true) }
{
    let Ok(count) = u32::try_from(lines.len()) else {
        return Err(AllocError);
    };
    count.write(out)?;
    write_each(out, lines.as_slice())
}
