// What is found by its name.
ghost use Rattle.std.specs.Prelude.{◌≡◌, find, map};
ghost use Rattle.std.specs.Option.{option_copied};
ghost use Rattle.std.specs.Str.{bytes_eq};
ghost use Rattle.yw_accept.specs.Facts.{AreDistinct};
ghost use Rattle.yw_accept.specs.Index.{IsIndexOf};

use yw_accept::{Index, Named, number_of};

/// What has the name in a list with this index, or `None` where nothing has. It takes no memory.
pub fn find_named<'a, T: Named>(index: &Index, items: &'a [T], name: &str) -> Option<&'a T>
    requires index { IsIndexOf (map T.name_of items.now) index.now }
    requires distinct { AreDistinct (map T.name_of items.now) }
    ensures { option_copied result ≡ find (λ x. bytes_eq (T.name_of x) name.now) items.now }
{
    let number = number_of(index, name)?;
    items.get(number)
}
