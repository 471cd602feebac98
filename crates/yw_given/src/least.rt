// The least of names.
ghost use Rattle.std.specs.Prelude.{◌≡◌, Some};
ghost use Rattle.std.specs.Option.{option_copied};
ghost use Rattle.yw_base.specs.Order.{lesser};

use std::cmp::Ordering;

fn lesser_of<'a>(name: &'a str, other: &'a str) -> &'a str
    ensures { result.now ≡ lesser name.now (Some other.now) }
{
    match name.cmp(&other) {
        Ordering::Greater => other,
        Ordering::Less | Ordering::Equal => name,
    }
}

/// The lesser of a name and another in byte order, where there is another. It takes no memory.
pub fn lesser<'a>(name: &'a str, other: Option<&'a str>) -> &'a str
    ensures { result.now ≡ lesser name.now (option_copied other.entry) }
{
    match other {
        Some(other) => lesser_of(name, other),
        None => name,
    }
}
