// Identities and names.
use crate::said::add_debug;
use std::alloc::{AllocError, Global};
use yw_base::{Ident, Name};
use yw_documents::{number_at, word_at};

/// Behind the last number of an identity.
const NUMBER_END: u64 = 1 << 48;

fn add_ident(alloc: Global, ident: &Ident, out: &mut String) -> Result<(), AllocError> {
    out.push_str(ident.print(alloc)?.as_str())
}

/// `7.2`: the identity that is read there, printed again.
pub(crate) fn read(alloc: Global, text: &str, out: &mut String) -> Result<(), AllocError> {
    match Ident::read(alloc, text) {
        Ok(ident) => add_ident(alloc, &ident, out),
        Err(fault) => add_debug(out, &fault),
    }
}

fn numbers_of(alloc: Global, text: &str) -> Result<Vec<u64>, AllocError> {
    let mut numbers = Vec::new(alloc);
    for word in text.split(' ') {
        if let Ok(number) = word.parse::<u64>() {
            numbers.push(number)?;
        }
    }
    Ok(numbers)
}

/// `7 2`: the identity of these numbers.
pub(crate) fn made(alloc: Global, text: &str, out: &mut String) -> Result<(), AllocError> {
    match Ident::from_numbers(numbers_of(alloc, text)?) {
        Some(ident) => add_ident(alloc, &ident, out),
        None => out.push_str("none"),
    }
}

/// `12 3`: a copy of the identity of the second number under that of the first.
pub(crate) fn child(alloc: Global, text: &str, out: &mut String) -> Result<(), AllocError> {
    let case = number_at(text, 0) as u64;
    let item = number_at(text, 1) as u64;
    if 0 < case && case < NUMBER_END && 0 < item && item < NUMBER_END {
        let item = Ident::of_number(alloc, case)?.child(alloc, item)?;
        let copy = item.copy(alloc)?;
        return add_ident(alloc, &copy, out);
    }
    out.push('?')
}

fn add_order(one: &Ident, two: &Ident, out: &mut String) -> Result<(), AllocError> {
    let order = one.cmp(two);
    let is_same = one == two;
    let is_before = one < two;
    let is_under = one.is_under(two);
    write!(
        out,
        "{order:?}, same {is_same}, before {is_before}, under {is_under}"
    )
}

/// `12.3 12`: how the first identity stands to the second, and whether it is under it.
pub(crate) fn compared(alloc: Global, text: &str, out: &mut String) -> Result<(), AllocError> {
    let one = Ident::read(alloc, word_at(text, 0));
    let two = Ident::read(alloc, word_at(text, 1));
    match (one, two) {
        (Ok(one), Ok(two)) => add_order(&one, &two, out),
        _ => out.push('?'),
    }
}

/// The name that is read there.
pub(crate) fn named(alloc: Global, text: &str, out: &mut String) -> Result<(), AllocError> {
    match Name::read(alloc, text) {
        Ok(name) => out.push_str(name.as_str()),
        Err(fault) => add_debug(out, &fault),
    }
}
