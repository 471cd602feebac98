// Rows and values.
use crate::said::add_value;
use std::alloc::{AllocError, Global};
use yw_base::{Items, Row, Sort, Value};

const SORTS: [Sort; 5] = [Sort::Bool, Sort::Int, Sort::Text, Sort::Ints, Sort::Texts];

fn row_of(alloc: Global, text: &str) -> Result<Row, AllocError> {
    let mut row: Row = Items::new(alloc);
    for word in text.split(' ') {
        row.push(Value::Int(word.parse::<i64>().unwrap_or(0)))?;
    }
    Ok(row)
}

/// `7 8`: a row of these numbers, with `true` put in the place of the second; two places and the one behind them.
pub(crate) fn row(alloc: Global, text: &str, out: &mut String) -> Result<(), AllocError> {
    let mut row = row_of(alloc, text)?;
    if row.len() > 1 {
        row.set(1, Value::Bool(true));
    }
    for place in 0..3 {
        match row.get(place) {
            None => out.push_str("none")?,
            Some(value) => add_value(out, value.lend())?,
        }
        out.push_str("; ")?;
    }
    write!(out, "{} values", row.len())
}

/// The sorts that a value has, and those that it fits.
fn add_sorts(value: &Value, out: &mut String) -> Result<(), AllocError> {
    for sort in &SORTS {
        if value.has_sort(*sort) {
            write!(out, ", has {sort:?}")?;
        }
        if value.fits(*sort) {
            write!(out, ", fits {sort:?}")?;
        }
    }
    Ok(())
}

/// A copy of the value, the sorts that it has and fits, whether it is within the limits, and what it means where texts are wanted.
pub(crate) fn add_copy(alloc: Global, value: &Value, out: &mut String) -> Result<(), AllocError> {
    let copy = value.copy(alloc)?;
    add_value(out, copy.lend())?;
    add_sorts(&copy, out)?;
    if copy.is_small() {
        out.push_str(", small")?;
    }
    let meant = copy.meant(alloc, Sort::Texts);
    write!(out, "; where texts are wanted of {:?}", meant.sort())
}
