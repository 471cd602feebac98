// Expressions over rows.
use crate::said::{add_debug, add_value};
use std::alloc::{AllocError, Global};
use yw_base::{Items, Row, Sort, Text, Val, Value};
use yw_expr::{Bindings, Expr, Scope, parse, sort_of, truth, view};

/// `b` a truth value, `n` a number, `t` a text, `ns` a list of numbers and `ts` one of texts.
const NAMES: [(&str, Sort); 5] = [
    ("b", Sort::Bool),
    ("n", Sort::Int),
    ("t", Sort::Text),
    ("ns", Sort::Ints),
    ("ts", Sort::Texts),
];

fn names(alloc: Global) -> Result<Bindings, AllocError> {
    let mut names = Bindings::new(alloc);
    for (name, sort) in &NAMES {
        let _added = names.add(name, *sort)?;
    }
    Ok(names)
}

/// `n` a text and `a` a number, to stand before the five names of `names`.
fn inner_names(alloc: Global) -> Result<Bindings, AllocError> {
    let mut inner = Bindings::new(alloc);
    let _added = inner.add("n", Sort::Text)?;
    let _added = inner.add("a", Sort::Int)?;
    Ok(inner)
}

fn text(alloc: Global, text: &str) -> Result<Value, AllocError> {
    Ok(Value::Text(Text::copy_of(alloc, text)?))
}

fn texts(alloc: Global) -> Result<Value, AllocError> {
    let mut texts = Items::new(alloc);
    texts.push(Text::copy_of(alloc, "x")?)?;
    texts.push(Text::copy_of(alloc, "yz")?)?;
    Ok(Value::Texts(texts))
}

/// true, 7, `ab`, 1 to 3, and `x` with `yz`.
fn push_row(alloc: Global, row: &mut Row) -> Result<(), AllocError> {
    row.push(Value::Bool(true))?;
    row.push(Value::Int(7))?;
    row.push(text(alloc, "ab")?)?;
    row.push(Value::Ints(Items::from_vec(vec![in alloc; 1, 2, 3]?)))?;
    row.push(texts(alloc)?)
}

/// `in` and 5.
fn push_inner(alloc: Global, row: &mut Row) -> Result<(), AllocError> {
    row.push(text(alloc, "in")?)?;
    row.push(Value::Int(5))
}

fn add_worth(value: Option<Val>, out: &mut String) -> Result<(), AllocError> {
    match value {
        None => out.push_str("undefined"),
        Some(value) => add_value(out, value),
    }
}

fn add_truth(truth: Option<bool>, out: &mut String) -> Result<(), AllocError> {
    match truth {
        None => out.push_str("undefined"),
        Some(truth) => write!(out, "Bool {truth}"),
    }
}

/// The sort of an expression and its value in the row.
fn add_result(e: &Expr, row: &Row, out: &mut String) -> Result<(), AllocError> {
    let sort = sort_of(e);
    write!(out, "{sort:?}: ")?;
    match sort {
        Sort::Bool => add_truth(truth(e, row), out),
        _ => add_worth(view(e, row), out),
    }
}

/// The sort and the value of an expression over the row of five names, or its fault.
pub(crate) fn computed(alloc: Global, text: &str, out: &mut String) -> Result<(), AllocError> {
    let names = names(alloc)?;
    let mut row = Items::new(alloc);
    push_row(alloc, &mut row)?;
    match parse(alloc, text, &Scope::of(&names)) {
        Err(fault) => add_debug(out, &fault),
        Ok(e) => add_result(&e, &row, out),
    }
}

/// The same, with two inner names before the five.
pub(crate) fn computed_nested(
    alloc: Global,
    text: &str,
    out: &mut String,
) -> Result<(), AllocError> {
    let inner = inner_names(alloc)?;
    let outer = names(alloc)?;
    let mut row = Items::new(alloc);
    push_inner(alloc, &mut row)?;
    push_row(alloc, &mut row)?;
    match parse(alloc, text, &Scope::nested(&inner, &outer)) {
        Err(fault) => add_debug(out, &fault),
        Ok(e) => add_result(&e, &row, out),
    }
}

/// The place of a name among the inner names and the five.
pub(crate) fn placed(alloc: Global, text: &str, out: &mut String) -> Result<(), AllocError> {
    let inner = inner_names(alloc)?;
    let outer = names(alloc)?;
    let scope = Scope::nested(&inner, &outer);
    match scope.place_of(text) {
        None => out.push_str("none"),
        Some(place) => write!(out, "{place}, {:?}", scope.sort_at(place)),
    }
}

/// A sort for a name: texts for those with a `t`.
fn sort_for(name: &str) -> Sort {
    if name.starts_with('t') {
        return Sort::Text;
    }
    Sort::Int
}

/// `n t n`: what comes of adding the names in this order: whether each is new, where it stands, and its sort.
pub(crate) fn added(alloc: Global, text: &str, out: &mut String) -> Result<(), AllocError> {
    let mut names = Bindings::new(alloc);
    write!(out, "empty {};", names.is_empty())?;
    for name in text.split(' ') {
        let is_new = names.add(name, sort_for(name))?;
        let place = names.place_of(name);
        write!(out, " {name} new {is_new} at {place:?};")?;
    }
    let sorts = (names.sort_at(0), names.sort_at(1), names.sort_at(2));
    write!(out, " {} names, {sorts:?}", names.len())
}

/// The names `x0`, `x1` and on, each new.
fn adds_numbered(alloc: Global, names: &mut Bindings, count: u32) -> Result<bool, AllocError> {
    for n in 0..count {
        let name = format!(in alloc; "x{n}")?;
        if !names.add(name.as_str(), Sort::Int)? {
            return Ok(false);
        }
    }
    Ok(true)
}

/// Each of the names is found at its place, five times.
fn finds_numbered(alloc: Global, scope: &Scope, count: u32) -> Result<bool, AllocError> {
    for n in 0..count.saturating_mul(5) {
        let number = n / 5;
        let name = format!(in alloc; "x{number}")?;
        if scope.place_of(name.as_str()) != Some(number as usize) {
            return Ok(false);
        }
    }
    Ok(true)
}

/// `20000`: so many names are added and found.
pub(crate) fn numbered(alloc: Global, text: &str, out: &mut String) -> Result<(), AllocError> {
    let count = text.parse::<u32>().unwrap_or(0);
    let mut names = Bindings::new(alloc);
    let are_new = adds_numbered(alloc, &mut names, count)?;
    let are_found = finds_numbered(alloc, &Scope::of(&names), count)?;
    write!(
        out,
        "{} names, new {are_new}, found {are_found}",
        names.len()
    )
}
