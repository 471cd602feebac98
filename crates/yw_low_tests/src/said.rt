// How texts and values are printed.
use std::alloc::AllocError;
use std::fmt::Debug;
use yw_base::{Text, Val};

/// Texts and lists up to these are printed whole.
const MOST_BYTES: usize = 70;

const MOST_ELEMENTS: usize = 20;

const FIRST_CHARS: usize = 20;

fn add_start(out: &mut String, text: &str) -> Result<(), AllocError> {
    for letter in text.chars().take(FIRST_CHARS) {
        out.push(letter)?;
    }
    Ok(())
}

/// A text; of a long one the start and its length in bytes.
pub(crate) fn add_text(out: &mut String, text: &str) -> Result<(), AllocError> {
    let len = text.len();
    if len <= MOST_BYTES {
        return out.push_str(text);
    }
    add_start(out, text)?;
    write!(out, ".. of {len} bytes")
}

/// A text between quotes.
pub(crate) fn add_quoted(out: &mut String, text: &str) -> Result<(), AllocError> {
    out.push('\'')?;
    add_text(out, text)?;
    out.push('\'')
}

pub(crate) fn add_debug<T: Debug>(out: &mut String, value: &T) -> Result<(), AllocError> {
    write!(out, "{value:?}")
}

/// The numbers, each behind a blank.
fn add_ints(out: &mut String, ints: &[i64]) -> Result<(), AllocError> {
    for int in ints {
        write!(out, " {int}")?;
    }
    Ok(())
}

/// The texts, each behind a blank.
fn add_texts(out: &mut String, texts: &[Text]) -> Result<(), AllocError> {
    for text in texts {
        out.push(' ')?;
        add_quoted(out, text.as_str())?;
    }
    Ok(())
}

/// A value; of a long list how many elements it has.
pub(crate) fn add_value(out: &mut String, value: Val) -> Result<(), AllocError> {
    match value {
        Val::Bool(truth) => write!(out, "Bool {truth}"),
        Val::Int(int) => write!(out, "Int {int}"),
        Val::Text(text) => {
            out.push_str("Text ")?;
            add_quoted(out, text)
        }
        Val::Ints(ints) => add_int_list(out, ints),
        Val::Texts(texts) => add_text_list(out, texts),
    }
}

fn add_int_list(out: &mut String, ints: &[i64]) -> Result<(), AllocError> {
    let len = ints.len();
    if len > MOST_ELEMENTS {
        return write!(out, "Ints of {len}");
    }
    out.push_str("Ints")?;
    add_ints(out, ints)
}

fn add_text_list(out: &mut String, texts: &[Text]) -> Result<(), AllocError> {
    let len = texts.len();
    if len > MOST_ELEMENTS {
        return write!(out, "Texts of {len}");
    }
    out.push_str("Texts")?;
    add_texts(out, texts)
}
