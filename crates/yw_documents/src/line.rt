// What stands in a line for a text that a line can't hold, or that is too long for one.
use std::alloc::{AllocError, Global};

/// Signs of a line, and what they mean.
const SIGNS: [(&str, &str); 6] = [
    ("\\n", "\n"),
    ("\\r", "\r"),
    ("\\t", "\t"),
    ("\\0", "\u{0}"),
    ("\\s", " "),
    ("\\-", ""),
];

fn with_signs(alloc: Global, text: &str) -> Result<String, AllocError> {
    let mut meant = String::from_str(alloc, text)?;
    for (sign, meaning) in &SIGNS {
        meant = meant.replace(alloc, sign, meaning)?;
    }
    Ok(meant)
}

/// A text, so often.
fn push_times(out: &mut String, text: &str, count: u32) -> Result<(), AllocError> {
    for _ in 0..count {
        out.push_str(text)?;
    }
    Ok(())
}

/// What a repetition means, a number and the text behind it.
fn push_repeated(out: &mut String, repeated: &str) -> Result<(), AllocError> {
    match repeated.split_once(' ') {
        None => out.push('?'),
        Some((count, text)) => push_times(out, text, count.parse::<u32>().unwrap_or(0)),
    }
}

/// A repetition and what stands behind its end.
fn push_piece(out: &mut String, piece: &str) -> Result<(), AllocError> {
    match piece.split_once('»') {
        None => out.push_str(piece),
        Some((repeated, behind)) => {
            push_repeated(out, repeated)?;
            out.push_str(behind)
        }
    }
}

/// A text with its repetitions written out: `«64 ab»` stands for `ab` 64 times. An `Err` says that no memory was left.
pub fn unfolded(alloc: Global, text: &str) -> Result<String, AllocError> {
    let mut out = String::new(alloc);
    for piece in text.split('«') {
        push_piece(&mut out, piece)?;
    }
    Ok(out)
}

/// The same, where a backslash with `n`, `r`, `t`, `0`, `s` or `-` stands for a newline, a return, a tab, a zero byte, a blank or nothing. An `Err` says
/// that no memory was left.
pub fn spelled(alloc: Global, text: &str) -> Result<String, AllocError> {
    let signs = with_signs(alloc, text)?;
    unfolded(alloc, signs.as_str())
}

/// The word at a place, counted from 0; an empty one past the last.
pub fn word_at(text: &str, place: usize) -> &str {
    for (k, word) in text.split(' ').enumerate() {
        if k == place {
            return word;
        }
    }
    ""
}

/// The number that is the word at a place; 0 where there is none.
pub fn number_at(text: &str, place: usize) -> usize {
    word_at(text, place).parse::<usize>().unwrap_or(0)
}
