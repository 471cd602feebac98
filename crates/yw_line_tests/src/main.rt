//! Says what the calls of yw_wire, yw_codec and yw_states make of lines and bytes: what no clause says. Each line is a case, a word and a text, and is printed
//! again with what comes of it behind an arrow. A line of `#` is a heading, which says what its cases show.
#![tactic(auto)]

mod asked;
mod bytes;
mod entries;
mod replies;
mod shown;
mod states;

use std::alloc::{AllocError, Global};
use std::io;
use yw_documents::unfolded;

/// Adds what comes of a case.
fn add(alloc: Global, word: &str, text: &str, out: &mut String) -> Result<(), AllocError> {
    match word {
        "line" => asked::of_all(alloc, text.as_bytes(), out),
        "hex" => asked::of_bytes(alloc, text, out),
        "few" => asked::of_two(alloc, text.as_bytes(), out),
        "none" => asked::of_none(alloc, text.as_bytes(), out),
        "event" => entries::event(alloc, text, out),
        "entry" => entries::entry(alloc, text, out),
        "rows" => states::rows(alloc, text, out),
        "none_done" => replies::none_done(alloc, out),
        "refused" => replies::refused(alloc, text, out),
        "value" => replies::value(alloc, text, out),
        _ => out.push('?'),
    }
}

/// An arrow and what comes of a line. A heading has nothing.
fn answer(alloc: Global, line: &str) -> Result<String, AllocError> {
    let mut out = String::new(alloc);
    let (word, text) = line.split_once(' ').unwrap_or((line, ""));
    if word.is_empty() || word == "#" {
        return Ok(out);
    }
    out.push_str(" => ")?;
    let text = unfolded(alloc, text)?;
    add(alloc, word, text.as_str(), &mut out)?;
    Ok(out)
}

fn main(rt: HostRuntime) -> io::Result<()> {
    for line in rt.lines(rt.alloc()) {
        let line = line?;
        let answer = answer(rt.alloc(), line.as_str())?;
        println!(rt; "{line}{answer}")?;
    }
    Ok(())
}
