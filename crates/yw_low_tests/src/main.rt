//! Says what the lower crates' public calls make of lines: what no clause says. Each line is a case, a word and a text, and is printed
//! again with what comes of it behind an arrow. A line of `#` is a heading, which says what its cases show.
#![tactic(auto)]

mod described;
mod document;
mod graph;
mod identity;
mod rows;
mod said;
mod signs;
mod tokens;
mod values;

use document::Document;
use std::alloc::{AllocError, Global};
use std::io;
use yw_documents::spelled;

/// Adds what comes of a case about a part of an expression, or of one.
fn add_expression(
    alloc: Global,
    word: &str,
    text: &str,
    out: &mut String,
) -> Result<(), AllocError> {
    match word {
        "lex" => tokens::lexed(alloc, text, out),
        "grammar" => signs::parsed(alloc, text, out),
        "expr" => rows::computed(alloc, text, out),
        "inner" => rows::computed_nested(alloc, text, out),
        "place" => rows::placed(alloc, text, out),
        "names" => rows::added(alloc, text, out),
        "numbered" => rows::numbered(alloc, text, out),
        _ => out.push('?'),
    }
}

/// Adds what comes of a case about identities, names, rows and graphs.
fn add_small(alloc: Global, word: &str, text: &str, out: &mut String) -> Result<(), AllocError> {
    match word {
        "ident" => identity::read(alloc, text, out),
        "numbers" => identity::made(alloc, text, out),
        "child" => identity::child(alloc, text, out),
        "compare" => identity::compared(alloc, text, out),
        "name" => identity::named(alloc, text, out),
        "row" => values::row(alloc, text, out),
        "reached" => graph::reached_from(alloc, text, out),
        "reaching" => graph::reaching_to(alloc, text, out),
        "off" => graph::off_path(alloc, text, out),
        "far" => graph::far_away(alloc, text, out),
        "cyclic" => graph::cyclic(alloc, text, out),
        "chain" => graph::long_chain(alloc, text, out),
        _ => add_expression(alloc, word, text, out),
    }
}

/// Adds what comes of a case, which may be one about the document that is kept.
fn add(
    alloc: Global,
    kept: &Document,
    word: &str,
    text: &str,
    out: &mut String,
) -> Result<(), AllocError> {
    match word {
        "read" => kept.described(alloc, out),
        "with" => kept.with(alloc, text, out),
        "toml" => document::read(alloc, text, out),
        "value" => document::value(alloc, text, out),
        _ => add_small(alloc, word, text, out),
    }
}

/// What a line begins or adds to the document that is kept, or an arrow and what comes of it. A heading has nothing.
fn answer(alloc: Global, kept: &mut Document, line: &str) -> Result<String, AllocError> {
    let mut out = String::new(alloc);
    let Some((word, text)) = line.split_once(' ') else {
        return Ok(out);
    };
    match word {
        "#" => (),
        "new" => *kept = Document::new(alloc),
        "doc" => kept.push(alloc, text)?,
        _ => {
            out.push_str(" => ")?;
            let text = spelled(alloc, text)?;
            add(alloc, kept, word, text.as_str(), &mut out)?;
        }
    }
    Ok(out)
}

fn main(rt: HostRuntime) -> io::Result<()> {
    let mut kept = Document::new(rt.alloc());
    for line in rt.lines(rt.alloc()) {
        let line = line?;
        let answer = answer(rt.alloc(), &mut kept, line.as_str())?;
        println!(rt; "{line}{answer}")?;
    }
    Ok(())
}
