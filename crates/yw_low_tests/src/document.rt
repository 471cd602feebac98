// Documents.
use crate::described::add_spec;
use crate::said::add_text;
use crate::values::add_copy;
use std::alloc::{AllocError, Global};
use yw_base::Value;
use yw_documents::{number_at, word_at};
use yw_read::{RawSpec, ReadFault, read_spec};

/// The lines of a document that is kept for further cases.
#[derive(Drop)]
pub(crate) struct Document {
    lines: Vec<String>,
}

impl Document {
    /// No line.
    pub(crate) fn new(alloc: Global) -> Document {
        Document {
            lines: Vec::new(alloc),
        }
    }

    /// Keeps one line more.
    pub(crate) fn push(&mut self, alloc: Global, line: &str) -> Result<(), AllocError> {
        self.lines.push(String::from_str(alloc, line)?)?;
        Ok(())
    }

    /// The lines with another in the place of one, or behind the last.
    fn text_with(&self, alloc: Global, place: usize, other: &str) -> Result<String, AllocError> {
        let mut text = String::new(alloc);
        for (k, line) in self.lines.iter().enumerate() {
            text.push_str(if k == place { other } else { line.as_str() })?;
            text.push('\n')?;
        }
        if place >= self.lines.len() {
            text.push_str(other)?;
            text.push('\n')?;
        }
        Ok(text)
    }

    /// What the document says, from the next line on, or its fault.
    pub(crate) fn described(&self, alloc: Global, out: &mut String) -> Result<(), AllocError> {
        let text = self.text_with(alloc, self.lines.len(), "")?;
        match read_spec(alloc, text.as_str()) {
            Err(fault) => add_fault(&fault, out),
            Ok(spec) => {
                out.push('\n')?;
                add_spec(out, &spec)
            }
        }
    }

    /// `3 TEXT`: whether the document with this text in the place of its third line is read, or its fault.
    pub(crate) fn with(
        &self,
        alloc: Global,
        text: &str,
        out: &mut String,
    ) -> Result<(), AllocError> {
        let place = number_at(text, 0).saturating_sub(1);
        let other = match text.split_once(' ') {
            None => "",
            Some((_, other)) => other,
        };
        let text = self.text_with(alloc, place, other)?;
        read(alloc, text.as_str(), out)
    }
}

fn add_fault(fault: &ReadFault, out: &mut String) -> Result<(), AllocError> {
    match fault {
        ReadFault::NotToml => out.push_str("no TOML"),
        ReadFault::Memory => out.push_str("no memory"),
        ReadFault::Shape(path) => {
            out.push_str("fault at ")?;
            add_text(out, path.as_str())
        }
    }
}

/// Whether a text is read, or its fault.
pub(crate) fn read(alloc: Global, text: &str, out: &mut String) -> Result<(), AllocError> {
    match read_spec(alloc, text) {
        Err(fault) => add_fault(&fault, out),
        Ok(_) => out.push_str("read"),
    }
}

/// A document of one net, with one variable.
fn with_var(alloc: Global, sort: &str, init: &str) -> Result<String, AllocError> {
    let mut text = String::from_str(alloc, "name = 's'\ntop = 'n'\nnet = [{name = 'n', ")?;
    text.push_str("input = 'i', output = 'o', flows = [], vars = [{name = 'v', sort = '")?;
    text.push_str(sort)?;
    text.push_str("', init = ")?;
    text.push_str(init)?;
    text.push_str("}]}]\n")?;
    Ok(text)
}

/// The value that the first variable of the first net begins with.
fn first_init(spec: &RawSpec) -> Option<&Value> {
    match spec.net.get(0) {
        None => None,
        Some(net) => match net.vars.get(0) {
            None => None,
            Some(var) => var.init.as_ref(),
        },
    }
}

fn add_init(alloc: Global, spec: &RawSpec, out: &mut String) -> Result<(), AllocError> {
    match first_init(spec) {
        None => out.push_str("no value"),
        Some(value) => add_copy(alloc, value, out),
    }
}

/// `ints [5, 6]`: what the variable of this sort begins with, or the fault of the document.
pub(crate) fn value(alloc: Global, text: &str, out: &mut String) -> Result<(), AllocError> {
    let init = match text.split_once(' ') {
        None => "",
        Some((_, init)) => init,
    };
    let text = with_var(alloc, word_at(text, 0), init)?;
    match read_spec(alloc, text.as_str()) {
        Err(fault) => add_fault(&fault, out),
        Ok(spec) => add_init(alloc, &spec, out),
    }
}
