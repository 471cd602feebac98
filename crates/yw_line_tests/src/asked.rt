// What lines ask.
use crate::bytes::bytes_of;
use crate::shown::shown;
use std::alloc::{AllocError, Global};
use yw_lines::Word;
use yw_wire::{WireFault, read_command};

/// The name of a fault.
fn fault_text(fault: WireFault) -> &'static str {
    match fault {
        WireFault::LineTooLong => "LineTooLong",
        WireFault::NotJson => "NotJson",
        WireFault::NotBuilt => "NotBuilt",
        WireFault::NotCommand => "NotCommand",
        WireFault::Memory => "Memory",
    }
}

/// What a line asks where these words are built, or the name of its fault.
fn asked(alloc: Global, line: &[u8], built: &[Word], out: &mut String) -> Result<(), AllocError> {
    match read_command(alloc, line, built) {
        Ok(asked) => out.push_str(shown(alloc, &asked)?.as_str()),
        Err(fault) => out.push_str(fault_text(fault)),
    }
}

/// The same where all words are built.
pub(crate) fn of_all(alloc: Global, line: &[u8], out: &mut String) -> Result<(), AllocError> {
    asked(alloc, line, &Word::ALL, out)
}

/// The same where two are.
pub(crate) fn of_two(alloc: Global, line: &[u8], out: &mut String) -> Result<(), AllocError> {
    asked(alloc, line, &[Word::Load, Word::Person], out)
}

/// The same where none is.
pub(crate) fn of_none(alloc: Global, line: &[u8], out: &mut String) -> Result<(), AllocError> {
    asked(alloc, line, &[], out)
}

/// `7b 7d`: what the line of these bytes asks, where all words are built.
pub(crate) fn of_bytes(alloc: Global, hex: &str, out: &mut String) -> Result<(), AllocError> {
    let line = bytes_of(alloc, hex)?;
    of_all(alloc, line.as_slice(), out)
}
