// Rows of a state as bytes, both ways.
use crate::bytes::{bytes_of, push_hex};
use crate::entries::push_fault;
use std::alloc::{AllocError, Global};
use yw_states::{read_rows, write_rows};

/// `0000000000000001 ..`: the bytes that are written of the rows whose bytes these are, all of them; or the fault.
pub(crate) fn rows(alloc: Global, hex: &str, out: &mut String) -> Result<(), AllocError> {
    let bytes = bytes_of(alloc, hex)?;
    match read_rows(alloc, bytes.as_slice()) {
        Ok(rows) => {
            let mut written = Vec::new(alloc);
            write_rows(&mut written, &rows)?;
            push_hex(out, written.as_slice())
        }
        Err(fault) => push_fault(out, &fault),
    }
}
