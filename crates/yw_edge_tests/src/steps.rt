// Calls of a desk, and what is wanted of them.
ghost use Rattle.std.specs.Prelude.{◌≤◌, length};

use yw_outside::{Desk, Failed, File};

/// A call, or two, of a desk.
#[derive(Clone, Copy)]
pub enum Step {
    /// A write at this offset, where the file is as long.
    Write(File, u64, &'static [u8]),
    Sync(File),
    Say(&'static [u8]),
    /// The file has these bytes.
    Has(File, &'static [u8]),
}

const MOST: usize = 64;

fn write<D: Desk>(desk: &mut D, f: File, at: u64, bytes: &[u8]) -> Result<bool, Failed> {
    if desk.len(f)? < at || at > 1024 || bytes.len() > MOST {
        return Ok(false);
    }
    desk.write(f, at, bytes)?;
    Ok(true)
}

/// Whether the file has these bytes and no others.
pub fn has<D: Desk>(desk: &mut D, f: File, bytes: &[u8]) -> Result<bool, Failed> {
    let mut buf = [0; MOST];
    if desk.len(f)? != bytes.len() as u64 || bytes.len() > MOST {
        return Ok(false);
    }
    desk.read(f, 0, &mut buf[..bytes.len()])?;
    Ok(&buf[..bytes.len()] == bytes)
}

fn take<D: Desk>(desk: &mut D, step: &Step) -> Result<bool, Failed> {
    match step {
        Step::Write(f, at, bytes) => write(desk, *f, *at, bytes),
        Step::Sync(f) => desk.sync(*f).map(|()| true),
        Step::Say(bytes) => desk.say(bytes).map(|()| true),
        Step::Has(f, bytes) => has(desk, *f, bytes),
    }
}

/// How many of the steps went as wanted, up to the first that didn't.
pub fn taken<D: Desk>(desk: &mut D, steps: &[Step]) -> usize {
    for (number, step) in steps.iter().enumerate() {
        if take(desk, step) != Ok(true) {
            return number;
        }
    }
    steps.len()
}
