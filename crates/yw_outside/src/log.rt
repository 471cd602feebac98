// The calls of a desk in memory.
ghost use Rattle.std.specs.Prelude.{◌≡◌, ◌∷◌, ◌++◌, ◌↔◌, [], if◌then◌else◌, false, OnOk, OnErr, IsOk};
ghost use Rattle.yw_outside.specs.Causes.{HasCause, FailsWhereTold};
ghost use Rattle.yw_outside.specs.Image.{overwritten};
ghost use Rattle.yw_outside.specs.Stored.{bytes_of};

use crate::stored::Stored;
use crate::{Failed, File};
use std::alloc::{AllocError, Global};
use yw_base::Bytes;

/// A call of a desk in memory, as it is kept to tell what a crash may leave.
#[derive(Debug, Drop)]
pub enum Call {
    /// It changes nothing: a look at a file, or a call that failed and did nothing.
    Look,
    /// A write, which reads give afterwards where it was done.
    Write {
        file: File,
        at: u64,
        bytes: Bytes,
        done: bool,
    },
    /// A sync that succeeded.
    Sync(File),
    /// A `say` that succeeded.
    Say(Bytes),
}

/// A call with its number, from 1.
#[derive(Debug, Drop)]
pub struct Made {
    pub number: usize,
    pub call: Call,
}

/// One call more.
pub fn note(log: &mut Vec<Made>, number: usize, call: Call) -> Result<(), AllocError>
    ensures ok { OnOk result (log.new.items ≡ log.old.items ++ (record { number = number; call = call }) ∷ []) }
    ensures err { OnErr result (log.new.items ≡ log.old.items) }
{
    log.push(Made { number, call })?;
    Ok(())
}

/// A write of bytes to a file, which is done or fails and is kept in any case.
pub fn write_noted(
    alloc: Global,
    log: &mut Vec<Made>,
    stored: &mut Stored,
    number: usize,
    file: File,
    at: usize,
    bytes: &[u8],
    done: bool,
) -> Result<(), AllocError>
    ensures ok { OnOk result (log.new.items ≡ log.old.items ++ (record { number = number; call = Call.Write file at bytes.now done }) ∷ []) }
    ensures err { OnErr result (log.new.items ≡ log.old.items) }
    ensures done { OnOk result (bytes_of stored.new ≡ (if done then overwritten (bytes_of stored.old) at bytes.now else bytes_of stored.old)) }
    ensures none { OnErr result (bytes_of stored.new ≡ bytes_of stored.old) }
    ensures first { stored.new.first ≡ stored.old.first }
{
    let copy = Bytes::from_vec(bytes.to_vec(alloc)?);
    note(
        log,
        number,
        Call::Write {
            file,
            at: at as u64,
            bytes: copy,
            done,
        },
    )?;
    if !done {
        return Ok(());
    }
    match stored.write(alloc, at, bytes) {
        Ok(()) => Ok(()),
        Err(AllocError) => {
            let _ = log.pop();
            Err(AllocError)
        }
    }
}

/// A `say` of bytes.
pub fn say_noted(
    alloc: Global,
    log: &mut Vec<Made>,
    said: &mut Vec<u8>,
    number: usize,
    bytes: &[u8],
) -> Result<(), AllocError>
    ensures ok { OnOk result (log.new.items ≡ log.old.items ++ (record { number = number; call = Call.Say bytes.now }) ∷ []) }
    ensures err { OnErr result (log.new.items ≡ log.old.items) }
    ensures said { OnOk result (said.new.items ≡ said.old.items ++ bytes.now) }
    ensures none { OnErr result (said.new.items ≡ said.old.items) }
{
    let copy = Bytes::from_vec(bytes.to_vec(alloc)?);
    note(log, number, Call::Say(copy))?;
    match said.extend_from_slice(bytes) {
        Ok(()) => Ok(()),
        Err(AllocError) => {
            let _ = log.pop();
            Err(AllocError)
        }
    }
}

/// The answer of a call that was told to fail or not, and was kept or found no memory.
pub fn answer(
    told: bool,
    kept: Result<(), AllocError>,
    faults: &mut u64,
    short: &mut u64,
) -> Result<(), Failed>
    ensures answer { IsOk result ↔ ((told ≡ false) × IsOk kept) }
    ensures cause { HasCause faults.old faults.new result }
    ensures fails { FailsWhereTold told short.old short.new result }
{
    let kept = kept.is_ok();
    if !kept {
        *short = short.saturating_add(1);
    }
    if told || !kept {
        *faults = faults.saturating_add(1);
        return Err(Failed);
    }
    Ok(())
}
