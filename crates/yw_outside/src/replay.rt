// What a crash may leave, by the calls that were made.
ghost use Rattle.std.specs.Prelude.{◌≡◌, ◌≤◌, ◌<◌, ◌∷◌, [], List, ℕ, nat_le, false, OnOk, IfOk, length, take, slice_index_or};
ghost use Rattle.std.specs.List.{prefix_len};
ghost use Rattle.yw_outside.specs.declared.image.Fill.{Fill};
ghost use Rattle.yw_outside.specs.declared.image.Image.{Image};
ghost use Rattle.yw_outside.specs.declared.log.Call.{Call};
ghost use Rattle.yw_outside.specs.declared.log.Made.{Made};
ghost use Rattle.yw_outside.specs.Fills.{is_sync, front_of, stamped, standing};
ghost use Rattle.yw_outside.specs.Image.{file_in};
ghost use Rattle.yw_outside.specs.Log.{after_call, state_of, calls_in};

use crate::log::{Call, Made};
use crate::stored::overwrite;
use crate::{File, Fill};
use std::alloc::{AllocError, Global};

/// How many of the kept calls have at most this number.
pub fn count_up_to(log: &[Made], number: usize) -> usize
    ensures within { result ≤ length log.now }
    ensures count { result ≡ prefix_len (λ m. nat_le m.number number) log.now }
{
    for (i, made) in log.iter().enumerate() {
        if made.number > number {
            return i;
        }
    }
    log.len()
}

fn is_sync(call: &Call, f: File) -> bool
    ensures { result ≡ is_sync f call.now }
{
    match call {
        Call::Sync(g) => *g == f,
        Call::Look => false,
        Call::Write { .. } => false,
        Call::Say(_) => false,
    }
}

// How many calls there are up to the last sync of the file.
fn count_settled(log: &[Made], f: File) -> usize
    ensures within { result ≤ length log.now }
    ensures settled { (i : Image) (fill : Fill) → standing f fill i (calls_in (take result log.now)) ≡ file_in f (state_of i (calls_in (take result log.now))) }
    ensures none { (k : ℕ) (d : Made) → result ≤ k → k < length log.now → is_sync f (slice_index_or log.now k d).call ≡ false }
{
    let mut settled = 0;
    for k in 0..log.len() {
        if is_sync(&log[k].call, f) {
            settled = k + 1;
        }
    }
    settled
}

fn redo(bytes: &mut Vec<u8>, f: File, call: &Call) -> Result<(), AllocError>
    ensures { OnOk result ((i : Image) → bytes.old.items ≡ file_in f i → bytes.new.items ≡ file_in f (after_call call.now i)) }
{
    match call {
        Call::Write {
            file,
            at,
            bytes: over,
            done,
        } => {
            if *done && *file == f {
                overwrite(bytes, *at as usize, over.as_slice())
            } else {
                Ok(())
            }
        }
        Call::Look => Ok(()),
        Call::Sync(_) => Ok(()),
        Call::Say(_) => Ok(()),
    }
}

// What a read of the file gives after these calls.
fn contents(alloc: Global, base: &[u8], f: File, log: &[Made]) -> Result<Vec<u8>, AllocError>
    ensures { IfOk result (λ v. (i : Image) → base.now ≡ file_in f i → v.items ≡ file_in f (state_of i (calls_in log.now))) }
{
    let mut bytes = base.to_vec(alloc)?;
    for made in log {
        redo(&mut bytes, f, &made.call)?;
    }
    Ok(bytes)
}

// What stands in the place of the bytes of a write.
fn prefix(alloc: Global, fill: Fill, bytes: &[u8], done: bool) -> Result<Vec<u8>, AllocError>
    ensures { IfOk result (λ v. v.items ≡ front_of fill bytes.now done) }
{
    match fill {
        Fill::Old => Ok(Vec::new(alloc)),
        Fill::New => {
            if done {
                bytes.to_vec(alloc)
            } else {
                Ok(Vec::new(alloc))
            }
        }
        Fill::Half => bytes[..bytes.len() / 2].to_vec(alloc),
        Fill::Byte(byte) => vec![in alloc; byte; bytes.len()],
    }
}

fn stamp(left: &mut Vec<u8>, at: usize, prefix: &[u8]) -> Result<(), AllocError>
    ensures { OnOk result (left.new.items ≡ stamped left.old.items at prefix.now) }
{
    if at <= left.len() {
        overwrite(left, at, prefix)
    } else {
        Ok(())
    }
}

fn leave(
    alloc: Global,
    left: &mut Vec<u8>,
    f: File,
    call: &Call,
    fill: Fill,
) -> Result<(), AllocError>
    requires { is_sync f call.now ≡ false }
    ensures { OnOk result ((i : Image) (older : List Call) → left.old.items ≡ standing f fill i older → left.new.items ≡ standing f fill i (call.now ∷ older)) }
{
    match call {
        Call::Write {
            file,
            at,
            bytes,
            done,
        } => {
            if *file == f {
                let prefix = prefix(alloc, fill, bytes.as_slice(), *done)?;
                stamp(left, *at as usize, &prefix)
            } else {
                Ok(())
            }
        }
        Call::Look => Ok(()),
        Call::Sync(_) => Ok(()),
        Call::Say(_) => Ok(()),
    }
}

/// What stands of the file after these calls.
pub fn left_after(
    alloc: Global,
    base: &[u8],
    f: File,
    log: &[Made],
    fill: Fill,
) -> Result<Vec<u8>, AllocError>
    ensures { IfOk result (λ v. (i : Image) → base.now ≡ file_in f i → v.items ≡ standing f fill i (calls_in log.now)) }
{
    let settled = count_settled(log, f);
    let mut left = contents(alloc, base, f, &log[..settled])?;
    for k in settled..log.len() {
        leave(alloc, &mut left, f, &log[k].call, fill)?;
    }
    Ok(left)
}

fn repeat(said: &mut Vec<u8>, call: &Call) -> Result<(), AllocError>
    ensures { OnOk result ((i : Image) → said.old.items ≡ i.said → said.new.items ≡ (after_call call.now i).said) }
{
    match call {
        Call::Say(bytes) => said.extend_from_slice(bytes.as_slice()),
        Call::Look => Ok(()),
        Call::Sync(_) => Ok(()),
        Call::Write { .. } => Ok(()),
    }
}

/// What was said in these calls.
pub fn said_after(alloc: Global, log: &[Made]) -> Result<Vec<u8>, AllocError>
    ensures { IfOk result (λ v. (i : Image) → i.said ≡ [] → v.items ≡ (state_of i (calls_in log.now)).said) }
{
    let mut said = Vec::new(alloc);
    for made in log {
        repeat(&mut said, &made.call)?;
    }
    Ok(said)
}
