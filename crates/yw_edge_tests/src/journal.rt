// Both calls of a journal on a desk in memory: the bytes of the format, and what each crash leaves.
ghost use Rattle.std.specs.Prelude.{◌≤◌, ◌^◌};

use std::alloc::{AllocError, Global};
use yw_journal::{AppendFault, Journal};
use yw_outside::{File, Fill, MemDesk};

// A desk on which a file was made and a record appended, the calls up to the file made, and the answer.
#[derive(Drop)]
struct Trial {
    desk: MemDesk,
    made: usize,
    answer: Result<Journal, AppendFault>,
}

// File A is made over these bytes with no snapshot, and then the entry is appended of one event, which gives ann
// the role clerk. The calls with these numbers fail.
fn try_out(alloc: Global, a: Vec<u8>, fail: Vec<u64>, limit: u64) -> Trial
    requires { limit ≤ 2 ^ 62 }
{
    let mut desk = MemDesk::new(alloc, a, Vec::new(alloc), fail);
    let answer = Journal::make(&mut desk, File::A, 1, 0, &[0; 9], limit);
    let made = desk.calls();
    let mut journal = match answer {
        Ok(journal) => journal,
        Err(_) => return Trial { desk, made, answer },
    };
    let appended = journal.append(
        &mut desk,
        &[
            0, 0, 0, 14, 0, 1, 1, 3, 97, 110, 110, 1, 5, 99, 108, 101, 114, 107, 0,
        ],
    );
    Trial {
        desk,
        made,
        answer: appended.map(|()| journal),
    }
}

const MADE: &[u8] =
    b"\x01YWJ1\x00\x00\x00\x00\x00\x00\x00\x01\x00\x00\x00\x00\x00\x00\x00\x00\x00\x00\x00\x00\x00\x00\x00\x00\x00";

const APPENDED: &[u8] =
    b"\x01YWJ1\x00\x00\x00\x00\x00\x00\x00\x01\x00\x00\x00\x00\x00\x00\x00\x00\x00\x00\x00\x00\x00\x00\x00\x00\x01\x00\x00\x00\x0e\x00\x01\x01\x03ann\x01\x05clerk\x00";

/// An old file that is live and longer than what is made over it.
const OLD: &[u8] = b"\x01YWJ1 an old file that is live and longer than what is written here";

/// Whether file A, as a crash just after so many calls may leave it, has these bytes.
fn leaves(desk: &MemDesk, call: usize, fill: Fill, bytes: &[u8]) -> bool {
    match desk.image(call.min(desk.calls()), fill) {
        Ok(image) => image.a.as_slice() == bytes,
        Err(AllocError) => false,
    }
}

fn makes_and_appends(alloc: Global) -> bool {
    let trial = try_out(alloc, Vec::new(alloc), Vec::new(alloc), 49);
    matches!(
        trial.answer,
        Ok(Journal {
            end: 49,
            number: 1,
            ..
        })
    ) && leaves(&trial.desk, trial.made, Fill::Old, MADE)
        && leaves(&trial.desk, usize::MAX, Fill::Old, APPENDED)
}

#[test]
fn writes_the_bytes_of_the_format(rt: HostRuntime) {
    assert!(rt; makes_and_appends(rt.alloc()));
}

/// A limit, where the snapshot or the record would end, and how many calls were made.
const LIMITS: [(u64, u64, usize); 2] = [(29, 30, 0), (48, 49, 8)];

fn is_full(alloc: Global, row: &(u64, u64, usize)) -> bool {
    let trial = try_out(alloc, Vec::new(alloc), Vec::new(alloc), row.0.min(1024));
    trial.answer == Err(AppendFault::Full(row.1)) && trial.desk.calls() == row.2
}

#[test]
fn full_by_length_before_any_call(rt: HostRuntime) {
    for row in &LIMITS {
        assert!(rt; is_full(rt.alloc(), row));
    }
}

/// Where the call with this number fails, nothing is made after it.
fn is_answered_disk(alloc: Global, call: u64) -> Result<bool, AllocError> {
    let trial = try_out(alloc, Vec::new(alloc), vec![in alloc; call]?, 1024);
    Ok(trial.answer == Err(AppendFault::Disk) && trial.desk.calls() as u64 == call)
}

#[test]
fn a_failed_call_is_answered_disk(rt: HostRuntime) {
    for call in 1..13 {
        assert!(rt; matches!(is_answered_disk(rt.alloc(), call), Ok(true)));
    }
}

const FILLS: [Fill; 5] = [
    Fill::Old,
    Fill::New,
    Fill::Half,
    Fill::Byte(0),
    Fill::Byte(1),
];

/// A file that is as it was or isn't live, and only while a file is made; or the new one; and from then on the new one with
/// the record or without.
fn is_whole(file: &[u8], is_making: bool) -> bool {
    let old = file == OLD || !file.starts_with(&[1]);
    let made = file.starts_with(&MADE[..29]);
    let shut = file.get(29) == Some(&0);
    (is_making && old) || (made && (is_making || shut || file.starts_with(APPENDED)))
}

fn leaves_whole(trial: &Trial, call: usize) -> bool {
    for fill in &FILLS {
        match trial.desk.image(call.min(trial.desk.calls()), *fill) {
            Ok(image) if is_whole(image.a.as_slice(), call <= trial.made) => {}
            _ => return false,
        }
    }
    true
}

fn each_crash_leaves_whole(alloc: Global) -> Result<bool, AllocError> {
    let trial = try_out(alloc, OLD.to_vec(alloc)?, Vec::new(alloc), 1024);
    for call in 0..trial.desk.calls() {
        if !leaves_whole(&trial, call + 1) {
            return Ok(false);
        }
    }
    Ok(trial.answer.is_ok())
}

#[test]
fn each_crash_leaves_whole_files(rt: HostRuntime) {
    assert!(rt; matches!(each_crash_leaves_whole(rt.alloc()), Ok(true)));
}
