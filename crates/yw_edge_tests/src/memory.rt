// Sources and desks in memory: what each read gives, and what a crash leaves.
use crate::steps::{Step, taken};
use std::alloc::{AllocError, Global};
use yw_outside::{Failed, File, Fill, Image, MemDesk, MemSource, NeverDesk, NeverSource, Source};

const PERSON: &[u8] = b"{\"cmd\":\"person\",\"name\":\"ann\",\"roles\":[\"clerk\"]}\n";

/// What each read gives where a read gives ten bytes and the third fails.
const PIECES: [Option<&[u8]>; 7] = [
    Some(b"{\"cmd\":\"pe"),
    Some(b"rson\",\"nam"),
    None,
    Some(b"e\":\"ann\",\""),
    Some(b"roles\":[\"c"),
    Some(b"lerk\"]}\n"),
    Some(b""),
];

/// Whether the next read gives these bytes, or fails where none are wanted.
pub fn gives<S: Source>(source: &mut S, piece: &Option<&[u8]>) -> bool {
    let mut buf = [0; 64];
    match (source.read(&mut buf), piece) {
        (Ok(count), Some(bytes)) => &buf[..count] == *bytes,
        (Err(Failed), None) => true,
        _ => false,
    }
}

/// Whether the reads in turn give these.
pub fn gives_all<S: Source>(source: &mut S, pieces: &[Option<&[u8]>]) -> bool {
    for piece in pieces {
        if !gives(source, piece) {
            return false;
        }
    }
    true
}

fn mem_source_gives(alloc: Global) -> Result<bool, AllocError> {
    let fail = vec![in alloc; 3u64]?;
    let mut source = MemSource::new(PERSON.to_vec(alloc)?, 10, fail);
    Ok(gives_all(&mut source, &PIECES))
}

#[test]
fn reads_in_pieces_and_fails_where_told(rt: HostRuntime) {
    assert!(rt; matches!(mem_source_gives(rt.alloc()), Ok(true)));
}

fn never_source_gives(alloc: Global) -> Result<bool, AllocError> {
    let mut source = NeverSource::new(PERSON.to_vec(alloc)?);
    Ok(gives_all(&mut source, &[Some(PERSON), Some(b"")]))
}

#[test]
fn never_source_gives_all(rt: HostRuntime) {
    assert!(rt; matches!(never_source_gives(rt.alloc()), Ok(true)));
}

/// On a desk whose file A has `ab`. Each write is the second call of its step, after the length, and the last step has two.
const CALLS: [Step; 6] = [
    Step::Write(File::A, 2, b"cd"),
    Step::Sync(File::A),
    Step::Write(File::A, 2, b"WXYZ12"),
    Step::Write(File::B, 0, b"b"),
    Step::Say(b"yes\n"),
    Step::Has(File::A, b"abWXYZ12"),
];

/// What stands after so many of those calls by a fill: file A, file B and the output.
type Left = (usize, Fill, &'static [u8], &'static [u8], &'static [u8]);

const LEFT: [Left; 9] = [
    (0, Fill::New, b"ab", b"", b""),
    (2, Fill::Old, b"ab", b"", b""),
    (2, Fill::New, b"abcd", b"", b""),
    (3, Fill::Old, b"abcd", b"", b""),
    (5, Fill::Half, b"abWXY", b"", b""),
    (7, Fill::Byte(b'!'), b"ab!!!!!!", b"!", b""),
    (8, Fill::Old, b"abcd", b"", b"yes\n"),
    (8, Fill::New, b"abWXYZ12", b"b", b"yes\n"),
    (10, Fill::New, b"abWXYZ12", b"b", b"yes\n"),
];

fn is(image: &Image, left: &Left) -> bool {
    image.a.as_slice() == left.2 && image.b.as_slice() == left.3 && image.said.as_slice() == left.4
}

fn leaves(desk: &MemDesk, left: &Left) -> bool {
    let call = left.0;
    if call > desk.calls() {
        return false;
    }
    match desk.image(call, left.1) {
        Ok(image) => is(&image, left),
        Err(AllocError) => false,
    }
}

fn leaves_all(desk: &MemDesk, all: &[Left]) -> bool {
    for left in all {
        if !leaves(desk, left) {
            return false;
        }
    }
    true
}

fn images_are(alloc: Global) -> Result<bool, AllocError> {
    let a = b"ab".to_vec(alloc)?;
    let mut desk = MemDesk::new(alloc, a, Vec::new(alloc), Vec::new(alloc));
    let done = taken(&mut desk, &CALLS);
    Ok(done == CALLS.len() && desk.calls() == 10 && desk.short() == 0 && leaves_all(&desk, &LEFT))
}

#[test]
fn a_crash_leaves_what_the_fill_says(rt: HostRuntime) {
    assert!(rt; matches!(images_are(rt.alloc()), Ok(true)));
}

/// What is left where the write, the second call, fails.
const TORN: [Left; 2] = [
    (2, Fill::New, b"abcd", b"", b""),
    (2, Fill::Byte(0), b"a\0\0\0", b"", b""),
];

fn failed_write_is_torn(alloc: Global) -> Result<bool, AllocError> {
    let fail = vec![in alloc; 2u64]?;
    let mut desk = MemDesk::new(alloc, b"abcd".to_vec(alloc)?, Vec::new(alloc), fail);
    let done = taken(&mut desk, &[Step::Write(File::A, 1, b"XYZ")]);
    Ok(done == 0 && desk.calls() == 2 && leaves_all(&desk, &TORN))
}

#[test]
fn a_failed_write_may_be_torn(rt: HostRuntime) {
    assert!(rt; matches!(failed_write_is_torn(rt.alloc()), Ok(true)));
}

const HELD: [Step; 4] = [
    Step::Write(File::B, 0, b"held"),
    Step::Sync(File::B),
    Step::Say(b"said"),
    Step::Has(File::B, b"held"),
];

#[test]
fn never_desk_holds_its_bytes(rt: HostRuntime) {
    let mut desk = NeverDesk::new(rt.alloc());
    assert!(rt; taken(&mut desk, &HELD) == HELD.len());
}
