// What a desk and a source do where the system stops early, is interrupted, or refuses.
use crate::memory::gives_all;
use crate::script::{Answer, Disk, FOLDER, Script, TEXT, Tape};
use std::alloc::{AllocError, Global};
use yw_adapt::{FolderDesk, Os, StdSource, Writer};
use yw_outside::{Desk, Failed, File};

type Edge<'a> = FolderDesk<Os<Disk<'a>>, Writer<Script<'a>>>;

/// A desk over a file, a folder and an output that answer as they are told.
fn edge<'a>(
    alloc: Global,
    file: &'a Tape<'a>,
    folder: &'a Tape<'a>,
) -> Result<Edge<'a>, AllocError> {
    FolderDesk::new(alloc, Disk { file, folder }, FOLDER, Script::new(file))
}

/// How many calls of the files were made, and how many of them failed.
fn counted(desk: Edge<'_>) -> (u64, u64) {
    let (os, _) = desk.into_parts();
    (os.calls().made(), os.calls().failed())
}

fn reads(desk: &mut Edge<'_>, size: usize) -> bool {
    let mut buf = [0; 25];
    let size = size.min(25);
    desk.read(File::A, 2, &mut buf[..size]) == Ok(()) && buf[..size] == TEXT[2..2 + size]
}

fn writes(desk: &mut Edge<'_>, size: usize) -> bool {
    desk.write(File::A, 2, &TEXT[2..2 + size.min(25)]) == Ok(())
}

/// The answers to the calls that move a piece of so many bytes, whether it is moved whole, and how many calls were made of which
/// how many failed. Three more open, lock and measure the file first.
type Piece = (&'static [Answer], usize, bool, (u64, u64));

const PIECES: [Piece; 4] = [
    (
        &[
            Answer::Moves(3),
            Answer::Interrupted,
            Answer::Moves(1),
            Answer::Moves(99),
        ],
        25,
        true,
        (7, 0),
    ),
    (
        &[Answer::Moves(3), Answer::Moves(0), Answer::Moves(99)],
        25,
        false,
        (5, 1),
    ),
    (
        &[Answer::Moves(3), Answer::Fails, Answer::Moves(99)],
        25,
        false,
        (5, 1),
    ),
    (&[], 0, true, (3, 0)),
];

fn reads_piece(alloc: Global, piece: &Piece) -> Result<bool, AllocError> {
    let tape = Tape::new(piece.0);
    let mut desk = edge(alloc, &tape, &tape)?;
    let whole = reads(&mut desk, piece.1);
    Ok(whole == piece.2 && counted(desk) == piece.3)
}

fn writes_piece(alloc: Global, piece: &Piece) -> Result<bool, AllocError> {
    let tape = Tape::new(piece.0);
    let mut desk = edge(alloc, &tape, &tape)?;
    let whole = writes(&mut desk, piece.1);
    Ok(whole == piece.2 && counted(desk) == piece.3)
}

#[test]
fn moves_a_piece_whole_or_fails(rt: HostRuntime) {
    for piece in &PIECES {
        assert!(rt; matches!(reads_piece(rt.alloc(), piece), Ok(true)));
        assert!(rt; matches!(writes_piece(rt.alloc(), piece), Ok(true)));
    }
}

/// Each call is interrupted once, and made again: of the file the opening, the lock, the length and the sync, of the folder the
/// opening and the sync. The folder is synced at the first sync alone.
fn syncs(alloc: Global) -> Result<bool, AllocError> {
    let mut file = Tape::new(&[]);
    file.signals = &[1, 3, 5, 7];
    let mut folder = Tape::new(&[]);
    folder.signals = &[1, 3];
    let mut desk = edge(alloc, &file, &folder)?;
    let done = desk.sync(File::A) == Ok(()) && file.syncs.get() == 1 && folder.syncs.get() == 1;
    let again = desk.sync(File::A) == Ok(()) && file.syncs.get() == 2 && folder.syncs.get() == 1;
    Ok(done && again && counted(desk) == (12, 0))
}

#[test]
fn what_is_interrupted_is_done_again(rt: HostRuntime) {
    assert!(rt; matches!(syncs(rt.alloc()), Ok(true)));
}

/// How long the file is said to be, whether another opening has its lock, what its length is answered to be, and how many
/// syncs come of one: of the file and of its folder.
type Opened = (u64, bool, Result<u64, Failed>, u64);

const OPENED: [Opened; 4] = [
    (14, false, Ok(14), 2),
    (
        9_223_372_036_854_775_807,
        false,
        Ok(9_223_372_036_854_775_807),
        2,
    ),
    (9_223_372_036_854_775_808, false, Err(Failed), 0),
    (14, true, Err(Failed), 0),
];

fn opens(alloc: Global, row: &Opened) -> Result<bool, AllocError> {
    let mut tape = Tape::new(&[]);
    tape.length = row.0;
    tape.is_locked = row.1;
    let mut desk = edge(alloc, &tape, &tape)?;
    let measured = desk.len(File::A) == row.2;
    let synced = desk.sync(File::A).is_ok() == row.2.is_ok();
    Ok(measured && synced && tape.syncs.get() == row.3)
}

#[test]
fn opens_a_file_that_is_free_and_short_enough(rt: HostRuntime) {
    for row in &OPENED {
        assert!(rt; matches!(opens(rt.alloc(), row), Ok(true)));
    }
}

const SAYS: [Answer; 6] = [
    Answer::Moves(3),
    Answer::Interrupted,
    Answer::Moves(99),
    Answer::Interrupted,
    Answer::Moves(0),
    Answer::Moves(0),
];

/// The first text is said in two pieces, and the second not at all.
fn says(alloc: Global) -> Result<bool, AllocError> {
    let tape = Tape::new(&SAYS);
    let mut desk = edge(alloc, &tape, &tape)?;
    let first = desk.say(&TEXT[..20]) == Ok(()) && tape.calls.get() == 5;
    let second = desk.say(&TEXT[20..]) == Err(Failed);
    let (os, out) = desk.into_parts();
    let calls = out.calls();
    Ok(
        first
            && second
            && (
                out.get_ref().moved,
                calls.made(),
                calls.failed(),
                os.calls().made(),
            ) == (20, 6, 1, 0),
    )
}

#[test]
fn says_all_or_counts_a_failure(rt: HostRuntime) {
    assert!(rt; matches!(says(rt.alloc()), Ok(true)));
}

const READS: [Answer; 6] = [
    Answer::Interrupted,
    Answer::Moves(7),
    Answer::Fails,
    Answer::Moves(16),
    Answer::Moves(99),
    Answer::Moves(99),
];

const GIVEN: [Option<&[u8]>; 5] = [
    Some(b"a text "),
    None,
    Some(b"that moves in pi"),
    Some(b"eces"),
    Some(b""),
];

#[test]
fn a_reader_gives_pieces(rt: HostRuntime) {
    let tape = Tape::new(&READS);
    let mut source = StdSource::new(Script::new(&tape));
    assert!(rt; gives_all(&mut source, &GIVEN));
}
