// A system, a reader and a writer that answer as a test tells them.
ghost use Rattle.std.specs.Prelude.{◌≤◌, IfOk};

use std::alloc::Allocator;
use std::cell::Cell;
use std::fs::{Metadata, OpenFile, OpenOptions};
use std::io::{Error, ErrorKind, Read, Result, Seek, SeekFrom, Write};
use std::os::unix::fs::FileExt;
use std::rt::Files;
use yw_adapt::Lock;

/// What it holds, and what it wants written.
pub const TEXT: &[u8] = b"a text that moves in pieces";

/// What it does at a call.
#[derive(Clone, Copy)]
pub enum Answer {
    /// It moves so many bytes, if there are as many.
    Moves(usize),
    Interrupted,
    Fails,
}

/// The answers in turn to calls that move bytes, and then failures. Other calls succeed.
#[derive(Drop)]
pub struct Tape<'a> {
    answers: &'a [Answer],
    pub calls: Cell<usize>,
    pub syncs: Cell<u64>,
    others: Cell<u64>,
    /// the numbers, from 1, of the other calls that are interrupted
    pub signals: &'a [u64],
    /// how long the file is said to be
    pub length: u64,
    /// whether another opening of the file has its lock
    pub is_locked: bool,
}

impl<'a> Tape<'a> {
    pub fn new(answers: &'a [Answer]) -> Tape<'a> {
        Tape {
            answers,
            calls: Cell::new(0),
            syncs: Cell::new(0),
            others: Cell::new(0),
            signals: &[],
            length: 0,
            is_locked: false,
        }
    }

    fn answer(&self, most: usize) -> Result<usize>
        ensures { IfOk result (λ n. n ≤ most) }
    {
        let call = self.calls.get();
        self.calls.set(call.saturating_add(1));
        match self.answers.get(call) {
            Some(Answer::Moves(count)) => Ok(most.min(*count)),
            Some(Answer::Interrupted) => Err(Error::from(ErrorKind::Interrupted)),
            Some(Answer::Fails) | None => Err(Error::from(ErrorKind::StorageFull)),
        }
    }

    fn signal(&self) -> Result<()> {
        let call = self.others.get().saturating_add(1);
        self.others.set(call);
        if self.signals.contains(&call) {
            return Err(Error::from(ErrorKind::Interrupted));
        }
        Ok(())
    }
}

/// A file, a reader or a writer that gives the text, and takes the text.
#[derive(Drop)]
pub struct Script<'a> {
    pub tape: &'a Tape<'a>,
    pub moved: u64,
}

impl<'a> Script<'a> {
    pub fn new(tape: &'a Tape<'a>) -> Script<'a> {
        Script { tape, moved: 0 }
    }
}

/// The text from this offset on.
fn text_from(at: u64) -> &'static [u8] {
    &TEXT[TEXT.len().min(at as usize)..]
}

fn unsupported() -> Error {
    Error::from(ErrorKind::Unsupported)
}

impl FileExt for Script<'_> {
    fn read_at(&self, buf: &mut [u8], offset: u64) -> Result<usize> {
        let text = text_from(offset);
        let count = self.tape.answer(buf.len().min(text.len()))?;
        buf[..count].copy_from_slice(&text[..count]);
        Ok(count)
    }

    fn write_at(&self, buf: &[u8], offset: u64) -> Result<usize> {
        if !text_from(offset).starts_with(buf) {
            return Err(Error::from(ErrorKind::InvalidData));
        }
        self.tape.answer(buf.len())
    }
}

impl Lock for Script<'_> {
    fn take_lock(&self) -> Result<()> {
        self.tape.signal()?;
        if self.tape.is_locked {
            return Err(Error::from(ErrorKind::WouldBlock));
        }
        Ok(())
    }
}

impl Read for Script<'_> {
    fn read(&mut self, buf: &mut [u8]) -> Result<usize> {
        let at = self.moved;
        let count = self.read_at(buf, at)?;
        self.moved = at.saturating_add(count as u64);
        Ok(count)
    }
}

impl Write for Script<'_> {
    fn write(&mut self, buf: &[u8]) -> Result<usize> {
        let at = self.moved;
        let count = self.write_at(buf, at)?;
        self.moved = at.saturating_add(count as u64);
        Ok(count)
    }

    fn flush(&mut self) -> Result<()> {
        self.tape.answer(0)?;
        Ok(())
    }
}

impl Seek for Script<'_> {
    fn seek(&mut self, _to: SeekFrom) -> Result<u64> {
        Err(unsupported())
    }
}

impl OpenFile for Script<'_> {
    fn metadata(&self) -> Result<Metadata> {
        self.tape.signal()?;
        Ok(Metadata::of_file(self.tape.length))
    }

    fn set_len(&self, _size: u64) -> Result<()> {
        Err(unsupported())
    }

    fn sync_all(&self) -> Result<()> {
        self.tape.signal()?;
        self.tape.syncs.set(self.tape.syncs.get().saturating_add(1));
        Ok(())
    }

    fn sync_data(&self) -> Result<()> {
        Err(unsupported())
    }
}

/// The file that a disk has.
pub const FILE: &str = "held/yawl.a";

/// The folder of that file.
pub const FOLDER: &str = "held";

/// A system with a tape for its one file and one for the file's folder.
#[derive(Drop)]
pub struct Disk<'a> {
    pub file: &'a Tape<'a>,
    pub folder: &'a Tape<'a>,
}

impl<'a> Files for Disk<'a> {
    type File = Script<'a>;

    type Dir = Script<'a>;

    fn open_file(&self, _how: &OpenOptions, path: &str) -> Result<Script<'a>> {
        let tape = match path {
            FILE => self.file,
            FOLDER => self.folder,
            _ => return Err(Error::from(ErrorKind::NotFound)),
        };
        tape.signal()?;
        Ok(Script::new(tape))
    }

    fn open_dir(&self, _path: &str) -> Result<Script<'a>> {
        Err(unsupported())
    }

    fn metadata(&self, _path: &str) -> Result<Metadata> {
        Err(unsupported())
    }

    fn symlink_metadata(&self, _path: &str) -> Result<Metadata> {
        Err(unsupported())
    }

    fn copy(&self, _from: &str, _to: &str) -> Result<u64> {
        Err(unsupported())
    }

    fn rename(&self, _from: &str, _to: &str) -> Result<()> {
        Err(unsupported())
    }

    fn remove_file(&self, _path: &str) -> Result<()> {
        Err(unsupported())
    }

    fn create_dir(&self, _path: &str) -> Result<()> {
        Err(unsupported())
    }

    fn remove_dir(&self, _path: &str) -> Result<()> {
        Err(unsupported())
    }

    fn remove_dir_all<B: Allocator>(&self, _alloc: B, _path: &str) -> Result<()> {
        Err(unsupported())
    }
}
