//! The program: a case server over a folder, standard input and standard output.
//!
//! Its first word is the folder of its files, `.` where there is none; its other words are the server's. Its
//! exit status is the number of the server's status. It writes nothing to standard error.
#![tactic(auto)]

ghost use Rattle.std.specs.Prelude.{◌≡◌, IfOk, codes, drop, slice_get, string_bytes};
ghost use Rattle.std.specs.Option.{option_map_or};
ghost use Rattle.std.specs.Vec.Iter.{into_iter_items};

use std::alloc::AllocError;
use std::fs::{File, OpenOptions};
use std::os::fd::AsRawFd;
use std::process::ExitCode;
use std::{env, io};
use yw_adapt::{FolderDesk, StdSource};
use yw_serve::{Status, serve};

/// The last of the three descriptors that a program is begun with: standard error.
const LAST_STANDARD: i32 = 2;

/// Fills whichever of the descriptors 0 to 2 is closed with the null device, so that no file of the folder comes to
/// stand where input is read from or replies go to. They are filled as long as the answer is held. An `Err` says that
/// the null device couldn't be opened.
fn fill_descriptors(rt: &HostRuntime) -> io::Result<[Option<File>; 3]> {
    let mut how = OpenOptions::new();
    how.read(true).write(true);
    let mut held = [None, None, None];
    for place in held.iter_mut() {
        // It gets the least number that is free.
        let file = how.open(rt, "/dev/null")?;
        if file.as_raw_fd() > LAST_STANDARD {
            break;
        }
        *place = Some(file);
    }
    Ok(held)
}

/// The words behind the program's name. An `Err` says that no memory was left.
fn words_of(rt: &HostRuntime, args: env::Args) -> Result<Vec<String>, AllocError>
    ensures { IfOk result (λ words. words.items ≡ drop 1 (into_iter_items args)) }
{
    args.skip(1).collect(rt.alloc())
}

/// The first word, `.` where there is none.
fn folder_of(words: &[String]) -> &str
    ensures { result.now ≡ option_map_or (λ word. string_bytes word) (slice_get words.now 0) (codes ".") }
{
    match words.first() {
        Some(word) => word.as_str(),
        None => ".",
    }
}

/// The words behind the first.
fn behind_first(words: &[String]) -> &[String]
    ensures { result.now ≡ drop 1 words.now }
{
    if words.is_empty() { words } else { &words[1..] }
}

/// Words that can't be read at all have none of the forms.
fn main(rt: HostRuntime) -> ExitCode {
    let Ok(_held) = fill_descriptors(&rt) else {
        return ExitCode::from(Status::Disk as u8);
    };
    let Ok(args) = env::args(&rt) else {
        return ExitCode::from(Status::Usage as u8);
    };
    let Ok(words) = words_of(&rt, args) else {
        return ExitCode::from(Status::Memory as u8);
    };
    let Ok(mut desk) = FolderDesk::new(rt.alloc(), &rt, folder_of(&words), io::writer(&rt)) else {
        return ExitCode::from(Status::Memory as u8);
    };
    let mut source = StdSource::new(rt.reader());
    ExitCode::from(serve(rt.alloc(), behind_first(&words), &mut source, &mut desk) as u8)
}
