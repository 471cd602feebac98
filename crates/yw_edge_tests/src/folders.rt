// Real folders, and files in memory.
use crate::steps::{Step, taken};
use std::alloc::{AllocError, Global};
use std::os::unix::fs::FileExt;
use std::rt::Files;
use std::test::Fail;
use std::{fs, io};
use yw_adapt::{FolderDesk, Lock, MemSystem, Writer};
use yw_outside::{Desk, File};

const FIRST: [Step; 8] = [
    Step::Write(File::A, 0, b"first and"),
    Step::Write(File::A, 6, b"to the last"),
    Step::Sync(File::A),
    Step::Write(File::B, 0, b"other"),
    Step::Sync(File::B),
    Step::Say(b"one\n"),
    Step::Say(b"two\n"),
    Step::Has(File::A, b"first to the last"),
];

const SECOND: [Step; 4] = [
    Step::Has(File::A, b"first to the last"),
    Step::Has(File::B, b"other"),
    Step::Write(File::A, 0, b"F"),
    Step::Has(File::A, b"First to the last"),
];

/// How many steps go as wanted on a folder, by a desk that is closed then.
fn goes<R: Files + Drop>(
    alloc: Global,
    rt: R,
    folder: &str,
    steps: &[Step],
) -> Result<usize, AllocError>
where
    R::File: FileExt + Lock,
{
    let mut desk = FolderDesk::new(alloc, rt, folder, Vec::new(alloc))?;
    Ok(taken(&mut desk, steps))
}

fn holds<R: Files + AllocGlobal>(rt: &R, path: &str, text: &str) -> bool {
    matches!(fs::read_to_string(rt, path), Ok(held) if held.as_str() == text)
}

#[test]
fn a_second_desk_reads_what_the_first_wrote(rt: HostRuntime) -> Result<(), Fail> {
    fs::create_dir(&rt, "held")?;
    assert_eq!(rt; goes(rt.alloc(), &rt, "held", &FIRST)?, FIRST.len());
    assert!(rt; holds(&rt, "held/yawl.a", "first to the last"));
    assert!(rt; holds(&rt, "held/yawl.b", "other"));
    assert_eq!(rt; goes(rt.alloc(), &rt, "held", &SECOND)?, SECOND.len());
    fs::remove_dir_all(&rt, "held")?;
    Ok(())
}

/// The second desk can't do a thing while the first is open, and all when it is closed.
fn shares<R: Files + Copy + Drop>(alloc: Global, rt: R) -> Result<bool, AllocError>
where
    R::File: FileExt + Lock,
{
    let mut first = FolderDesk::new(alloc, rt, "shared", Vec::new(alloc))?;
    let mut second = FolderDesk::new(alloc, rt, "shared", Vec::new(alloc))?;
    let held = first.write(File::A, 0, b"first").is_ok() && second.write(File::A, 0, b"F").is_err();
    let _ = first.into_parts();
    Ok(
        held && taken(
            &mut second,
            &[Step::Has(File::A, b"first"), Step::Write(File::A, 5, b"s")],
        ) == 2,
    )
}

#[test]
fn a_second_desk_waits_for_the_first(rt: HostRuntime) -> Result<(), Fail> {
    fs::create_dir(&rt, "shared")?;
    assert!(rt; matches!(shares(rt.alloc(), &rt), Ok(true)));
    fs::remove_dir_all(&rt, "shared")?;
    Ok(())
}

/// In memory as in a folder.
fn goes_in_memory(alloc: Global) -> Result<usize, AllocError> {
    let out = Writer::new(Vec::new(alloc));
    let mut desk = FolderDesk::over(alloc, MemSystem::new(alloc), "any", out)?;
    Ok(taken(&mut desk, &FIRST))
}

#[test]
fn a_desk_in_memory_goes_as_one_in_a_folder(rt: HostRuntime) {
    assert!(rt; matches!(goes_in_memory(rt.alloc()), Ok(8)));
}

const HERE: [Step; 2] = [Step::Write(File::A, 0, b"here"), Step::Sync(File::A)];

#[test]
fn the_empty_text_names_the_present_folder(rt: HostRuntime) -> Result<(), Fail> {
    assert_eq!(rt; goes(rt.alloc(), &rt, "", &HERE)?, HERE.len());
    assert!(rt; holds(&rt, "yawl.a", "here"));
    fs::remove_file(&rt, "yawl.a")?;
    Ok(())
}

/// Each call on the file fails, also a read past its end.
fn fails<R: Files + Drop>(alloc: Global, rt: R, folder: &str) -> Result<bool, AllocError>
where
    R::File: FileExt + Lock,
{
    let mut desk = FolderDesk::new(alloc, rt, folder, Vec::new(alloc))?;
    let looks = desk.len(File::A).is_err() && desk.read(File::A, 0, &mut [0; 4]).is_err();
    let writes = desk.write(File::A, 0, b"x").is_err() && desk.sync(File::A).is_err();
    let past = desk.read(File::B, 0, &mut [0; 4]).is_err();
    let (os, out) = desk.into_parts();
    Ok(looks && writes && past && os.calls().failed() == 5 && out.calls().made() == 0)
}

#[test]
fn what_cannot_be_opened_fails_each_call(rt: HostRuntime) -> Result<(), Fail> {
    assert!(rt; matches!(fails(rt.alloc(), &rt, "missing"), Ok(true)));
    fs::create_dir_all(&rt, "blocked/yawl.a")?;
    fs::write(&rt, "blocked/yawl.b", "abc")?;
    assert!(rt; matches!(fails(rt.alloc(), &rt, "blocked"), Ok(true)));
    fs::remove_dir_all(&rt, "blocked")?;
    Ok(())
}
