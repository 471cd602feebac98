// What no clause says: that a call can succeed, what the lines look like, and that the definitions mean what is wanted.
use std::alloc::{AllocError, Global};
use yw_documents::{loan, seq};
use yw_judge::{Verdict, judge_input};
use yw_outside::{
    Desk, Fill, Image, MemDesk, MemSource, NeverDesk, NeverSource, PIECE_BYTES, Source,
};
use yw_verdict::Finding;

/// The same with a condition on no path.
fn seq_with_condition() -> &'static str {
    SEQ_WITH_CONDITION
}

const SEQ_WITH_CONDITION: &str = r#"name = "seq"
top = "main"
[[net]]
name = "main"
input = "i"
output = "o"
conditions = ["x"]
flows = [["i","a"],["a","b"],["b","o"]]
[[net.task]]
name = "a"
[[net.task]]
name = "b"
"#;

/// A net that no `top` names.
fn without_top() -> &'static str {
    WITHOUT_TOP
}

const WITHOUT_TOP: &str = r#"name = "seq"
[[net]]
name = "main"
input = "i"
output = "o"
flows = [["i","a"],["a","b"],["b","o"]]
[[net.task]]
name = "a"
[[net.task]]
name = "b"
"#;

const TOO_LONG: &str = "{\"at\":\"\",\"ok\":false,\"rule\":\"LineTooLong\"}\n";

const NO_TEXT: &str = "{\"at\":\"\",\"ok\":false,\"rule\":\"SpecText\"}\n";

const SEQ: &str = "{\"ok\":true,\"spec\":\"seq\"}\n";

/// A desk with files, whose calls with these numbers fail.
fn desk_of(alloc: Global, fail: &[u64]) -> Result<MemDesk, AllocError> {
    let a = Vec::from_slice(alloc, b"first")?;
    let b = Vec::from_slice(alloc, b"second")?;
    let fail = Vec::from_slice(alloc, fail)?;
    Ok(MemDesk::new(alloc, a, b, fail))
}

/// The files are as they were, and this was said.
fn has_said(image: &Image, said: &str) -> bool {
    image.a.as_slice() == b"first".as_slice()
        && image.b.as_slice() == b"second".as_slice()
        && image.said.as_slice() == said.as_bytes()
}

/// The desk made so many calls, its files are as they were, and this was said.
fn desk_has_said(desk: &MemDesk, calls: usize, said: &str) -> bool {
    match desk.image(desk.calls(), Fill::New) {
        Ok(image) => desk.calls() == calls && has_said(&image, said),
        Err(AllocError) => false,
    }
}

/// The verdict on what a source gives, as a specification.
fn judged<S: Source, D: Desk>(alloc: Global, source: &mut S, desk: &mut D) -> Verdict {
    judge_input::<Finding, S, D>(alloc, source, desk)
}

/// What a source gives has this verdict, at a desk whose calls with these numbers fail, and this is said.
fn has_verdict(alloc: Global, mut source: MemSource, verdict: Verdict, said: &str) -> bool {
    match desk_of(alloc, &[]) {
        Ok(mut desk) => {
            judged(alloc, &mut source, &mut desk) == verdict
                && desk_has_said(&desk, usize::from(!said.is_empty()), said)
        }
        Err(AllocError) => false,
    }
}

/// A source of these bytes, in pieces of at most so many, whose reads with these numbers fail.
fn source_of(
    alloc: Global,
    bytes: &[u8],
    most: usize,
    fail: &[u64],
) -> Result<MemSource, AllocError> {
    let bytes = Vec::from_slice(alloc, bytes)?;
    let fail = Vec::from_slice(alloc, fail)?;
    Ok(MemSource::new(bytes, most.max(1), fail))
}

/// These bytes, in pieces of at most so many, have this verdict, and this line is said.
fn is_found(alloc: Global, bytes: &[u8], most: usize, verdict: Verdict, line: &str) -> bool {
    match source_of(alloc, bytes, most, &[]) {
        Ok(source) => has_verdict(alloc, source, verdict, line),
        Err(AllocError) => false,
    }
}

/// A text, its verdict, and the line that is said.
fn is_found_of(alloc: Global, text: &str, verdict: Verdict, line: &str) -> bool {
    is_found(alloc, text.as_bytes(), 7, verdict, line)
        && is_found(alloc, text.as_bytes(), PIECE_BYTES, verdict, line)
}

const V3: &str = "{\"at\":\"V3 main x\",\"ok\":false,\"rule\":\"SpecCheck\"}\n";

const SHAPE: &str = "{\"at\":\"top\",\"ok\":false,\"rule\":\"SpecShape\"}\n";

#[test]
fn says_what_is_accepted(rt: HostRuntime) {
    assert!(rt; is_found_of(rt.alloc(), seq(), Verdict::Accepted, SEQ));
    let line = "{\"ok\":true,\"spec\":\"loan\"}\n";
    assert!(rt; is_found_of(rt.alloc(), loan(), Verdict::Accepted, line));
}

#[test]
fn says_what_is_refused(rt: HostRuntime) {
    assert!(rt; is_found_of(rt.alloc(), seq_with_condition(), Verdict::Refused, V3));
    assert!(rt; is_found_of(rt.alloc(), without_top(), Verdict::Refused, SHAPE));
    assert!(rt; is_found_of(rt.alloc(), "][", Verdict::Refused, NO_TEXT));
}

/// The document `seq` with a comment behind it that ends so, and of so many bytes in all.
fn seq_with(alloc: Global, end: &[u8], length: usize) -> Result<Vec<u8>, AllocError> {
    let mut bytes = Vec::from_slice(alloc, seq().as_bytes())?;
    bytes.push(b'#')?;
    bytes.extend_from_slice(end)?;
    bytes.resize(length, b'x')?;
    Ok(bytes)
}

fn is_found_with(alloc: Global, end: &[u8], length: usize, verdict: Verdict, line: &str) -> bool {
    match seq_with(alloc, end, length) {
        Ok(bytes) => is_found(alloc, &bytes, PIECE_BYTES, verdict, line),
        Err(AllocError) => false,
    }
}

#[test]
fn other_bytes_are_no_text(rt: HostRuntime) {
    assert!(rt; is_found_with(rt.alloc(), b"\xff", 200, Verdict::Refused, NO_TEXT));
}

#[test]
fn the_limit_is_exact(rt: HostRuntime) {
    assert!(rt; is_found_with(rt.alloc(), b"", 1_048_576, Verdict::Accepted, SEQ));
    assert!(rt; is_found_with(rt.alloc(), b"", 1_048_577, Verdict::Refused, TOO_LONG));
    assert!(rt; is_found_with(rt.alloc(), b"", 1_200_000, Verdict::Refused, TOO_LONG));
}

fn fails_to_read(alloc: Global) -> bool {
    match source_of(alloc, seq().as_bytes(), 100, &[2]) {
        Ok(source) => has_verdict(alloc, source, Verdict::Read, ""),
        Err(AllocError) => false,
    }
}

#[test]
fn a_failed_read_says_nothing(rt: HostRuntime) {
    assert!(rt; fails_to_read(rt.alloc()));
}

fn never_failing(alloc: Global, text: &str) -> Result<NeverSource, AllocError> {
    Ok(NeverSource::new(Vec::from_slice(alloc, text.as_bytes())?))
}

/// The text at a desk whose first call fails.
fn fails_to_say(alloc: Global, text: &str) -> Result<bool, AllocError> {
    let mut source = never_failing(alloc, text)?;
    let mut desk = desk_of(alloc, &[1])?;
    let verdict = judged(alloc, &mut source, &mut desk);
    Ok(verdict == Verdict::Write && desk_has_said(&desk, 1, ""))
}

#[test]
fn a_failed_say_is_no_verdict(rt: HostRuntime) {
    assert!(rt; matches!(fails_to_say(rt.alloc(), seq()), Ok(true)));
    assert!(rt; matches!(fails_to_say(rt.alloc(), seq_with_condition()), Ok(true)));
}

fn is_accepted_in_memory(alloc: Global) -> Result<bool, AllocError> {
    let mut source = never_failing(alloc, seq())?;
    let mut desk = NeverDesk::new(alloc);
    Ok(judged(alloc, &mut source, &mut desk) == Verdict::Accepted)
}

#[test]
fn nothing_fails_in_memory(rt: HostRuntime) {
    assert!(rt; matches!(is_accepted_in_memory(rt.alloc()), Ok(true)));
}
