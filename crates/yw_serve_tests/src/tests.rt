// What no clause says: that a run can succeed, and that what it answered is found again. The rest is tried on the built
// program: each kind of line, each status and each damage.
use std::alloc::{AllocError, Global};
use std::process::Abort;
use yw_outside::{Desk, Fill, Image, MemDesk, MemSource, NeverDesk, NeverSource, Source};
use yw_serve::{Server, Status, Summary, bench, serve};

/// A run of `run`: file A at its start, how many persons that holds, the lines, their replies, how many calls the opening makes of the
/// desk, and how many the whole run.
#[derive(Clone, Copy)]
struct Case {
    file: &'static [u8],
    held: usize,
    lines: &'static [u8],
    replies: &'static [u8],
    opening: usize,
    calls: usize,
}

/// File A with five persons: a header of 29 bytes, 19 bytes for each person, and a closed gate.
fn five_persons() -> &'static [u8] {
    b"\x01YWJ1\0\0\0\0\0\0\0\x01\0\0\0\0\0\0\0\0\0\0\0\0\0\0\0\0\x01\0\0\0\x0e\0\x01\x01\x03ann\x01\x05clerk\x01\0\0\0\x0e\0\x01\x01\x03bob\x01\x05clerk\x01\0\0\0\x0e\0\x01\x01\x03cat\x01\x05clerk\x01\0\0\0\x0e\0\x01\x01\x03dan\x01\x05clerk\x01\0\0\0\x0e\0\x01\x01\x03eve\x01\x05clerk\0"
}

/// File A is made, and five persons come. Each line makes 5 calls, of which the last says the reply.
fn fresh() -> Case {
    Case {
        file: b"",
        held: 0,
        lines: br#"{"cmd":"person","name":"ann","roles":["clerk"]}
{"cmd":"person","name":"bob","roles":["clerk"]}
{"cmd":"person","name":"cat","roles":["clerk"]}
{"cmd":"person","name":"dan","roles":["clerk"]}
{"cmd":"person","name":"eve","roles":["clerk"]}
"#,
        replies: br#"{"n":1,"ok":true,"quiet":true,"steps":["person ann"]}
{"n":2,"ok":true,"quiet":true,"steps":["person bob"]}
{"n":3,"ok":true,"quiet":true,"steps":["person cat"]}
{"n":4,"ok":true,"quiet":true,"steps":["person dan"]}
{"n":5,"ok":true,"quiet":true,"steps":["person eve"]}
"#,
        opening: 12,
        calls: 37,
    }
}

/// A file with two of them is opened, and the other three come. The opening makes two syncs, asks for two lengths, and reads the header, all
/// entries at once, and the last gate.
fn again() -> Case {
    Case {
        file: b"\x01YWJ1\0\0\0\0\0\0\0\x01\0\0\0\0\0\0\0\0\0\0\0\0\0\0\0\0\x01\0\0\0\x0e\0\x01\x01\x03ann\x01\x05clerk\x01\0\0\0\x0e\0\x01\x01\x03bob\x01\x05clerk\0",
        held: 2,
        lines: br#"{"cmd":"person","name":"cat","roles":["clerk"]}
{"cmd":"person","name":"dan","roles":["clerk"]}
{"cmd":"person","name":"eve","roles":["clerk"]}
"#,
        replies: br#"{"n":1,"ok":true,"quiet":true,"steps":["person cat"]}
{"n":2,"ok":true,"quiet":true,"steps":["person dan"]}
{"n":3,"ok":true,"quiet":true,"steps":["person eve"]}
"#,
        opening: 7,
        calls: 22,
    }
}

/// File A is made, and a case runs from its launch to its end.
fn whole_case() -> Case {
    Case {
        file: b"",
        held: 0,
        lines: br#"{"cmd":"person","name":"ann","roles":[]}
{"cmd":"load","toml":"name='seq'\ntop='main'\n[[net]]\nname='main'\ninput='i'\noutput='o'\nflows=[['i','a'],['a','o']]\n[[net.task]]\nname='a'"}
{"cmd":"launch","spec":"seq","data":{}}
{"cmd":"enter","who":"ann","case":"1","task":"a"}
{"cmd":"start","who":"ann","item":"1.2"}
{"cmd":"complete","who":"ann","item":"1.2","out":{}}
"#,
        replies: br#"{"n":1,"ok":true,"quiet":true,"steps":["person ann"]}
{"n":2,"ok":true,"quiet":true,"steps":["load seq"]}
{"n":3,"ok":true,"quiet":true,"steps":["launch 1 seq"]}
{"n":4,"ok":true,"quiet":true,"steps":["enter 1 a from i as 1.2"]}
{"n":5,"ok":true,"quiet":true,"steps":["start 1.2"]}
{"n":6,"ok":true,"quiet":true,"steps":["complete 1.2","exit 1 a to o","finish 1"]}
"#,
        opening: 12,
        calls: 42,
    }
}

/// Queries between commands: ten items in order of their numbers, and how their case ended. A line that takes nothing makes one call.
fn queried() -> Case {
    Case {
        file: b"",
        held: 0,
        lines: br#"{"cmd":"specs"}
{"cmd":"person","name":"ann","roles":[]}
{"cmd":"load","toml":"name='ten'\ntop='main'\n[[net]]\nname='main'\ninput='i'\noutput='o'\nvars=[{name='xs',sort='ints',use='in'},{name='a',sort='text',init='q'}]\nflows=[['i','m'],['m','o']]\n[[net.task]]\nname='m'\nins=[{name='x',sort='int'}]\neach='xs'\nitem='x'\nmin=1\nmax=10"}
{"cmd":"launch","spec":"ten","data":{"xs":[0,1,2,3,4,5,6,7,8,9]}}
{"cmd":"show","case":"1"}
{"cmd":"enter","who":"ann","case":"1","task":"m"}
{"cmd":"start","who":"ann","item":"1.10"}
{"cmd":"show","case":"1"}
{"cmd":"show","case":"1.10"}
{"cmd":"ended","case":"1"}
{"cmd":"cancel","case":"1"}
{"cmd":"show","case":"1"}
{"cmd":"ended","case":"1"}
{"cmd":"specs"}
"#,
        replies: br#"{"answer":[],"n":1,"ok":true}
{"n":2,"ok":true,"quiet":true,"steps":["person ann"]}
{"n":3,"ok":true,"quiet":true,"steps":["load ten"]}
{"n":4,"ok":true,"quiet":true,"steps":["launch 1 ten"]}
{"answer":{"due":[],"items":[],"nets":[["1","ten","main",{"a":"q","xs":[0,1,2,3,4,5,6,7,8,9]}]],"runs":[],"suspended":[],"tokens":[["1","i",1]]},"n":5,"ok":true}
{"n":6,"ok":true,"quiet":true,"steps":["enter 1 m from i as 1.2,1.3,1.4,1.5,1.6,1.7,1.8,1.9,1.10,1.11"]}
{"n":7,"ok":true,"quiet":true,"steps":["start 1.10"]}
{"answer":{"due":[],"items":[["1.2","m","ready",""],["1.3","m","ready",""],["1.4","m","ready",""],["1.5","m","ready",""],["1.6","m","ready",""],["1.7","m","ready",""],["1.8","m","ready",""],["1.9","m","ready",""],["1.10","m","executing","ann"],["1.11","m","ready",""]],"nets":[["1","ten","main",{"a":"q","xs":[0,1,2,3,4,5,6,7,8,9]}]],"runs":[],"suspended":[],"tokens":[]},"n":8,"ok":true}
{"at":"","n":9,"ok":false,"rule":"UnknownCase"}
{"at":"","n":10,"ok":false,"rule":"UnknownCase"}
{"n":11,"ok":true,"quiet":true,"steps":["cancel 1"]}
{"at":"","n":12,"ok":false,"rule":"UnknownCase"}
{"answer":"cancelled","n":13,"ok":true}
{"answer":["ten"],"n":14,"ok":true}
"#,
        opening: 12,
        calls: 50,
    }
}

/// A line that comes behind them, and its entry.
const NEW_LINE: &[u8] = br#"{"cmd":"person","name":"new","roles":["clerk"]}"#;

const FED_REPLY: &[u8] = b"{\"n\":7,\"ok\":true,\"quiet\":true,\"steps\":[\"person new\"]}\n";

const NEW_ENTRY: &[u8] = b"\x01\0\0\0\x0e\0\x01\x01\x03new\x01\x05clerk\0";

/// What the words `run` do with a source on a desk.
fn run_on<S: Source, D: Desk>(
    alloc: Global,
    source: &mut S,
    desk: &mut D,
) -> Result<Status, AllocError> {
    let words = vec![in alloc; String::from_str(alloc, "run")?]?;
    Ok(serve(alloc, &words, source, desk))
}

/// A desk over these files, of whose calls this one fails. They are counted from 1.
fn desk_over(alloc: Global, a: &[u8], b: &[u8], failing: u64) -> Result<MemDesk, AllocError> {
    let fail = vec![in alloc; failing]?;
    Ok(MemDesk::new(alloc, a.to_vec(alloc)?, b.to_vec(alloc)?, fail))
}

/// These bytes in pieces of at most so many. One of the reads fails, counted from 1.
fn source_of(
    alloc: Global,
    bytes: &[u8],
    most: usize,
    failing: u64,
) -> Result<MemSource, AllocError> {
    let fail = vec![in alloc; failing]?;
    Ok(MemSource::new(bytes.to_vec(alloc)?, most.max(1), fail))
}

/// How a run of the case on this desk ends.
fn run_case(alloc: Global, case: &Case, desk: &mut MemDesk) -> Result<Status, AllocError> {
    let mut source = source_of(alloc, case.lines, 10, 0)?;
    run_on(alloc, &mut source, desk)
}

/// The file begins with so many of the five persons, and the new one stands behind them.
fn has_new_behind(file: &[u8], persons: usize) -> bool {
    let end = persons.saturating_mul(19).saturating_add(29);
    let Some(front) = five_persons().get(..end) else {
        return false;
    };
    match file.strip_prefix(front) {
        Some(rest) => rest.starts_with(NEW_ENTRY),
        None => false,
    }
}

/// A further run on what a crash left finds the persons that were answered, and at most one more.
fn is_kept(alloc: Global, case: &Case, image: &Image) -> Result<bool, AllocError> {
    let persons = case.held.saturating_add(image.said.as_slice().len() / 54);
    let mut desk = desk_over(alloc, image.a.as_slice(), image.b.as_slice(), 0)?;
    let mut source = source_of(alloc, NEW_LINE, 10, 0)?;
    let status = run_on(alloc, &mut source, &mut desk)?;
    let after = desk.image(desk.calls(), Fill::New)?;
    let a = after.a.as_slice();
    let found = has_new_behind(a, persons) || has_new_behind(a, persons.saturating_add(1));
    Ok(status == Status::Ok && found)
}

/// So it is whatever the ranges hold that weren't synced after this call.
fn is_kept_after(
    alloc: Global,
    case: &Case,
    desk: &MemDesk,
    call: usize,
) -> Result<bool, AllocError> {
    let call = call.min(desk.calls());
    for fill in [
        Fill::Old,
        Fill::New,
        Fill::Half,
        Fill::Byte(0),
        Fill::Byte(1),
        Fill::Byte(255),
    ] {
        let image = desk.image(call, fill)?;
        if !is_kept(alloc, case, &image)? {
            return Ok(false);
        }
    }
    Ok(true)
}

/// The first call after which a crash loses what was answered.
fn first_lost(alloc: Global, case: &Case) -> Result<Option<usize>, AllocError> {
    let mut desk = desk_over(alloc, case.file, &[], 0)?;
    run_case(alloc, case, &mut desk)?;
    for call in 0..=desk.calls() {
        if !is_kept_after(alloc, case, &desk, call)? {
            return Ok(Some(call));
        }
    }
    Ok(None)
}

/// How a run ends where this call fails: at the saying of a reply with `Write`, and else with `Disk`.
fn status_at(case: &Case, call: usize) -> Status {
    let behind = call.saturating_sub(case.opening);
    if behind > 0 && behind % 5 == 0 {
        Status::Write
    } else {
        Status::Disk
    }
}

/// How many lines are answered before this call.
fn answered_before(case: &Case, call: usize) -> usize {
    call.saturating_sub(case.opening.saturating_add(1)) / 5
}

/// The run ends with a call that fails. So many replies are said by then, and they are kept.
fn is_told(alloc: Global, case: &Case, call: usize) -> Result<bool, AllocError> {
    let mut desk = desk_over(alloc, case.file, &[], call as u64)?;
    let status = run_case(alloc, case, &mut desk)?;
    let image = desk.image(desk.calls(), Fill::New)?;
    let said = image.said.as_slice();
    let answered = said.len() / 54 == answered_before(case, call);
    let ended = status == status_at(case, call) && desk.calls() == call;
    Ok(
        ended
            && answered
            && case.replies.starts_with(said)
            && is_kept_after(alloc, case, &desk, call)?,
    )
}

/// The first call whose failure isn't told so.
fn first_untold(alloc: Global, case: &Case) -> Result<Option<usize>, AllocError> {
    for call in 1..=case.calls {
        if !is_told(alloc, case, call)? {
            return Ok(Some(call));
        }
    }
    Ok(None)
}

/// What stands after so many lines.
fn after_lines(text: &[u8], count: usize) -> &[u8] {
    let mut rest = text;
    for _ in 0..count {
        let Some(end) = rest.iter().position(|byte| *byte == b'\n') else {
            return &[];
        };
        rest = rest.get(end.saturating_add(1)..).unwrap_or(&[]);
    }
    rest
}

/// A run over these lines, on the files of an image, leaves this as file A.
fn leads_to(alloc: Global, image: &Image, lines: &[u8], file: &[u8]) -> Result<bool, AllocError> {
    let mut desk = desk_over(alloc, image.a.as_slice(), image.b.as_slice(), 0)?;
    let mut source = source_of(alloc, lines, 10, 0)?;
    let status = run_on(alloc, &mut source, &mut desk)?;
    let left = desk.image(desk.calls(), Fill::New)?;
    Ok(status == Status::Ok && left.a.as_slice() == file)
}

/// What is said is a prefix of the replies. The files hold the lines that were answered, or one more: with the others they come to this file.
fn goes_on(alloc: Global, case: &Case, image: &Image, file: &[u8]) -> Result<bool, AllocError> {
    let said = image.said.as_slice();
    let answered = said.iter().filter(|byte| **byte == b'\n').count();
    let rest = after_lines(case.lines, answered);
    let goes_on = leads_to(alloc, image, rest, file)?
        || leads_to(alloc, image, after_lines(rest, 1), file)?;
    Ok(case.replies.starts_with(said) && goes_on)
}

/// The run of a case ends with a call that fails, and goes on from what is left.
fn case_is_told(alloc: Global, case: &Case, call: usize, file: &[u8]) -> Result<bool, AllocError> {
    let mut desk = desk_over(alloc, case.file, &[], call as u64)?;
    let status = run_case(alloc, case, &mut desk)?;
    let image = desk.image(desk.calls(), Fill::New)?;
    let ended = status == status_at(case, call) && desk.calls() == call;
    Ok(ended && goes_on(alloc, case, &image, file)?)
}

/// The first call of a whole case whose failure isn't told so.
fn first_untold_of_case(alloc: Global, case: &Case) -> Result<Option<usize>, AllocError> {
    let mut desk = desk_over(alloc, case.file, &[], 0)?;
    run_case(alloc, case, &mut desk)?;
    let whole = desk.image(desk.calls(), Fill::New)?;
    for call in 1..=case.calls {
        if !case_is_told(alloc, case, call, whole.a.as_slice())? {
            return Ok(Some(call));
        }
    }
    Ok(None)
}

/// Where no call fails, all replies are said.
fn case_is_answered(alloc: Global, case: &Case) -> Result<bool, AllocError> {
    let mut desk = desk_over(alloc, case.file, &[], 0)?;
    let status = run_case(alloc, case, &mut desk)?;
    let image = desk.image(desk.calls(), Fill::New)?;
    Ok(status == Status::Ok && desk.calls() == case.calls && image.said.as_slice() == case.replies)
}

#[test]
fn a_case_runs_to_its_end(rt: HostRuntime) -> Result<(), AllocError> {
    assert!(rt; case_is_answered(rt.alloc(), &whole_case())?);
    Ok(())
}

#[test]
fn queries_are_told(rt: HostRuntime) -> Result<(), AllocError> {
    assert!(rt; case_is_answered(rt.alloc(), &queried())?);
    Ok(())
}

#[test]
fn each_failing_call_of_a_case_is_told(rt: HostRuntime) -> Result<(), AllocError> {
    assert_eq!(rt; first_untold_of_case(rt.alloc(), &whole_case())?, None);
    Ok(())
}

#[test]
fn a_crash_keeps_what_was_answered(rt: HostRuntime) -> Result<(), AllocError> {
    assert_eq!(rt; first_lost(rt.alloc(), &fresh())?, None);
    assert_eq!(rt; first_lost(rt.alloc(), &again())?, None);
    Ok(())
}

#[test]
fn each_failing_call_is_told(rt: HostRuntime) -> Result<(), AllocError> {
    assert_eq!(rt; first_untold(rt.alloc(), &fresh())?, None);
    assert_eq!(rt; first_untold(rt.alloc(), &again())?, None);
    Ok(())
}

/// What a run over a source leaves on a desk of these files, of whose calls this one fails. It ends with this status.
fn left_by(
    rt: &(impl AllocGlobal + Abort),
    files: (&[u8], &[u8]),
    failing: u64,
    source: &mut MemSource,
    wanted: Status,
) -> Result<Image, AllocError> {
    let mut desk = desk_over(rt.alloc(), files.0, files.1, failing)?;
    let status = run_on(rt.alloc(), source, &mut desk)?;
    assert_eq!(rt; status, wanted);
    desk.image(desk.calls(), Fill::New)
}

/// However the input is cut, all is answered.
#[test]
fn answers_pieces_of_any_size(rt: HostRuntime) -> Result<(), AllocError> {
    let case = fresh();
    for most in [1, 7, 47, 48, 1000] {
        let mut source = source_of(rt.alloc(), case.lines, most, 0)?;
        let image = left_by(&rt, (case.file, &[]), 0, &mut source, Status::Ok)?;
        assert_eq!(rt; image.a.as_slice(), five_persons());
        assert_eq!(rt; image.said.as_slice(), case.replies);
    }
    Ok(())
}

/// The entry of the last reply stands.
#[test]
fn a_failed_say_comes_behind_its_entry(rt: HostRuntime) -> Result<(), AllocError> {
    let case = again();
    let mut source = source_of(rt.alloc(), case.lines, 10, 0)?;
    let image = left_by(&rt, (case.file, &[]), 22, &mut source, Status::Write)?;
    assert_eq!(rt; image.a.as_slice(), five_persons());
    assert_eq!(rt; image.said.as_slice().len(), 108);
    Ok(())
}

/// What was read before stands: 40 bytes end no line, and 50 one.
#[test]
fn a_failed_read_ends_the_run(rt: HostRuntime) -> Result<(), AllocError> {
    let case = fresh();
    for (read, answered) in [(1, 0), (5, 0), (6, 1)] {
        let mut source = source_of(rt.alloc(), case.lines, 10, read)?;
        let image = left_by(&rt, (case.file, &[]), 0, &mut source, Status::Read)?;
        assert_eq!(rt; image.a.as_slice().len(), 30 + 19 * answered);
        assert_eq!(rt; image.said.as_slice().len(), 54 * answered);
    }
    Ok(())
}

/// A live file B is a damage, which the sixth call says.
#[test]
fn an_untold_damage_is_a_failed_say(rt: HostRuntime) -> Result<(), AllocError> {
    let mut source = source_of(rt.alloc(), NEW_LINE, 10, 0)?;
    let told = left_by(&rt, (&[], five_persons()), 0, &mut source, Status::Damaged)?;
    assert_eq!(rt;
        told.said.as_slice(),
        b"{\"at\":0,\"damaged\":\"b\"}\n".as_slice()
    );
    let image = left_by(&rt, (&[], five_persons()), 6, &mut source, Status::Write)?;
    assert_eq!(rt; image.said.as_slice(), [].as_slice());
    Ok(())
}

/// A server is started on a desk, and answers a line that is fed to it, by the number that it is given.
fn feeds(alloc: Global, desk: &mut MemDesk) -> bool {
    let mut piece = [0; 64];
    match Server::start(alloc, 1 << 20, &mut piece, desk) {
        Ok(mut server) => server.line(desk, 7, NEW_LINE).is_ok(),
        Err(_) => false,
    }
}

#[test]
fn answers_a_line_that_is_fed(rt: HostRuntime) -> Result<(), AllocError> {
    let mut desk = desk_over(rt.alloc(), &[], &[], 0)?;
    assert!(rt; feeds(rt.alloc(), &mut desk));
    let image = desk.image(desk.calls(), Fill::New)?;
    assert_eq!(rt; image.said.as_slice(), FED_REPLY);
    Ok(())
}

/// A desk and a source that can't fail but for want of memory.
#[test]
fn serves_what_never_fails(rt: HostRuntime) -> Result<(), AllocError> {
    let mut source = NeverSource::new(NEW_LINE.to_vec(rt.alloc())?);
    let mut desk = NeverDesk::new(rt.alloc());
    assert_eq!(rt; run_on(rt.alloc(), &mut source, &mut desk)?, Status::Ok);
    assert_eq!(rt; desk.short(), 0);
    Ok(())
}

/// What a bench of so many cases, from 1 on, comes to, and what it leaves on an empty desk; `None` where it fails.
fn benched(alloc: Global, count: u64) -> Result<Option<(Summary, Image)>, AllocError> {
    let mut desk = MemDesk::new(alloc, Vec::new(alloc), Vec::new(alloc), Vec::new(alloc));
    let Ok(summary) = bench(alloc, &mut desk, 1, count.min(100)) else {
        return Ok(None);
    };
    Ok(Some((summary, desk.image(desk.calls(), Fill::New)?)))
}

/// The cases have the amounts 838, 758, 113 and 515. Each line is answered, and a further run finds how the last case ended.
#[test]
fn a_bench_is_counted_and_held(rt: HostRuntime) -> Result<(), AllocError> {
    let alloc = rt.alloc();
    let Some((summary, image)) = benched(alloc, 4)? else {
        assert!(rt; false);
        return Ok(());
    };
    let wanted = Summary {
        accepted: 18,
        ended: 4,
        events: 38,
        high: 3,
        refused: 0,
    };
    assert!(rt; summary == wanted);
    let said = image.said.as_slice();
    assert_eq!(rt; said.iter().filter(|byte| **byte == b'\n').count(), 18);
    let asked = b"{\"cmd\":\"ended\",\"case\":\"10\"}".as_slice();
    let mut source = source_of(alloc, asked, 10, 0)?;
    let files = (image.a.as_slice(), image.b.as_slice());
    let told = left_by(&rt, files, 0, &mut source, Status::Ok)?;
    assert_eq!(rt;
        told.said.as_slice(),
        b"{\"answer\":\"finished\",\"n\":1,\"ok\":true}\n".as_slice()
    );
    Ok(())
}

/// The words of a bench make one call of the desk that is given, which says the summary.
#[test]
fn serves_a_bench(rt: HostRuntime) -> Result<(), AllocError> {
    let alloc = rt.alloc();
    let mut words = vec![in alloc; String::from_str(alloc, "bench")?]?;
    words.push(String::from_str(alloc, "1")?)?;
    words.push(String::from_str(alloc, "0")?)?;
    let mut desk = desk_over(alloc, &[], &[], 0)?;
    let mut source = source_of(alloc, NEW_LINE, 10, 0)?;
    assert_eq!(rt; serve(alloc, &words, &mut source, &mut desk), Status::Ok);
    assert_eq!(rt; desk.calls(), 1);
    let image = desk.image(desk.calls(), Fill::New)?;
    assert_eq!(rt;
        image.said.as_slice(),
        b"{\"accepted\":2,\"ended\":0,\"events\":2,\"high\":0,\"refused\":0}\n".as_slice()
    );
    Ok(())
}
