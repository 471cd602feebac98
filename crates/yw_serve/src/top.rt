// The top call.
ghost use Rattle.std.specs.Prelude.{◌≡◌, ◌≢◌, ◌≤◌, ◌<◌, ◌^◌, ◌↔◌, ◌⊎◌, ℕ, List, length, true, Some, IsErr, IsTrue, MatchResult, codes, string_bytes};
ghost use Rattle.std.specs.declared.option.Option.{Option};
ghost use Rattle.yw_serve.specs.Ends.{EndsAs, EndsShort};
ghost use Rattle.yw_outside.specs.Causes.{Rose};
ghost use Rattle.yw_journal.specs.Files.{Content};
ghost use Rattle.yw_journal.specs.Journal.{IsCurrent};
ghost use Rattle.yw_lines.specs.Lines.{lines};
ghost use Rattle.yw_texts.specs.Texts.{reader};
ghost use Rattle.yw_state.specs.State.{State};
ghost use Rattle.yw_state.specs.Well.{IsWell};
ghost use Rattle.yw_serve.specs.Damage.{HoldNow};
ghost use Rattle.yw_serve.specs.Desks.{Stands, KeepsCounts};
ghost use Rattle.yw_serve.specs.Faults.{EndingFaults, NoneRose, NoticeFaults, StatusFaults, StopFaults};
ghost use Rattle.yw_serve.specs.Headline.{HoldsPrefix, LeavesFromSyncs, Serves};
ghost use Rattle.yw_serve.specs.Notices.{damage_line, full_line};
ghost use Rattle.yw_serve.specs.Served.{Ended, IsOfRun, IsTold, IsUnfailed, RunEnds};
ghost use Rattle.yw_serve.specs.Session.{server_state};
ghost use Rattle.yw_serve.specs.Counted.{SaysBench};
ghost use Rattle.yw_serve.specs.Words.{IsBench, IsJudging, IsRun, OnRun, OnWord};
ghost use Rattle.yw_serve.specs.Judging.{IsOfJudging, Judges, TellsFound};
ghost use Rattle.yw_judge.specs.Ends.{KeepsFiles};

use crate::benching::serve_bench;
use crate::judging::serve_judging;
use crate::notice::{write_damage, write_full};
use crate::opening::StartFault;
use crate::run::{Ending, INPUT_LIMIT, run};
use crate::server::{Server, Stop, tell};
use crate::session::Session;
use crate::words::{bench_numbers, file_limit, is_word};
use std::alloc::{AllocError, Global};
use yw_base::Bytes;
use yw_judge::Judgement;
use yw_outside::{Desk, File, Source, new_piece};
use yw_proof::ProofFinding;
use yw_verdict::Finding;

/// How the program ends. The program's exit status is the number, from 0.
#[derive(Clone, Copy, Debug, PartialEq, Eq)]
pub enum Status {
    /// The input was read to its end, and every line answered; or what is found of the one text is a yes; or a bench was done, and its summary said.
    Ok,
    /// What is found of the one text is a no, and the line that says why was said.
    Findings,
    /// The words have none of the forms. Nothing was read, said or written.
    Usage,
    /// A file couldn't be read, written or synced.
    Disk,
    /// No memory was left.
    Memory,
    /// The input couldn't be read.
    Read,
    /// A line couldn't be said whole.
    Write,
    /// The files hold no state.
    Damaged,
    /// The next entry would end past the limit.
    Full,
    /// More bytes came than an input may have.
    InputLimit,
}

/// Says a line beside the replies, and answers this status where that could be done.
pub fn tell_notice<D: Desk>(line: Result<Bytes, AllocError>, status: Status, desk: &mut D) -> Status
    ensures told { IsTrue (D.tells desk.old) → MatchResult line
        (λ text. IsTold D.Desk result status text desk.old desk.new)
        (λ _. (result ≡ Status.Memory) × (desk.new ≡ desk.old)) }
    ensures files { KeepsFiles D.Desk desk.old desk.new }
    ensures counts { KeepsCounts D.Desk desk.old desk.new }
    ensures faults { NoticeFaults D.Desk result status desk.old desk.new }
    ensures memory { result ≡ Status.Memory → (status ≡ Status.Memory) ⊎ IsErr line }
{
    match line {
        Ok(line) => match tell(desk, line.as_slice()) {
            Ok(()) => status,
            Err(_) => Status::Write,
        },
        Err(AllocError) => Status::Memory,
    }
}

/// Says where the next entry would end, past the limit.
fn tell_full<D: Desk>(alloc: Global, length: u64, desk: &mut D) -> Status
    ensures told { IsTrue (D.tells desk.old)
        → IsTold D.Desk result Status.Full (full_line length) desk.old desk.new }
    ensures counts { KeepsCounts D.Desk desk.old desk.new }
    ensures faults { NoticeFaults D.Desk result Status.Full desk.old desk.new }
{
    tell_notice(write_full(alloc, length), Status::Full, desk)
}

/// Says that the files are damaged.
fn tell_damage<D: Desk>(alloc: Global, file: File, place: u64, desk: &mut D) -> Status
    ensures told { IsTrue (D.tells desk.old)
        → IsTold D.Desk result Status.Damaged (damage_line file place) desk.old desk.new }
    ensures counts { KeepsCounts D.Desk desk.old desk.new }
    ensures faults { NoticeFaults D.Desk result Status.Damaged desk.old desk.new }
{
    tell_notice(write_damage(alloc, file, place), Status::Damaged, desk)
}

/// The status of a run that stopped. Where the next entry would end past the limit, its end is said first.
fn status_of_stop<D: Desk>(alloc: Global, stop: Stop, desk: &mut D) -> Status
    ensures ends { IsTrue (D.tells desk.old) → (c : Content) (s : State) (full_at limit piece : ℕ)
        (bytes : List ℕ) (left : Option (List ℕ)) (start : D)
        → EndsShort D.Desk c s full_at limit stop bytes left piece start desk.old
        → RunEnds D.Desk result c s full_at limit bytes left piece start desk.new }
    ensures told { IsOfRun result }
    ensures counts { KeepsCounts D.Desk desk.old desk.new }
    ensures faults { (before now : ℕ) (start : D) → now ≡ before
        → StopFaults D.Desk stop start desk.old
        → StatusFaults D.Desk result before now start desk.new }
{
    match stop {
        Stop::Disk => Status::Disk,
        Stop::Write => Status::Write,
        Stop::Memory => Status::Memory,
        Stop::Full(length) => tell_full(alloc, length, desk),
    }
}

/// The status of a run's ending.
fn status_of<D: Desk>(alloc: Global, ending: Ending, desk: &mut D) -> Status
    ensures ends { IsTrue (D.tells desk.old) → (c : Content) (s : State) (full_at limit piece : ℕ)
        (bytes : List ℕ) (left : Option (List ℕ)) (start : D)
        → EndsAs D.Desk ending c s full_at limit bytes left piece start desk.old
        → RunEnds D.Desk result c s full_at limit bytes left piece start desk.new }
    ensures told { IsOfRun result }
    ensures counts { KeepsCounts D.Desk desk.old desk.new }
    ensures faults { (before now : ℕ) (start : D)
        → EndingFaults D.Desk ending before now start desk.old
        → StatusFaults D.Desk result before now start desk.new }
{
    match ending {
        Ending::Whole => Status::Ok,
        Ending::Unread => Status::Read,
        Ending::Past => Status::InputLimit,
        Ending::Stopped(stop) => status_of_stop(alloc, stop, desk),
    }
}

/// Answers the lines of the input by a server that was started.
fn serve_lines<S: Source, D: Desk>(
    alloc: Global,
    server: Server,
    piece: &mut [u8],
    source: &mut S,
    desk: &mut D,
) -> Status
    requires room { 0 < length piece.old }
    requires stands { Stands D.Desk server.journal desk.old }

    ensures ends { IsTrue (D.tells desk.old) → (c : Content) (bytes : List ℕ)
        → IsWell reader (server_state server)
        → IsCurrent server.journal c (D.state desk.old)
        → S.left source.old ≡ Some bytes
        → RunEnds D.Desk result c (server_state server) server.journal.limit INPUT_LIMIT bytes
        (S.left source.new) (S.piece source.new) desk.old desk.new }
    ensures told { IsOfRun result }
    ensures counts { KeepsCounts D.Desk desk.old desk.new }
    ensures faults { StatusFaults D.Desk result (S.faults source.old) (S.faults source.new)
        desk.old desk.new }
{
    let mut session = Session::new(alloc, server);
    let ending = run(INPUT_LIMIT, &mut session, piece, source, desk);
    status_of(alloc, ending, desk)
}

/// Starts a server on the files, and answers the lines of the input by it.
fn serve_files<S: Source, D: Desk>(
    alloc: Global,
    limit: u64,
    source: &mut S,
    desk: &mut D,
) -> Status
    requires some { 64 ≤ limit }
    requires limit { limit ≤ 2 ^ 30 }

    ensures ends { IsTrue (D.tells desk.old) → (bytes : List ℕ) → S.left source.old ≡ Some bytes
        → Ended D.Desk result limit INPUT_LIMIT bytes (S.left source.new) (S.piece source.new)
        (source.new ≡ source.old) desk.old desk.new }
    ensures told { IsOfRun result }
    ensures counts { KeepsCounts D.Desk desk.old desk.new }
    ensures faults { StatusFaults D.Desk result (S.faults source.old) (S.faults source.new)
        desk.old desk.new }
{
    let Ok(mut piece) = new_piece(alloc) else {
        return Status::Memory;
    };
    match Server::start(alloc, limit, &mut piece, desk) {
        Ok(server) => serve_lines(alloc, server, &mut piece, source, desk),
        Err(StartFault::Disk) => Status::Disk,
        Err(StartFault::Memory) => Status::Memory,
        Err(StartFault::Damaged(file, place)) => tell_damage(alloc, file, place, desk),
    }
}

/// All that the program does. The words are `run`, or `run --limit N` with 64 to 2^30 for N, the offset past which no
/// entry that is taken ends; without it, it is 2^30. A file that is longer is opened all the same. The files are
/// opened, and each line of the source is answered by one line said on the desk, in order, when its newline or the
/// end of the input has come. What a line does is on the disk before its reply is said. The answers and the files'
/// entries are a run over the lines, as `yw_model` defines it, from the state on that the files held.
///
/// Or the words are `check`: the source gives the TOML text of one specification, and one line says whether it is
/// accepted, or else the first fault, as `Finding` of `yw_verdict` says it. No file is touched.
///
/// Or the words are `prove`: the source gives one text in JSON with a specification and weights of one of its nets, and one line says whether
/// they are a certificate that the net completes properly, or else the first fault, as `ProofFinding` of `yw_proof` says it. No file is touched.
///
/// Or the words are `bench START COUNT`, with numbers of at most 2,147,483,647 and 100,000: a server in memory answers a large input that these
/// two make, as `bench` does, and one line says what it comes to. No file is touched, and the source isn't called.
///
/// It answers `Usage` exactly where the words are others, and then calls neither source nor desk; `Disk` only
/// where a call of the files failed, `Read` only where one of the source did, `Write` only where a say did;
/// `Damaged` only where the synced files hold no state, and there unless a call of the files failed, no memory was
/// left or the line couldn't be said; `Full` only where an entry would end past N, and no entry is taken that does;
/// `InputLimit` only where more than `INPUT_LIMIT` bytes came; `Findings` only where a text that is judged isn't
/// accepted; `Memory` where no memory was left; and no other status but `Ok`. No failed call is passed over: under
/// `Disk`, `Read` and `Write` only calls of that kind have failed, and under each other status none has.
pub fn serve<S: Source, D: Desk>(
    alloc: Global,
    words: &[String],
    source: &mut S,
    desk: &mut D,
) -> Status
    // Read `served` and `crash` first; the other clauses say more of each status.

    // Where all is answered, the files hold the state that the lines lead to from the one that they held, now and after a crash,
    // and all replies are said.
    ensures served { OnRun (D.tells desk.old) words.now (S.left source.old) (λ limit bytes.
        result ≡ Status.Ok → Serves D.Desk (lines bytes true) desk.old desk.new) }

    // Where the files held a state, a crash at any moment from the opening's syncs on leaves the state to which a prefix of the
    // lines leads, with all that was answered; and up to the syncs what it might have left before the call.
    ensures crash { OnRun (D.tells desk.old) words.now (S.left source.old) (λ limit bytes.
        (c : Content) (s : State) → HoldNow c s (D.state desk.old) → LeavesFromSyncs D.Desk result
        (HoldsPrefix limit s (lines bytes true) (D.state desk.old).said) desk.old desk.new) }

    // What each status says of the input, the files and the output, at every moment since the call began. Where the files
    // aren't opened, the source isn't called.
    ensures ends { OnRun (D.tells desk.old) words.now (S.left source.old) (λ limit bytes.
        Ended D.Desk result limit INPUT_LIMIT bytes (S.left source.new) (S.piece source.new)
        (source.new ≡ source.old) desk.old desk.new) }

    // Each answer has its cause, and no failed call is passed over: of reads, calls of the files and says none has failed but
    // that which is answered.
    ensures faults { StatusFaults D.Desk result (S.faults source.old) (S.faults source.new)
        desk.old desk.new }
    ensures of_run { (limit : ℕ) → IsRun words.now limit → IsOfRun result }
    ensures of_judging { IsJudging words.now → IsOfJudging result }
    ensures usage { (result ≡ Status.Usage)
        ↔ (((limit : ℕ) → ¬ (IsRun words.now limit)) × ¬ (IsJudging words.now)
        × ((start count : ℕ) → ¬ (IsBench words.now start count))) }
    ensures usage_calls_nothing { result ≡ Status.Usage
        → (source.new ≡ source.old) × (desk.new ≡ desk.old) }

    // Where the files hold a state, nothing failed and the input is within its limit, all is answered, or an entry had no room,
    // or no memory was left.
    ensures complete { OnRun (D.tells desk.old) words.now (S.left source.old) (λ limit bytes.
        (c : Content) (s : State) → HoldNow c s (D.state desk.old) → length bytes ≤ INPUT_LIMIT
        → NoneRose D.Desk (S.faults source.old) (S.faults source.new) desk.old desk.new
        → IsUnfailed result) }

    // The desk tells as it did, so that the next run goes on from here, and no count of its faults has fallen.
    ensures run_counts { (limit : ℕ) → IsRun words.now limit
        → KeepsCounts D.Desk desk.old desk.new }

    // A text that is checked has the verdict that is said, and no other; also where the desk doesn't tell what was said.
    ensures checks { IsTrue (D.tells desk.old)
        → OnWord (codes "check") words.now (S.left source.old) (λ bytes.
        Judges D.Desk ⟦<Finding as Judgement>⟧ result bytes (S.left source.new) desk.old desk.new) }
    ensures check_tells { OnWord (codes "check") words.now (S.left source.old) (λ bytes.
        TellsFound ⟦<Finding as Judgement>⟧ bytes result) }

    // So has a text that gives a certificate: it is a yes exactly where the weights are one.
    ensures proves { IsTrue (D.tells desk.old)
        → OnWord (codes "prove") words.now (S.left source.old) (λ bytes.
        Judges D.Desk ⟦<ProofFinding as Judgement>⟧ result bytes (S.left source.new) desk.old desk.new) }
    ensures proof_tells { OnWord (codes "prove") words.now (S.left source.old) (λ bytes.
        TellsFound ⟦<ProofFinding as Judgement>⟧ bytes result) }
    ensures judging_keeps_files { IsJudging words.now → KeepsFiles D.Desk desk.old desk.new }
    ensures judging_completes { IsJudging words.now
        → ¬ (Rose (S.faults source.old) (S.faults source.new))
        → ¬ (Rose (D.say_faults desk.old) (D.say_faults desk.new))
        → (result ≡ Status.Ok) ⊎ (result ≡ Status.Findings) ⊎ (result ≡ Status.Memory) }

    // What is said of a bench is what its lines come to, whatever the desk that is given.
    ensures benches { (start count : ℕ) → IsBench words.now start count
        → SaysBench D.Desk result start count desk.old desk.new }
    ensures bench_reads_nothing { (start count : ℕ) → IsBench words.now start count
        → source.new ≡ source.old }
{
    if let Some(limit) = file_limit(words) {
        return serve_files(alloc, limit, source, desk);
    }
    if is_word(words, "check") {
        return serve_judging::<Finding, S, D>(alloc, source, desk);
    }
    if is_word(words, "prove") {
        return serve_judging::<ProofFinding, S, D>(alloc, source, desk);
    }
    if let Some((start, count)) = bench_numbers(words) {
        return serve_bench(alloc, start, count, desk);
    }
    Status::Usage
}
