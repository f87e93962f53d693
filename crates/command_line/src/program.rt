ghost use Rattle.std.specs.Prelude.{◌≡◌, ◌<◌, ◌≤◌, ◌⊎◌, ℕ, [], true, IfErr, IfOk};
ghost use Rattle.std.specs.IoError.{error_kind};
ghost use Rattle.std.specs.Process.{exit_status};
ghost use Rattle.command_line.specs.Running.{AskedNothing, EndsWith, HasRefused, IsNotBegun};
ghost use Rattle.command_line.specs.Running.{PrintsFiles, RunsFiles, TapsMirror};
ghost use Rattle.command_words.specs.Clashes.{NoneClash};
ghost use Rattle.command_words.specs.Pipes.{ArePiped};
ghost use Rattle.command_words.specs.Words.{Refuses, words_of};
ghost use Rattle.release_taps.specs.Split.{AsksForTaps};
ghost use Rattle.world_real.specs.Real.{real_ledger};
ghost use Rattle.world_told.specs.Events.{shown_after};
ghost use Rattle.world_told.specs.Honest.{IsHonest};
ghost use Rattle.world_told.specs.Ledgers.{told_ledger};
ghost use Rattle.world_told.specs.Orderly.{are_orderly};
ghost use Rattle.world_told.specs.Sent.{name_of, sent_to};

use crate::unreadable::tell_unreadable;
use crate::{RealTap, SilentWorld, exit_of, run_words};
use command_words::{
    Clash, Names, ReportOn, name_streams, one_file, read_words, tell_drops, tell_more,
};
use job_commands::{Status, StatusText};
use plain_text::Text;
use release_taps::Seat;
use std::env::{self, Args};
use std::io;
use std::io::IsTerminal;
use std::process::ExitCode;
use std::rt::{self, Env, Files};
use std::sync::Wait;
use std::thread::Threads;
use var_locks::OpenGate;
use world_io::Clock;
use world_real::{ProgressLine, RealClock, RealWorld, Silence};
use world_told::Told;

/// Takes away what stands in the line after the cursor (ECMA-48, "erase in line").
const CLEAR_LINE: &str = "\x1b[K";

/// What the program comes to.
#[derive(Drop)]
pub struct Ended<W, V, T, X> {
    /// The number that it ends with.
    pub code: ExitCode,
    pub status: Status,
    /// The words, with the names of the streams that `-` stands for; none where nothing was asked of the files.
    pub words: Vec<Text>,
    pub report: ReportOn,
    /// The files, with the record of their calls.
    pub world: W,
    /// Standard output, on which the lines of a watched capture were printed, with such a record.
    pub out: V,
    /// The taps, each in its seat; none where the run was not begun.
    pub taps: Vec<Seat<T>>,
    /// The files in which the one of a tap could not be created, which have counted a fault.
    pub refused: Option<X>,
    /// Two names that were told to be of one file, of which one was to be written.
    pub same: Option<Clash>,
}

/// What it comes to over the files of the system.
pub type EndedOnFiles<'a, R, C, E> = Ended<
    Told<RealWorld<&'a R, ProgressLine<'a, C, E>>>,
    Told<SilentWorld<'a, R>>,
    RealTap<'a, R>,
    SilentWorld<'a, R>,
>;

/// The program: does what its arguments ask for over the files of the system, by its clock and on
/// its threads, tells what was not done, and ends with the number of the status, which is 9 at
/// most. Standard error gets a line of progress, where it is a terminal.
#[tactic(auto, using(crate::proofs::ExitCodes::most_number))]
pub fn run_program<
    R: Env
        + AllocGlobal
        + Files
        + Print
        + Eprint
        + Threads
        + Wait
        + Sync
        + rt::Clock
        + Clone
        + Drop,
    E: Eprint + IsTerminal,
>(rt: &R, errors: &E) -> ExitCode
    ensures number { exit_status result ≤ 9 }
{
    let Ok(own) = rt.clone() else {
        return end(rt, Status::NoMemory);
    };
    let clock = RealClock::new(own);
    let arguments = env::args(rt);
    let readable = arguments.is_ok();
    let code = run_arguments(rt, arguments, &clock, errors, rt).code;
    if !readable {
        let _ = tell_unreadable(rt);
    }
    code
}

/// Does what the arguments ask for over the files of the system, and gives back their record. Where the name of an
/// output is told to be of one file with another name (`one_file`), it does nothing. `names` tells that.
///
/// A word `-` stands for standard input or standard output (`ArePiped`), and what is promised is of the words after it
/// is replaced. Where a file that is written is standard output, the report stands on standard error.
///
/// The world of the files has a record of its calls. So what is promised by a beginning holds of the program: whatever
/// bytes stood under the names when it began, if the system answered its reads as files with those bytes do. There is
/// such a beginning (`some_beginning`), since the calls are orderly: where no name was opened twice, or else where both
/// readings gave the same bytes.
///
/// It ends with `BadWords` where the arguments ask for nothing that it does, are no text, name one file twice, or read
/// standard input twice; with `ReadFault` and `WriteFault` where a world counted a fault; and with `NoMemory` where
/// memory ran out.
pub fn run_arguments<
    'a,
    R: AllocGlobal + Files + Print + Eprint + Threads + Wait + Sync,
    C: Clock + Sync,
    E: Eprint + IsTerminal,
    N: Names,
>(
    rt: &'a R,
    arguments: io::Result<Args>,
    clock: &'a C,
    errors: &'a E,
    names: &N,
) -> EndedOnFiles<'a, R, C, E>
    ensures number { EndsWith result.status (exit_status result.code) }
    ensures piped { IfOk arguments (λ all.
        AskedNothing (N.may names.now) result.same (words_of all) result.status result.world.calls
        ⊎ ArePiped (words_of all) result.words.items result.report) }
    ensures runs { IfOk arguments (λ all.
        AskedNothing (N.may names.now) result.same (words_of all) result.status result.world.calls
        ⊎ RunsFiles (C.may clock.now) (λ w. (real_ledger w).write_faults) result.refused
        result.words.items result.status result.world.calls) }
    ensures prints { IfOk arguments (λ all.
        AskedNothing (N.may names.now) result.same (words_of all) result.status result.world.calls
        ⊎ PrintsFiles result.words.items result.status result.world.calls result.out.calls) }
    ensures mirrors { IfOk arguments (λ all.
        AskedNothing (N.may names.now) result.same (words_of all) result.status result.world.calls
        ⊎ ((pairs : ℕ) → AsksForTaps result.words.items pairs
        → IsNotBegun (λ w. (real_ledger w).write_faults) result.refused result.status
        [] result.world.calls ⊎ TapsMirror (λ p t. IsHonest p t.calls)
        (λ p t. shown_after p t.calls) (told_ledger real_ledger)
        (λ t. (t.faults ≡ 0) × (t.lacks ≡ 0)) (λ t. sent_to t.file t.world.calls)
        (λ t. t.faults) (λ t. t.lacks) (λ t. name_of t.file t.world.calls)
        result.words.items pairs result.world result.taps.items)) }
    ensures apart { IfOk arguments (λ all.
        AskedNothing (N.may names.now) result.same (words_of all) result.status result.world.calls
        ⊎ NoneClash (N.may names.now) result.words.items result.report) }
    ensures no_words { IfErr arguments (λ error.
        Refuses (error_kind error) result.status × (result.world.calls ≡ [])) }
    ensures orderly { are_orderly result.world.calls ≡ true }
    ensures read_fault { result.status ≡ Status.ReadFault
        → 0 < (real_ledger result.world.world).read_faults }
    ensures write_fault { result.status ≡ Status.WriteFault
        → (0 < (real_ledger result.world.world).write_faults)
        ⊎ ((0 < (real_ledger result.out.world).write_faults)
        ⊎ HasRefused (λ w. (real_ledger w).write_faults) result.refused) }
{
    let typed = match read_words(rt.alloc(), arguments) {
        Ok(typed) => typed,
        Err(status) => {
            let code = end(rt, status);
            return end_at_once(rt, clock, errors, code, status, None);
        }
    };
    let piped = match name_streams(rt.alloc(), typed.as_slice()) {
        Ok(piped) => piped,
        Err(status) => {
            let code = end_more(rt, typed.as_slice(), status);
            return end_at_once(rt, clock, errors, code, status, None);
        }
    };
    if let Some(clash) = one_file(names, piped.words.as_slice(), piped.report) {
        let code = end_more(rt, typed.as_slice(), Status::BadWords);
        return end_at_once(rt, clock, errors, code, Status::BadWords, Some(clash));
    }
    let line = ProgressLine::new(clock, errors, piped.report == ReportOn::Errors);
    let world = Told::of(RealWorld::new(rt.alloc(), rt, line));
    let out = Told::of(RealWorld::new(rt.alloc(), rt, Silence));
    let run = run_words(rt, piped.words.as_slice(), world, out, clock, &OpenGate);
    let idle = run.world.world().notice().idle_events();
    end_on_terminal(rt, errors, piped.words.as_slice(), run.status, idle);
    Ended {
        code: end_more(rt, typed.as_slice(), run.status),
        status: run.status,
        words: piped.words,
        report: piped.report,
        world: run.world,
        out: run.out,
        taps: run.taps,
        refused: run.refused,
        same: None,
    }
}

/// What the program comes to where nothing is asked of the files.
fn end_at_once<'a, R: AllocGlobal + Files + Print, C: Clock, E: Eprint + IsTerminal>(
    rt: &'a R,
    clock: &'a C,
    errors: &'a E,
    code: ExitCode,
    status: Status,
    same: Option<Clash>,
) -> EndedOnFiles<'a, R, C, E>
    ensures code { result.code ≡ code }
    ensures status { result.status ≡ status }
    ensures same { result.same ≡ same }
    ensures none { result.world.calls ≡ [] }
{
    let line = ProgressLine::new(clock, errors, false);
    Ended {
        code,
        status,
        words: Vec::new(rt.alloc()),
        report: ReportOn::Output,
        world: Told::of(RealWorld::new(rt.alloc(), rt, line)),
        out: Told::of(RealWorld::new(rt.alloc(), rt, Silence)),
        taps: Vec::new(rt.alloc()),
        refused: None,
        same,
    }
}

/// On a terminal a line of progress is taken away, where there may be one, and it is told how many events did nothing and
/// what a run dropped.
fn end_on_terminal<R: AllocGlobal + Files + Eprint, E: Eprint + IsTerminal>(
    rt: &R,
    errors: &E,
    words: &[Text],
    status: Status,
    idle: u64,
) {
    if !errors.is_terminal() {
        return;
    }
    let _ = errors.eprint(CLEAR_LINE);
    if idle > 0 {
        let _ = eprintln!(errors; "events that did nothing (none or down): {idle}");
    }
    if status == Status::Done {
        let _ = tell_drops(rt, words);
    }
}

/// Tells what was not done, and ends with the number of the status.
#[tactic(auto, using(crate::proofs::ExitCodes::ends_with))]
fn end<R: Eprint>(rt: &R, status: Status) -> ExitCode
    ensures { EndsWith status (exit_status result) }
{
    exit_of(tell(rt, status))
}

/// Tells what was not done, and what helps, and ends with the number of the status.
#[tactic(auto, using(crate::proofs::ExitCodes::ends_with))]
fn end_more<R: AllocGlobal + Files + Eprint>(rt: &R, words: &[Text], status: Status) -> ExitCode
    ensures { EndsWith status (exit_status result) }
{
    let told = tell(rt, status);
    let _ = tell_more(rt, words, told);
    exit_of(told)
}

/// Tells on standard error what was not done. The status stays, unless telling fails.
fn tell<R: Eprint>(rt: &R, status: Status) -> Status
    ensures done { status ≡ Status.Done → result ≡ Status.Done }
    ensures told { (result ≡ status) ⊎ (result ≡ Status.WriteFault) }
{
    if status == Status::Done {
        return status;
    }
    match rt.eprintln(StatusText(status)) {
        Ok(()) => status,
        Err(_) => Status::WriteFault,
    }
}
