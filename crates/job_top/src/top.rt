ghost use Rattle.std.specs.Prelude.{◌≡◌, ◌+◌, ◌<◌, ◌≤◌, ◌-◌, ◌^◌, ◌↔◌, None, Err, OnOk};
ghost use Rattle.std.specs.Prelude.{IsErrOf};
ghost use Rattle.plain_text.specs.declared.limit.Limit.{Limit as LimitKind};
ghost use Rattle.output_files.specs.Written.{WritesFiles};
ghost use Rattle.run_writes.specs.Run.{CanRun, HasBegunRun, HasRun, HasStopped};
ghost use Rattle.job_commands.specs.Run.{outputs_of};
ghost use Rattle.job_commands.specs.Run.{script_of, setting_for};
ghost use Rattle.job_commands.specs.Words.{asked, IfAsks, live_names};
ghost use Rattle.job_commands.specs.Words.{names_of};
ghost use Rattle.world_io.specs.World.{Start, WritingFailed};
ghost use Rattle.job_commands.specs.Answers.{AnswersAs};
ghost use Rattle.job_top.specs.Commands.{meaning_of};
ghost use Rattle.job_top.specs.Run.{run_meaning};

use crate::chain::chain;
use crate::drill::drill;
use crate::hand::hand;
use crate::live::live;
use crate::picture::picture;
use crate::resume::resume;
use crate::trace::trace;
use box_conf::BoxKind;
use hand_command::run_script;
use job_commands::{
    Command, Inputs, RunWords, Status, check_released, make_capture, play_capture, read_command,
    read_inputs, read_live_words, run_outcome,
};
use plain_text::Text;
use run_writes::{RunError, RunFiles, ScriptRun};
use std::alloc::Global;
use std::sync::Wait;
use std::thread::Threads;
use var_locks::Gate;
use world_io::{Clock, World};

/// Runs the box on the inputs, by the events of the script, and writes the outputs.
fn run_box<W: World>(
    alloc: Global,
    world: &mut W,
    names: RunWords<'_>,
    inputs: Inputs,
) -> Result<(), RunError>
    requires inputs { CanRun (script_of inputs) }
    requires room { (W.ledger world.old).given < 2 ^ 32 - 2 }
    requires apart { names.released.now ≡ names.schedule.now → ⊥ }
    ensures whole { (p : Start) → W.honest p world.new → OnOk result (HasRun (setting_for inputs)
        (outputs_of (names_of names.entry)) inputs.events
        (W.shows p world.old) (W.shows p world.new)) }
    ensures limit { (p : Start) → W.honest p world.new → (limit : LimitKind)
        → result ≡ Err (RunError.Limit limit) → HasStopped (setting_for inputs) (outputs_of
        (names_of names.entry)) inputs.events limit (W.shows p world.old) (W.shows p world.new) }
    ensures in_order { (p : Start) → W.honest p world.new → HasBegunRun (setting_for inputs)
        (outputs_of (names_of names.entry)) inputs.events
        (W.shows p world.old) (W.shows p world.new) }
    ensures writes_files { WritesFiles W.ledger W.healthy 2 world.old world.new }
    ensures cause { IsErrOf result RunError.WriteFault
        → WritingFailed W.ledger W.healthy world.old world.new }
    ensures before { (p : Start) → W.honest p world.new → W.honest p world.old }
{
    let files = RunFiles {
        released: names.released,
        schedule: names.schedule,
    };
    let run = ScriptRun {
        threads: inputs.conf.threads,
        tags: inputs.conf.tags,
        seed: inputs.conf.seed,
        unit: inputs.capture.unit,
        packets: inputs.capture.packets,
        events: inputs.events,
    };
    match inputs.conf.kind {
        BoxKind::Count(count) => run_script(alloc, world, files, run, count),
        BoxKind::Monitor(monitor) => run_script(alloc, world, files, run, monitor),
        BoxKind::Nat(nat) => run_script(alloc, world, files, run, nat),
        BoxKind::Balancer(balancer) => run_script(alloc, world, files, run, balancer),
    }
}

/// The command `run`: all input files are judged before an output is created.
fn run<W: World>(alloc: Global, world: &mut W, names: RunWords<'_>) -> Status
    requires room { (W.ledger world.old).given < 2 ^ 31 }
    requires apart { names.released.now ≡ names.schedule.now → ⊥ }
    ensures { AnswersAs W.honest W.shows W.ledger W.healthy
        (run_meaning (names_of names.entry)) result world.old world.new }
{
    match read_inputs(alloc, world, names) {
        Ok(inputs) => run_outcome(run_box(alloc, world, names, inputs)),
        Err(status) => status,
    }
}

/// The commands that wait for nobody: all but `live`. It does what `ftmb` does for their words.
///
/// It takes no runtime that may wait, so it is proved to return.
pub fn serial<W: World>(alloc: Global, words: &[Text], world: &mut W) -> Status
    requires room { (W.ledger world.old).given < 2 ^ 31 }
    requires no_rounds { live_names words.now ≡ None }

    // Words that ask for no command change nothing.
    ensures bad_words { result ≡ Status.BadWords ↔ asked words.now ≡ None }
    ensures nothing_asked { result ≡ Status.BadWords → world.new ≡ world.old }

    // Others are answered as the command means it.
    ensures answers { IfAsks words.now (λ command. AnswersAs W.honest W.shows W.ledger W.healthy
        (meaning_of (λ t. ⊥) command) result world.old world.new) }

    // It leaves room for further commands.
    ensures given { (W.ledger world.new).given ≤ (W.ledger world.old).given + 8 }
{
    match read_command(words) {
        Some(Command::Run(names)) => run(alloc, world, names),
        Some(Command::Make(words)) => make_capture(alloc, world, words),
        Some(Command::Play(names)) => play_capture(alloc, world, names),
        Some(Command::Check(names)) => check_released(alloc, world, names),
        Some(Command::Drill(names)) => drill(alloc, world, names),
        Some(Command::Trace(names)) => trace(alloc, world, names),
        Some(Command::Picture(names)) => picture(alloc, world, names),
        Some(Command::Chain(names)) => chain(alloc, world, names),
        Some(Command::Hand(names)) => hand(alloc, world, names),
        Some(Command::Resume(names)) => resume(alloc, world, names),
        Some(Command::Live(_)) => unreachable!(),
        None => Status::BadWords,
    }
}

/// The top call: does what the words ask of the world, and answers what it came to.
///
/// `run BOX CAPTURE SCRIPT RELEASED SCHEDULE`, five names of files of which the two outputs differ: the box is run on
/// the packets of the capture by the events of the script. RELEASED is the capture of the packets that were released,
/// SCHEDULE the moves of the run in which it ends, and the report has a line for each event and a last one. An output
/// is created only when all input files are accepted; the first that is refused, in the order of the words, decides the
/// status.
/// After each event the records of what it released are written, and then its line, so the report never tells of a
/// packet that RELEASED lacks; SCHEDULE comes at the end, before the last line. Where the run would pass a limit it
/// stops, and what was released before stays.
///
/// `live BOX CAPTURE PLAN RELEASED SCHEDULE SCRIPT`, six names of files of which the three outputs differ: the box is
/// run on the packets of the capture as the plan says, each of its threads by a worker of its own, on as many threads
/// of the machine as it gives. SCRIPT is the text of the events that happened, and the other outputs and the report are
/// those that `run` leaves for this script. Each line of SCRIPT is written before what its event leaves. Where the run
/// or the script would pass a limit the run stops.
///
/// `make SEED N CAPTURE`, two numbers of which N is at most 65,536, and the name of a file: N packets are made from the
/// seed and written to CAPTURE, and then the report says how many.
///
/// `play BOX CAPTURE SCHEDULE OUT`, four names: the schedule is played by the box without logs and crashes, on the
/// whole capture. OUT is the capture of what it sends out, in its order, and the report says how many packets that are.
/// Where the schedule is not legal, its first illegal move is told as bad input, and nothing is created.
///
/// `check BOX CAPTURE SCHEDULE RELEASED`, four names of inputs: is the schedule legal, and has each packet of the
/// capture RELEASED an emission of its own in it? Then the report says how many packets were found. Else it is refuted:
/// by the first illegal move, or else by the first such packet.
///
/// `drill BOX CAPTURE EVERY RELEASED SCHEDULE`, two names of inputs, a number from 1, and two names of outputs, which
/// differ: the box is run on the capture as by the script `flow EVERY`, `snap`, `store`, `crash`, `recover`, as often
/// as there are packets for, and `settle`. RELEASED and SCHEDULE are those that `run` leaves for it. The report says
/// what became of the packets, what the crashes cost, and whether the same packets left as in a run beside it without
/// crashes. The outputs are created when both runs are done.
///
/// `trace BOX CAPTURE SCRIPT TABLE`, four names: the box is run on the capture by the events of the script, and TABLE
/// gets a heading and a line for each packet that was fed: which thread it went to, and what became of it. The report
/// is the last line of that of `run`. TABLE is created when all is done; where the run would pass a limit, nothing is
/// written.
///
/// `picture BOX CAPTURE SCRIPT PICTURE`, four names: the box is run on the capture by the events of the script, and
/// PICTURE gets the picture of the run, with a mark for each move and for each released output, or, of a long run, an
/// overview. The report is the last line of that of `run`. PICTURE is created when all is done; where the run would
/// pass a limit, nothing is written.
///
/// `chain BOX1 BOX2 CAPTURE SCRIPT MIDDLE RELEASED SCHEDULE1 SCHEDULE2`, eight names of files of which the four outputs
/// differ: two boxes are run, each by its own events of the script, the first on the packets of the capture, and the
/// second on what the first released, in order of release. MIDDLE is the capture of what the first released, RELEASED
/// that of what the second did, and SCHEDULE1 and SCHEDULE2 are the moves of the runs in which they end. The report has
/// a line for each event, with the number of its box, and a last one for each box. The outputs are created, in their
/// order, only when all input files are accepted, and each event is written as that of `run`.
///
/// `hand BOX CAPTURE SCRIPT RELEASED HANDOVER`, five names of files of which the two outputs differ: the box is run on
/// the packets of the capture by the events of the script, as by `run`. Where the system is ready then, a snapshot is
/// made and stored, the master crashes and a new one recovers, with lines of their own; HANDOVER is the text of the
/// system's whole state, and the report has its last line. Where the system is not ready, the status says why, HANDOVER
/// is empty, and there is no last line. Nor is there where that text would be larger than a file that is read may be, or
/// have more lines.
///
/// `resume BOX CAPTURE HANDOVER SCRIPT RELEASED SCHEDULE`, six names of files of which the two outputs differ: a new
/// system goes on from the state that HANDOVER is the text of, on the same box and capture, by the events of the
/// script. RELEASED is the capture of the packets that these events released, and SCHEDULE the moves of the whole run,
/// from its first move. A text that is of no system on this box and capture is refused, by its first fault, before the
/// script is read.
///
/// What the clauses say of bytes they say by each beginning, the bytes that stood under each name then, for which the
/// world's answers were honest: those of files with these bytes.
///
/// In a healthy world, a command whose words are right, whose inputs are there and are accepted,
/// and that passes no limit, is done, unless memory runs out or the schedule or the released packets are refused, or
/// the system of `hand` is not ready. There a read fault says that the first input that is not accepted is not there.
///
/// A world that has given fewer than 2^31 numbers has room for the files of any command, which are eight at most.
pub fn ftmb<W: World, C: Clock + Sync, G: Gate + Sync, R: AllocGlobal + Threads + Wait + Sync>(
    rt: &R,
    words: &[Text],
    world: &mut W,
    clock: &C,
    gate: &G,
) -> Status
    requires room { (W.ledger world.old).given < 2 ^ 31 }

    // Words that ask for no command change nothing.
    ensures bad_words { result ≡ Status.BadWords ↔ asked words.now ≡ None }
    ensures nothing_asked { result ≡ Status.BadWords → world.new ≡ world.old }

    // Others are answered as the command means it.
    ensures answers { IfAsks words.now (λ command. AnswersAs W.honest W.shows W.ledger W.healthy
        (meaning_of (C.may clock.now) command) result world.old world.new) }

    // It leaves room for further commands.
    ensures given { (W.ledger world.new).given ≤ (W.ledger world.old).given + 8 }
{
    match read_live_words(words) {
        Some(names) => live(rt, world, names, clock, gate),
        None => serial(rt.alloc(), words, world),
    }
}
