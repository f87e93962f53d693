ghost use Rattle.std.specs.Prelude.{◌≡◌, IfOk};
ghost use Rattle.command_words.specs.Printing.{part_of, whole_help};

use crate::topic::Topic;
use plain_text::{NoMemory, Text};
use std::alloc::Global;

/// The name and the version of the program, as one line.
pub const VERSION: &str = "ftmb 0.1.0\n";

// The parts of the help, in lines that end in a newline: how each command is called and what it does, its files; and
// last what holds of all commands.

pub const RUN: &str = "\
ftmb run BOX CAPTURE SCRIPT RELEASED SCHEDULE

Performs a script on the packets of a capture, with a box. After each event
what it released is written, and then its line of the report.

  BOX       text that names the box, read
  CAPTURE   capture of the packets to play, pcap or pcapng, read
  SCRIPT    text that says what is to happen, one event on each line, read:
            `feed N`, `time N`, `step T`, `step T = V`, `log T N`, `out T J`,
            `late E log T N`, `late E out T J`, `cut log T N LEN`,
            `cut out T J LEN`, `snap`, `store`, `crash`, `recover`,
            `show V`, `settle`, `flow N`, `auto S N`
  RELEASED  capture of the packets that were released, written
  SCHEDULE  text of the moves of the run in which it ends, written
";

pub const LIVE: &str = "\
ftmb live BOX CAPTURE PLAN RELEASED SCHEDULE SCRIPT

Runs the box as the plan says, its threads alongside each other, and writes the
script of what happened. `run` with this script leaves the same report,
RELEASED and SCHEDULE.

  PLAN      text that says what the threads are to do, one line each, read:
            `feed N`, `limit T M`, `take T F`, `lose log T N`, `lose out T N`,
            `round`, `snap`, `store`, `crash`, `recover`, `show V`, `settle`
  SCRIPT    text of the events that happened, written
";

pub const DRILL: &str = "\
ftmb drill BOX CAPTURE EVERY RELEASED SCHEDULE

Runs the box with a crash after every EVERY packets, and once more without
crashes. Reports what became of the packets, and what was lost or changed.

  EVERY     number from 1: so many packets come in, a snapshot is stored, the
            master crashes and recovers, as often as there are packets for;
            then all is settled
  RELEASED  capture of the packets that were released, written
  SCHEDULE  text of the moves of the run in which it ends, written
";

pub const TRACE: &str = "\
ftmb trace BOX CAPTURE SCRIPT TABLE

Performs a script as `run` does, and says what became of each packet.

  TABLE     text with a heading and a line for each packet that came in, with
            tabs: its number, its thread, its number there, the epoch and the
            event with which it left, and its fate, written
";

pub const PICTURE: &str = "\
ftmb picture BOX CAPTURE SCRIPT PICTURE

Performs a script as `run` does, and draws it.

  PICTURE   SVG: each thread's moves, what arrived, waited and was released,
            crashes and epochs; of more than 400 moves an overview, written
";

pub const CHAIN: &str = "\
ftmb chain BOX1 BOX2 CAPTURE SCRIPT MIDDLE RELEASED SCHEDULE1 SCHEDULE2

Performs a script of two boxes. What the first releases comes in to the second,
in order of release.

  SCRIPT    text, a line each, read: `1` or `2`, which says whose event it is,
            and then an event as of `run`
  MIDDLE    capture of the packets that the first released, written
  RELEASED  capture of the packets that the second released, written
  SCHEDULE1, SCHEDULE2
            text of the moves of the one and of the other, written
";

pub const HAND: &str = "\
ftmb hand BOX CAPTURE SCRIPT RELEASED HANDOVER

Performs a script as `run` does, and hands the box over: a snapshot is stored,
the master crashes and recovers, and its whole state is written as a text.

  HANDOVER  text of the state, from which another process goes on, written
";

pub const RESUME: &str = "\
ftmb resume BOX CAPTURE HANDOVER SCRIPT RELEASED SCHEDULE

Goes on from a handover, with the same box and capture, by a further script.
Nothing that was released before is released again.

  HANDOVER  text of the state, read
";

pub const TAP: &str = "\
ftmb tap NAME .. run BOX CAPTURE SCRIPT RELEASED SCHEDULE
ftmb tap NAME .. live BOX CAPTURE PLAN RELEASED SCHEDULE SCRIPT

Does what follows the taps. What RELEASED took is written to each NAME too. If
one fails, no more is written to it, and the run goes on.

  NAME      copy of RELEASED, written; 1 to 64 times `tap NAME`
";

pub const PLAY: &str = "\
ftmb play BOX CAPTURE SCHEDULE OUT

Plays a schedule on the whole capture, with a box that logs nothing and never
crashes, and writes the packets that it sends out.

  SCHEDULE  text of moves, one on each line, read: `T`, `T = V`
  OUT       capture of the packets that were sent out, written
";

pub const CHECK: &str = "\
ftmb check BOX CAPTURE SCHEDULE RELEASED

Checks that a schedule is legal, and that each packet of a released capture
has an emission of its own in it.

  RELEASED  capture of the packets that were released, read
";

pub const MAKE: &str = "\
ftmb make SEED N CAPTURE

Makes N packets, at most 65,536, from a number, always the same ones.

  CAPTURE   libpcap savefile of the packets, written
";

pub const WATCH: &str = "\
ftmb watch CAPTURE SKIP QUOTA

Prints a line `SECONDS FRACTION LENGTH` for each packet after the first SKIP,
for QUOTA packets at most, as they are read.
";

pub const GENERAL: &str = "\
The report is written on standard output. `-` is standard input in place of a
file that is read, and standard output in place of one that is written; the
report is then written on standard error. A file named `-` is `./-`.

`ftmb COMMAND --help`, or -h, prints what is said here of that command alone.

Exit status: 0 done, 1 refuted, 2 bad words, 3 read fault, 4 write fault, 5 no memory,
6 bad input, 7 too large, 9 not ready for a handover. Errors are reported on standard
error.
";

/// The part of the help that is about a command.
pub fn help_of(topic: Topic) -> &'static str
    ensures { result.now ≡ part_of topic }
{
    match topic {
        Topic::Run => RUN,
        Topic::Live => LIVE,
        Topic::Drill => DRILL,
        Topic::Trace => TRACE,
        Topic::Picture => PICTURE,
        Topic::Chain => CHAIN,
        Topic::Hand => HAND,
        Topic::Resume => RESUME,
        Topic::Tap => TAP,
        Topic::Play => PLAY,
        Topic::Check => CHECK,
        Topic::Make => MAKE,
        Topic::Watch => WATCH,
    }
}

/// The whole help: all its parts, with an empty line between two.
pub fn help(alloc: Global) -> Result<Text, NoMemory>
    ensures { IfOk result (λ text. text ≡ whole_help) }
{
    let parts = [
        RUN, LIVE, DRILL, TRACE, PICTURE, CHAIN, HAND, RESUME, TAP, PLAY, CHECK, MAKE, WATCH,
        GENERAL,
    ];
    let text = parts.join(alloc, "\n")?;
    Text::of(alloc, text.as_str())
}

/// The line that `--version` prints on standard output.
pub fn version() -> &'static str
    ensures { result.now ≡ VERSION.now }
{
    VERSION
}
