mod advice;
mod boxes;
mod calls;
mod captures;
mod drops;
mod fields;
mod files;
mod forms;
mod limits;
mod lines;
mod nearest;
mod refuted;
mod replay;
mod shown;
mod unread;
mod word_parts;
mod written;

use self::advice::{Advice, tell};
pub use self::drops::tell_drops;
use self::files::read_again;
use self::forms::Grammar;
use self::shown::Shown;
use crate::clashes::{Clash, OtherName, one_file};
use crate::faults::{box_file, faulty_name, second_box};
use crate::pipes::{ReportOn, name_streams};
use crate::word_places::read_line;
use hand_faults::{HandCause, HandFault};
use job_commands::{Command, InputFault, Status, read_command};
use plain_machine::PlayFault;
use plain_text::{LineFault, Text};
use schedule_check::Refutation;
use std::io;
use std::rt::Files;

/// What is told where two inputs are `-`.
const READ_TWICE: &str = "standard input can be read once: two inputs are `-`";

/// Tells in a further line on standard error, after the text of the status, what helps: which two
/// words name one file, or that an output is the file of a standard stream, or that two inputs are
/// standard input, which command was meant and how it is called, which input is not there or which
/// output can't be written and what the system says of it, what stands where an input leaves its
/// grammar. Where a box file makes no sense, though it is right by its grammar, this is told too,
/// whatever the status, and so is a handover that is gone on from and has no seal.
pub fn tell_more<R: AllocGlobal + Files + Eprint>(
    rt: &R,
    words: &[Text],
    status: Status,
) -> io::Result<()> {
    match name_streams(rt.alloc(), words) {
        Ok(piped) => tell_of_words(rt, piped.words.as_slice(), piped.report, status),
        Err(Status::BadWords) => tell(rt, Some(Advice::Text(READ_TWICE))),
        Err(_) => Ok(()),
    }
}

/// The same, where the words have the names of the streams.
fn tell_of_words<R: AllocGlobal + Files + Eprint>(
    rt: &R,
    words: &[Text],
    report: ReportOn,
    status: Status,
) -> io::Result<()> {
    match status {
        Status::BadWords => tell(rt, Some(advise_words(rt, words, report))),
        Status::ReadFault => unread::tell_unread(rt, words),
        Status::WriteFault => written::tell_unwritten(rt, words),
        Status::BadInput(fault) => tell_fault(rt, words, fault),
        Status::TooLarge(limit) => {
            tell(rt, limits::advise(rt, words, limit))?;
            tell_of_box(rt, words)
        }
        Status::Refuted(refutation) => {
            tell_refuted(rt, words, refutation)?;
            tell_of_box(rt, words)
        }
        _ => tell_of_box(rt, words),
    }
}

/// Which name is not to be that of a file which is written, or which command was meant.
fn advise_words<'a, R: AllocGlobal + Files>(
    rt: &R,
    words: &'a [Text],
    report: ReportOn,
) -> Advice<'a> {
    match one_file(rt, words, report) {
        Some(clash) => advise_clash(words, clash),
        None => calls::advise(words),
    }
}

fn advise_clash(words: &[Text], clash: Clash) -> Advice<'_> {
    let written = name_at(words, clash.written);
    match clash.other {
        OtherName::Word(place) => Advice::OneFile(name_at(words, place), written),
        OtherName::Output => Advice::Name(
            written,
            " is standard output, on which the report is printed",
        ),
        OtherName::Errors => Advice::Name(written, " is standard error"),
    }
}

/// The word at this place, or no bytes.
fn name_at(words: &[Text], place: usize) -> Shown<'_> {
    match words.get(place) {
        Some(word) => Shown::name(word.as_str()),
        None => Shown::name(""),
    }
}

/// What is asked of a file that is read again.
#[derive(Clone, Copy)]
enum Question {
    /// What stands where it leaves its grammar; the grammar is that of a script, where it is one.
    Fault(InputFault, Grammar),
    /// Which move is not legal.
    Move(PlayFault),
    /// Whether a box makes no sense.
    Doubt,
    /// Whether a handover has no seal.
    Seal,
}

/// Reads a file again, and tells what is asked of it.
fn tell_of<R: AllocGlobal + Files + Eprint>(
    rt: &R,
    name: Option<&Text>,
    question: Question,
) -> io::Result<()> {
    let Some(name) = name else {
        return Ok(());
    };
    match read_again(rt, name) {
        Some(text) => tell(rt, answer(Shown::name(name.as_str()), &text, question)),
        None => Ok(()),
    }
}

fn answer<'a>(name: Shown<'a>, text: &'a [u8], question: Question) -> Option<Advice<'a>> {
    match question {
        Question::Fault(fault, grammar) => advise_fault(name, text, fault, grammar),
        Question::Move(fault) => lines::advise_move(name, text, fault),
        Question::Doubt => Some(Advice::Name(name, boxes::doubt_in(text)?)),
        Question::Seal => Some(Advice::Name(name, files::unsealed(text)?)),
    }
}

/// What stands in the input where it leaves its grammar.
fn tell_fault<R: AllocGlobal + Files + Eprint>(
    rt: &R,
    words: &[Text],
    fault: InputFault,
) -> io::Result<()> {
    let name = faulty_name(read_line(words), fault);
    tell_of(rt, name, Question::Fault(fault, script_grammar(words)))
}

fn advise_fault<'a>(
    name: Shown<'a>,
    text: &'a [u8],
    fault: InputFault,
    script: Grammar,
) -> Option<Advice<'a>> {
    match fault {
        InputFault::BoxFile(fault) | InputFault::SecondBox(fault) => {
            boxes::advise(name, text, fault)
        }
        InputFault::Capture(fault) | InputFault::Released(fault) => {
            captures::advise_pcap(name, text, fault)
        }
        InputFault::NgCapture(fault) | InputFault::NgReleased(fault) => {
            captures::advise_pcapng(name, text, fault)
        }
        InputFault::Handover(fault) => advise_handover(name, text, fault),
        InputFault::Script(fault) => lines::advise(name, text, fault, script),
        InputFault::Plan(fault) => lines::advise(name, text, fault, Grammar::Plan),
        InputFault::Schedule(fault) => lines::advise(name, text, fault, Grammar::Schedule),
        InputFault::Moves(fault) => lines::advise_move(name, text, fault),
    }
}

/// What the script is that a command reads.
fn script_grammar(words: &[Text]) -> Grammar {
    match read_command(read_line(words)) {
        Some(Command::Chain(_)) => Grammar::Chain,
        _ => Grammar::Script,
    }
}

/// What stands in a handover from which no system goes on.
fn advise_handover<'a>(name: Shown<'a>, text: &'a [u8], fault: HandFault) -> Option<Advice<'a>> {
    let line = fault.line;
    match fault.cause {
        HandCause::Line(cause) => {
            lines::advise(name, text, LineFault { line, cause }, Grammar::Handover)
        }
        HandCause::Box
        | HandCause::Capture
        | HandCause::Count
        | HandCause::Move(_)
        | HandCause::Released => lines::show_line(name, text, line),
    }
}

/// Which move of a schedule is not legal, or in what a released packet differs from what was sent out.
fn tell_refuted<R: AllocGlobal + Files + Eprint>(
    rt: &R,
    words: &[Text],
    refutation: Refutation,
) -> io::Result<()> {
    let Some(Command::Check(names)) = read_command(read_line(words)) else {
        return Ok(());
    };
    match refutation {
        Refutation::Moves(fault) => {
            tell_of(rt, Some(names.files.schedule), Question::Move(fault))
        }
        Refutation::Packet(number) => tell(rt, refuted::advise(rt, names, number)),
    }
}

/// What makes no sense in the box files, if the command has any, and that nothing ties a handover to its box.
fn tell_of_box<R: AllocGlobal + Files + Eprint>(rt: &R, words: &[Text]) -> io::Result<()> {
    let Some(command) = read_command(read_line(words)) else {
        return Ok(());
    };
    tell_of(rt, box_file(command), Question::Doubt)?;
    tell_of(rt, second_box(command), Question::Doubt)?;
    match command {
        Command::Resume(names) => tell_of(rt, Some(names.handover), Question::Seal),
        _ => Ok(()),
    }
}
