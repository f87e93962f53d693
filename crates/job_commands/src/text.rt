ghost use Rattle.std.specs.Prelude.{◌≡◌, Some};
ghost use Rattle.job_commands.specs.Text.{cause_text, capture_cause_text, move_cause_text};
ghost use Rattle.job_commands.specs.Text.{hand_cause_text, ng_cause_text, limit_text};

use crate::{InputFault, Status};
use hand_faults::{HandCause, HandFault};
use handover_world::Unready;
use pcap_io::{CaptureCause, CaptureFault};
use pcapng_io::{NgCause, NgFault};
use plain_machine::{PlayCause, PlayFault};
use plain_text::{Limit, LineCause, LineFault};
use schedule_check::Refutation;
use std::fmt;

/// A status as the program tells it on standard error. It takes no memory.
#[derive(Clone, Copy)]
pub struct StatusText(pub Status);

impl fmt::Display for StatusText {
    ghost use Rattle.job_commands.specs.Text.{status_text};

    ghost output = { λ t. Some (status_text t.0) };

    fn fmt<W: fmt::Write>(&self, f: &mut fmt::Formatter<W>) -> fmt::Result {
        match self.0 {
            Status::BadInput(InputFault::BoxFile(LineFault { line, cause })) => {
                let cause = line_cause(cause);
                write!(f, "bad input: box: line {line}: {cause}")
            }
            Status::BadInput(InputFault::SecondBox(LineFault { line, cause })) => {
                let cause = line_cause(cause);
                write!(f, "bad input: second box: line {line}: {cause}")
            }
            Status::BadInput(InputFault::Capture(CaptureFault { offset, cause })) => {
                let cause = capture_cause(cause);
                write!(f, "bad input: capture: offset {offset}: {cause}")
            }
            Status::BadInput(InputFault::NgCapture(NgFault { offset, cause })) => {
                let cause = ng_cause(cause);
                write!(f, "bad input: capture: offset {offset}: {cause}")
            }
            Status::BadInput(InputFault::Script(LineFault { line, cause })) => {
                let cause = line_cause(cause);
                write!(f, "bad input: script: line {line}: {cause}")
            }
            Status::BadInput(InputFault::Plan(LineFault { line, cause })) => {
                let cause = line_cause(cause);
                write!(f, "bad input: plan: line {line}: {cause}")
            }
            Status::BadInput(InputFault::Schedule(LineFault { line, cause })) => {
                let cause = line_cause(cause);
                write!(f, "bad input: schedule: line {line}: {cause}")
            }
            Status::BadInput(InputFault::Moves(PlayFault { number, cause })) => {
                let cause = move_cause(cause);
                write!(f, "bad input: schedule: move {number}: {cause}")
            }
            Status::BadInput(InputFault::Released(CaptureFault { offset, cause })) => {
                let cause = capture_cause(cause);
                write!(f, "bad input: released: offset {offset}: {cause}")
            }
            Status::BadInput(InputFault::NgReleased(NgFault { offset, cause })) => {
                let cause = ng_cause(cause);
                write!(f, "bad input: released: offset {offset}: {cause}")
            }
            Status::BadInput(InputFault::Handover(HandFault { line, cause })) => {
                let cause = hand_cause(cause);
                write!(f, "bad input: handover: line {line}: {cause}")
            }
            Status::Refuted(Refutation::Moves(PlayFault { number, cause })) => {
                let cause = move_cause(cause);
                write!(f, "refuted: schedule: move {number}: {cause}")
            }
            Status::Refuted(Refutation::Packet(number)) => {
                write!(f, "refuted: released: packet {number}")
            }
            Status::TooLarge(limit) => {
                let limit = limit_name(limit);
                write!(f, "too large: {limit}")
            }
            Status::Unready(Unready::Left(many)) => write!(f, "unready: left {many}"),
            Status::Unready(Unready::Behind(many)) => write!(f, "unready: behind {many}"),
            Status::Unready(Unready::Down) => f.write_str("unready: down"),
            Status::Done => f.write_str("done"),
            Status::BadWords => f.write_str("bad words"),
            Status::ReadFault => f.write_str("read fault"),
            Status::WriteFault => f.write_str("write fault"),
            Status::NoMemory => f.write_str("no memory"),
        }
    }
}

fn line_cause(cause: LineCause) -> &'static str
    ensures { result.now ≡ cause_text cause }
{
    match cause {
        LineCause::UnknownWord => "unknown word",
        LineCause::MissingWord => "missing word",
        LineCause::ExtraWord => "extra word",
        LineCause::BadNumber => "bad number",
        LineCause::OutOfRange => "out of range",
        LineCause::Twice => "twice",
        LineCause::MissingLine => "missing line",
    }
}

fn capture_cause(cause: CaptureCause) -> &'static str
    ensures { result.now ≡ capture_cause_text cause }
{
    match cause {
        CaptureCause::BadMagic => "bad magic",
        CaptureCause::BadVersion => "bad version",
        CaptureCause::BadLinkType => "bad link type",
        CaptureCause::ShortHeader => "short header",
        CaptureCause::ShortRecord => "short record",
        CaptureCause::TooLong => "too long",
    }
}

fn ng_cause(cause: NgCause) -> &'static str
    ensures { result.now ≡ ng_cause_text cause }
{
    match cause {
        NgCause::ShortBlock => "short block",
        NgCause::BadLength => "bad length",
        NgCause::BadMagic => "bad magic",
        NgCause::BadVersion => "bad version",
        NgCause::BadLinkType => "bad link type",
        NgCause::BadOption => "bad option",
        NgCause::NoInterface => "no interface",
        NgCause::BadPacket => "bad packet",
        NgCause::BadTime => "bad time",
    }
}

fn move_cause(cause: PlayCause) -> &'static str
    ensures { result.now ≡ move_cause_text cause }
{
    match cause {
        PlayCause::NoSuchThread => "no such thread",
        PlayCause::NothingToTake => "nothing to take",
        PlayCause::MissingAnswer => "missing answer",
        PlayCause::UnwantedAnswer => "unwanted answer",
    }
}

fn hand_cause(cause: HandCause) -> &'static str
    ensures { result.now ≡ hand_cause_text cause }
{
    match cause {
        HandCause::Line(cause) => line_cause(cause),
        HandCause::Box => "another box",
        HandCause::Capture => "another capture",
        HandCause::Count => "bad count",
        HandCause::Move(cause) => move_cause(cause),
        HandCause::Released => "bad released",
    }
}

fn limit_name(limit: Limit) -> &'static str
    ensures { result.now ≡ limit_text limit }
{
    match limit {
        Limit::File => "file",
        Limit::Packets => "packets",
        Limit::Events => "events",
        Limit::Moves => "moves",
        Limit::OutputBytes => "output bytes",
    }
}
