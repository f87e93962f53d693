ghost use Rattle.std.specs.Prelude.{◌≡◌};
ghost use Rattle.job_commands.specs.Status.{exit_code_of, of_box_error, of_capture_error};
ghost use Rattle.job_commands.specs.Status.{of_image_error};
ghost use Rattle.job_commands.specs.Status.{of_plan_error, of_released_error, of_schedule_error};
ghost use Rattle.job_commands.specs.Status.{of_script_error, of_second_box_error};
ghost use Rattle.job_commands.specs.Status.{check_outcome as check_outcome_of, outcome_of};
ghost use Rattle.job_commands.specs.Status.{play_outcome as play_outcome_of};
ghost use Rattle.job_commands.specs.Status.{run_outcome as run_outcome_of};

use hand_faults::{HandCause, HandFault};
use handover_world::Unready;
use input_files::InputError;
use output_files::OutputError;
use pcap_io::CaptureFault;
use pcapng_io::{AnyFault, NgFault};
use plain_machine::PlayFault;
use plain_text::{Limit, LineFault};
use run_writes::RunError;
use schedule_check::Refutation;
use schedule_commands::ScheduleError;

/// An input file that leaves its grammar: which, where and why.
#[derive(Clone, Copy, PartialEq, Eq)]
pub enum InputFault {
    /// The text that chooses the box.
    BoxFile(LineFault),
    /// The text that chooses the second box of a chain.
    SecondBox(LineFault),
    /// The capture of the packets that come in, as a libpcap savefile.
    Capture(CaptureFault),
    /// The same, as a pcapng capture.
    NgCapture(NgFault),
    /// The text of the events.
    Script(LineFault),
    /// The text of the plan.
    Plan(LineFault),
    /// The text of the schedule.
    Schedule(LineFault),
    /// The schedule that is played is not legal: its first illegal move, and why.
    Moves(PlayFault),
    /// The capture of released packets that `check` reads, as a libpcap savefile.
    Released(CaptureFault),
    /// The same, as a pcapng capture.
    NgReleased(NgFault),
    /// The text of the handover, or the image that it says.
    Handover(HandFault),
}

/// What a command came to.
#[derive(Clone, Copy, PartialEq, Eq)]
pub enum Status {
    /// All was done.
    Done,
    /// What `check` refutes: the first illegal move of the schedule, or where it is legal the first packet that was not
    /// sent out.
    Refuted(Refutation),
    /// The words are no command's. Nothing was opened.
    BadWords,
    /// An input file could not be opened or read.
    ReadFault,
    /// An output file could not be created or written.
    WriteFault,
    /// Memory ran out.
    NoMemory,
    /// The first input file, in the order of the words, that leaves its grammar.
    BadInput(InputFault),
    /// A file passes a limit, or the run would.
    TooLarge(Limit),
    /// Behind the last event of `hand` the system can't be handed over yet, and why.
    Unready(Unready),
}

impl Status {
    /// The exit status of the program.
    pub fn exit_code(self) -> u8
        ensures { result ≡ exit_code_of self }
    {
        match self {
            Status::Done => 0,
            Status::Refuted(_) => 1,
            Status::BadWords => 2,
            Status::ReadFault => 3,
            Status::WriteFault => 4,
            Status::NoMemory => 5,
            Status::BadInput(_) => 6,
            Status::TooLarge(_) => 7,
            Status::Unready(_) => 9,
        }
    }
}

impl From<AnyFault> for InputFault {
    ghost use Rattle.std.specs.Prelude.{◌≡◌};
    ghost use Rattle.job_commands.specs.Status.{of_capture_fault};

    ghost from_gives = { λ fault input. input ≡ of_capture_fault fault };

    fn from(fault: AnyFault) -> Self {
        match fault {
            AnyFault::Capture(fault) => InputFault::Capture(fault),
            AnyFault::Ng(fault) => InputFault::NgCapture(fault),
        }
    }
}

/// What a command comes to whose box file is not accepted.
pub fn box_status(error: InputError<LineFault>) -> Status
    ensures { result ≡ of_box_error error }
{
    match error {
        InputError::ReadFault => Status::ReadFault,
        InputError::TooLarge(limit) => Status::TooLarge(limit),
        InputError::Fault(fault) => Status::BadInput(InputFault::BoxFile(fault)),
        InputError::NoMemory => Status::NoMemory,
    }
}

/// What a command comes to whose second box file is not accepted.
pub fn second_box_status(error: InputError<LineFault>) -> Status
    ensures { result ≡ of_second_box_error error }
{
    match error {
        InputError::ReadFault => Status::ReadFault,
        InputError::TooLarge(limit) => Status::TooLarge(limit),
        InputError::Fault(fault) => Status::BadInput(InputFault::SecondBox(fault)),
        InputError::NoMemory => Status::NoMemory,
    }
}

/// What a command comes to whose capture is not accepted.
pub fn capture_status(error: InputError<AnyFault>) -> Status
    ensures { result ≡ of_capture_error error }
{
    match error {
        InputError::ReadFault => Status::ReadFault,
        InputError::TooLarge(limit) => Status::TooLarge(limit),
        InputError::Fault(fault) => Status::BadInput(fault.into()),
        InputError::NoMemory => Status::NoMemory,
    }
}

/// What a command comes to whose script is not accepted.
pub fn script_status(error: InputError<LineFault>) -> Status
    ensures { result ≡ of_script_error error }
{
    match error {
        InputError::ReadFault => Status::ReadFault,
        InputError::TooLarge(limit) => Status::TooLarge(limit),
        InputError::Fault(fault) => Status::BadInput(InputFault::Script(fault)),
        InputError::NoMemory => Status::NoMemory,
    }
}

/// What a command comes to whose plan is not accepted.
pub fn plan_status(error: InputError<LineFault>) -> Status
    ensures { result ≡ of_plan_error error }
{
    match error {
        InputError::ReadFault => Status::ReadFault,
        InputError::TooLarge(limit) => Status::TooLarge(limit),
        InputError::Fault(fault) => Status::BadInput(InputFault::Plan(fault)),
        InputError::NoMemory => Status::NoMemory,
    }
}

/// What a command comes to whose text of a handover is not accepted.
pub fn image_status(error: InputError<LineFault>) -> Status
    ensures { result ≡ of_image_error error }
{
    match error {
        InputError::ReadFault => Status::ReadFault,
        InputError::TooLarge(limit) => Status::TooLarge(limit),
        InputError::Fault(LineFault { line, cause }) => {
            let cause = HandCause::Line(cause);
            Status::BadInput(InputFault::Handover(HandFault { line, cause }))
        }
        InputError::NoMemory => Status::NoMemory,
    }
}

/// What a command comes to whose schedule is not accepted.
pub fn schedule_status(error: InputError<LineFault>) -> Status
    ensures { result ≡ of_schedule_error error }
{
    match error {
        InputError::ReadFault => Status::ReadFault,
        InputError::TooLarge(limit) => Status::TooLarge(limit),
        InputError::Fault(fault) => Status::BadInput(InputFault::Schedule(fault)),
        InputError::NoMemory => Status::NoMemory,
    }
}

/// What a command comes to whose released capture is not accepted.
pub fn released_status(error: InputError<AnyFault>) -> Status
    ensures { result ≡ of_released_error error }
{
    match error {
        InputError::ReadFault => Status::ReadFault,
        InputError::TooLarge(limit) => Status::TooLarge(limit),
        InputError::Fault(AnyFault::Capture(fault)) => {
            Status::BadInput(InputFault::Released(fault))
        }
        InputError::Fault(AnyFault::Ng(fault)) => Status::BadInput(InputFault::NgReleased(fault)),
        InputError::NoMemory => Status::NoMemory,
    }
}

/// What `make` comes to.
pub fn outcome(written: Result<(), OutputError>) -> Status
    ensures { result ≡ outcome_of written }
{
    match written {
        Ok(()) => Status::Done,
        Err(OutputError::WriteFault) => Status::WriteFault,
        Err(OutputError::NoMemory) => Status::NoMemory,
    }
}

/// What `run` comes to.
pub fn run_outcome(run: Result<(), RunError>) -> Status
    ensures { result ≡ run_outcome_of run }
{
    match run {
        Ok(()) => Status::Done,
        Err(RunError::Limit(limit)) => Status::TooLarge(limit),
        Err(RunError::WriteFault) => Status::WriteFault,
        Err(RunError::NoMemory) => Status::NoMemory,
    }
}

/// What `play` comes to.
pub fn play_outcome(play: Result<(), ScheduleError<PlayFault>>) -> Status
    ensures { result ≡ play_outcome_of play }
{
    match play {
        Ok(()) => Status::Done,
        Err(ScheduleError::Refused(fault)) => Status::BadInput(InputFault::Moves(fault)),
        Err(ScheduleError::WriteFault) => Status::WriteFault,
        Err(ScheduleError::NoMemory) => Status::NoMemory,
    }
}

/// What `check` comes to.
pub fn check_outcome(check: Result<(), ScheduleError<Refutation>>) -> Status
    ensures { result ≡ check_outcome_of check }
{
    match check {
        Ok(()) => Status::Done,
        Err(ScheduleError::Refused(refutation)) => Status::Refuted(refutation),
        Err(ScheduleError::WriteFault) => Status::WriteFault,
        Err(ScheduleError::NoMemory) => Status::NoMemory,
    }
}
