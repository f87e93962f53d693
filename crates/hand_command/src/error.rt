ghost use Rattle.std.specs.Prelude.{◌≡◌};
ghost use Rattle.hand_command.specs.Errors.{go_on_result_of, hand_result_of};

use handover_world::{ResumeError, Unready};
use output_files::OutputError;
use plain_text::{Limit, NoMemory};
use run_writes::RunError;

/// Why a system was not handed over.
#[derive(Clone, Copy, PartialEq, Eq)]
pub enum HandError {
    /// The next move of a master would pass this limit, of moves or of bytes sent out; or the text of the image would,
    /// of the bytes of a file or of its lines.
    Limit(Limit),
    /// An output could not be created or written.
    WriteFault,
    NoMemory,
    /// Behind the last event of the script the system is not ready.
    Unready(Unready),
}

/// Why a run from an image did not come to its end.
#[derive(Clone, Copy, PartialEq, Eq)]
pub enum GoOnError {
    /// The image has this fault.
    Fault(ResumeError),
    /// The next move of a master would pass this limit, of moves or of bytes sent out.
    Limit(Limit),
    /// An output could not be created or written.
    WriteFault,
    NoMemory,
}

impl From<NoMemory> for HandError {
    ghost use Rattle.std.specs.Prelude.{◌≡◌};
    ghost use Rattle.hand_command.specs.declared.error.HandError.TheVariants as error;

    ghost from_gives = { λ _ e. e ≡ error.NoMemory };

    fn from(_: NoMemory) -> Self {
        HandError::NoMemory
    }
}

impl From<RunError> for HandError {
    ghost use Rattle.std.specs.Prelude.{◌≡◌};
    ghost use Rattle.hand_command.specs.Errors.{hand_error_of};

    ghost from_gives = { λ error e. e ≡ hand_error_of error };

    fn from(error: RunError) -> Self {
        match error {
            RunError::Limit(limit) => HandError::Limit(limit),
            RunError::WriteFault => HandError::WriteFault,
            RunError::NoMemory => HandError::NoMemory,
        }
    }
}

impl From<OutputError> for HandError {
    ghost use Rattle.std.specs.Prelude.{◌≡◌};
    ghost use Rattle.run_writes.specs.Errors.{run_error_of};
    ghost use Rattle.hand_command.specs.Errors.{hand_error_of};

    ghost from_gives = { λ error e. e ≡ hand_error_of (run_error_of error) };

    fn from(error: OutputError) -> Self {
        match error {
            OutputError::WriteFault => HandError::WriteFault,
            OutputError::NoMemory => HandError::NoMemory,
        }
    }
}

impl From<RunError> for GoOnError {
    ghost use Rattle.std.specs.Prelude.{◌≡◌};
    ghost use Rattle.hand_command.specs.Errors.{go_on_error_of};

    ghost from_gives = { λ error e. e ≡ go_on_error_of error };

    fn from(error: RunError) -> Self {
        match error {
            RunError::Limit(limit) => GoOnError::Limit(limit),
            RunError::WriteFault => GoOnError::WriteFault,
            RunError::NoMemory => GoOnError::NoMemory,
        }
    }
}

impl From<ResumeError> for GoOnError {
    ghost use Rattle.std.specs.Prelude.{◌≡◌};
    ghost use Rattle.hand_command.specs.Errors.{not_resumed};

    ghost from_gives = { λ error e. e ≡ not_resumed error };

    fn from(error: ResumeError) -> Self {
        match error {
            ResumeError::Count(_) | ResumeError::Move(_) | ResumeError::Released(_) => {
                GoOnError::Fault(error)
            }
            ResumeError::NoMemory => GoOnError::NoMemory,
        }
    }
}

/// What a hand-over comes to whose run came to this.
pub fn handed(run: Result<(), RunError>) -> Result<(), HandError>
    ensures { result ≡ hand_result_of run }
{
    match run {
        Ok(()) => Ok(()),
        Err(error) => Err(HandError::from(error)),
    }
}

/// What a run from an image comes to that came to this behind it.
pub fn gone_on(run: Result<(), RunError>) -> Result<(), GoOnError>
    ensures { result ≡ go_on_result_of run }
{
    match run {
        Ok(()) => Ok(()),
        Err(error) => Err(GoOnError::from(error)),
    }
}
