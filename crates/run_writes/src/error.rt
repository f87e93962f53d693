ghost use Rattle.std.specs.Prelude.{◌≡◌};
ghost use Rattle.run_writes.specs.Errors.{run_result_of, stopped_result};

use output_files::OutputError;
use plain_text::{Limit, NoMemory};

/// Why a run did not come to its end.
#[derive(Clone, Copy, PartialEq, Eq)]
pub enum RunError {
    /// The next move of a master would pass this limit, of moves or of bytes sent out.
    Limit(Limit),
    /// An output could not be created or written.
    WriteFault,
    NoMemory,
}

impl From<NoMemory> for RunError {
    ghost use Rattle.std.specs.Prelude.{◌≡◌};
    ghost use Rattle.run_writes.specs.declared.error.RunError.TheVariants as error;

    ghost from_gives = { λ _ e. e ≡ error.NoMemory };

    fn from(_: NoMemory) -> Self {
        RunError::NoMemory
    }
}

impl From<OutputError> for RunError {
    ghost use Rattle.std.specs.Prelude.{◌≡◌};
    ghost use Rattle.run_writes.specs.Errors.{run_error_of};

    ghost from_gives = { λ error e. e ≡ run_error_of error };

    fn from(error: OutputError) -> Self {
        match error {
            OutputError::WriteFault => RunError::WriteFault,
            OutputError::NoMemory => RunError::NoMemory,
        }
    }
}

/// What a run comes to whose outputs were written so.
pub fn written(outputs: Result<(), OutputError>) -> Result<(), RunError>
    ensures { result ≡ run_result_of outputs }
{
    match outputs {
        Ok(()) => Ok(()),
        Err(error) => Err(RunError::from(error)),
    }
}

/// What a run comes to whose outputs were written so, where an event stopped at this limit.
pub fn stopped(outputs: Result<(), OutputError>, limit: Limit) -> Result<(), RunError>
    ensures { result ≡ stopped_result outputs limit }
{
    match outputs {
        Ok(()) => Err(RunError::Limit(limit)),
        Err(error) => Err(RunError::from(error)),
    }
}
