use output_files::OutputError;
use plain_machine::PlayFault;
use plain_player::PlayError;
use plain_text::NoMemory;

/// Why a command over a schedule is not done, where what it refuses is of this type.
#[derive(Clone, Copy, PartialEq, Eq)]
pub enum ScheduleError<F> {
    /// What the inputs say is refused.
    Refused(F),
    /// An output could not be created or written.
    WriteFault,
    NoMemory,
}

impl<F> From<NoMemory> for ScheduleError<F> {
    ghost use Rattle.std.specs.Prelude.{◌≡◌};
    ghost use Rattle.schedule_commands.specs.declared.error.ScheduleError.TheVariants as error;

    ghost from_gives = { λ _ e. e ≡ error.NoMemory };

    fn from(_: NoMemory) -> Self {
        ScheduleError::NoMemory
    }
}

impl<F> From<OutputError> for ScheduleError<F> {
    ghost use Rattle.std.specs.Prelude.{◌≡◌};
    ghost use Rattle.schedule_commands.specs.Errors.{of_output};

    ghost from_gives = { λ error e. e ≡ of_output error };

    fn from(error: OutputError) -> Self {
        match error {
            OutputError::WriteFault => ScheduleError::WriteFault,
            OutputError::NoMemory => ScheduleError::NoMemory,
        }
    }
}

impl From<PlayError> for ScheduleError<PlayFault> {
    ghost use Rattle.std.specs.Prelude.{◌≡◌};
    ghost use Rattle.schedule_commands.specs.Errors.{of_playing};

    ghost from_gives = { λ error e. e ≡ of_playing error };

    fn from(error: PlayError) -> Self {
        match error {
            PlayError::Fault(fault) => ScheduleError::Refused(fault),
            PlayError::NoMemory => ScheduleError::NoMemory,
        }
    }
}
