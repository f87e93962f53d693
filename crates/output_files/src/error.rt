use plain_text::NoMemory;
use world_io::OpenFault;

/// Why the outputs were not written whole.
#[derive(Clone, Copy, PartialEq, Eq)]
pub enum OutputError {
    /// One could not be created, or writing failed.
    WriteFault,
    NoMemory,
}

impl From<NoMemory> for OutputError {
    ghost use Rattle.std.specs.Prelude.{◌≡◌};
    ghost use Rattle.output_files.specs.declared.error.OutputError.TheVariants as error;

    ghost from_gives = { λ _ e. e ≡ error.NoMemory };

    fn from(_: NoMemory) -> Self {
        OutputError::NoMemory
    }
}

impl From<OpenFault> for OutputError {
    ghost use Rattle.std.specs.Prelude.{◌≡◌};
    ghost use Rattle.output_files.specs.Written.{output_error_of};

    ghost from_gives = { λ fault e. e ≡ output_error_of fault };

    fn from(fault: OpenFault) -> Self {
        match fault {
            OpenFault::Failed => OutputError::WriteFault,
            OpenFault::NoMemory => OutputError::NoMemory,
        }
    }
}
