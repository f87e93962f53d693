use plain_text::Limit;
use world_io::FrontError;

/// Why an input file, which is refused by faults of this type, was not accepted.
#[derive(Clone, Copy, PartialEq, Eq)]
pub enum InputError<F> {
    /// It could not be opened, or reading failed.
    ReadFault,
    /// It passes this limit.
    TooLarge(Limit),
    /// It leaves its grammar.
    Fault(F),
    NoMemory,
}

impl<F> From<FrontError> for InputError<F> {
    ghost use Rattle.std.specs.Prelude.{◌≡◌};
    ghost use Rattle.input_files.specs.Errors.{input_error_of};

    ghost from_gives = { λ error e. e ≡ input_error_of error };

    fn from(error: FrontError) -> Self {
        match error {
            FrontError::Failed => InputError::ReadFault,
            FrontError::NoMemory => InputError::NoMemory,
        }
    }
}
