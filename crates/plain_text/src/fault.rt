use crate::NoMemory;
use thiserror::Error;

/// Why a line of a text file is refused. Within a line the first of these that is met is named, in this order: an
/// unknown first word; then word by word a missing one, a fixed word that is another (unknown), a number or an address
/// that is none; then a word too many; then a number out of its range; then a line that may stand once and stands
/// again.
#[derive(Clone, Copy, Debug, PartialEq, Eq, Error)]
pub enum LineCause {
    #[error("unknown word")]
    UnknownWord,
    #[error("missing word")]
    MissingWord,
    #[error("extra word")]
    ExtraWord,
    #[error("bad number")]
    BadNumber,
    #[error("out of range")]
    OutOfRange,
    #[error("twice")]
    Twice,
    /// A line that has to stand is not there. It is named at the number of all lines and one more.
    #[error("missing line")]
    MissingLine,
}

/// The first line of a text file that is refused, by its number from 1, and why.
#[derive(Clone, Copy, Debug, PartialEq, Eq, Error)]
#[error("line {line}: {cause}")]
pub struct LineFault {
    pub line: u64,
    pub cause: LineCause,
}

/// Why a text file with a list of lines was not read.
#[derive(Clone, Copy, Debug, PartialEq, Eq, Error)]
pub enum ReadError {
    #[error("{0}")]
    Fault(LineFault),
    /// There are more lines than a limit before the first faulty one.
    #[error("too many lines")]
    TooMany,
    #[error("no memory")]
    NoMemory,
}

impl From<NoMemory> for ReadError {
    ghost use Rattle.std.specs.Prelude.{◌≡◌};
    ghost use Rattle.plain_text.specs.declared.fault.ReadError.TheVariants as error;

    ghost from_gives = { λ _ e. e ≡ error.NoMemory };

    fn from(_: NoMemory) -> Self {
        ReadError::NoMemory
    }
}
