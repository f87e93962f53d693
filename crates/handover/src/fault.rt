use plain_text::{LineFault, NoMemory};
use thiserror::Error;

/// Why the text of a handover was not read.
#[derive(Clone, Copy, Debug, PartialEq, Eq, Error)]
pub enum ImageError {
    #[error("{0}")]
    Fault(LineFault),
    /// More lines count than a limit allows, before the first faulty one.
    #[error("too many lines")]
    TooMany,
    #[error("no memory")]
    NoMemory,
}

impl From<NoMemory> for ImageError {
    ghost use Rattle.std.specs.Prelude.{◌≡◌};
    ghost use Rattle.handover.specs.declared.fault.ImageError.TheVariants as error;

    ghost from_gives = { λ _ e. e ≡ error.NoMemory };

    fn from(_: NoMemory) -> Self {
        ImageError::NoMemory
    }
}
