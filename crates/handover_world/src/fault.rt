use plain_machine::PlayFault;
use plain_text::NoMemory;
use thiserror::Error;

/// Why no system goes on from an image. The causes are judged in this order, each over the whole image.
#[derive(Clone, Copy, Debug, PartialEq, Eq, Error)]
pub enum ResumeError {
    /// The counts of the state can't be: place 0. Or the row at this place, from 1, of the list of ended epochs is not
    /// the next one; a row that is missing has the place behind the last.
    #[error("bad count")]
    Count(u64),
    /// The first move that the plain machine can't make on the inputs that were fed.
    #[error("{0}")]
    Move(PlayFault),
    /// The first released output, by its place from 1, that the moves do not send out, or that stands twice.
    #[error("bad released")]
    Released(u64),
    #[error("no memory")]
    NoMemory,
}

impl From<NoMemory> for ResumeError {
    ghost use Rattle.std.specs.Prelude.{◌≡◌};
    ghost use Rattle.handover_world.specs.declared.fault.ResumeError.TheVariants as error;

    ghost from_gives = { λ _ e. e ≡ error.NoMemory };

    fn from(_: NoMemory) -> Self {
        ResumeError::NoMemory
    }
}
