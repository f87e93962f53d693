ghost use Rattle.std.specs.Prelude.{◌≡◌};
ghost use Rattle.handover.specs.Table.{behind};

use crate::image::Ended;
use crate::stage::Stage;
use plain_machine::PlainMove;

/// What a line of an image's text says.
#[derive(Clone, Copy)]
pub enum ImageLine {
    /// The text is one of a handover, in the form of this program.
    Heading,
    /// The counts of the state.
    State {
        fed: u64,
        clock: u64,
        draws: u64,
        epoch: u32,
        moves: u64,
        bytes: u64,
    },
    /// With what a thread ended an earlier epoch.
    Ended(Ended),
    /// An output that was released.
    Released {
        thread: u32,
        number: u64,
    },
    /// A move of the plain run.
    Move(PlainMove),
}

impl ImageLine {
    /// Which lines may stand behind this one.
    pub fn behind(self) -> Stage
        ensures { result ≡ behind self }
    {
        match self {
            ImageLine::Heading => Stage::State,
            ImageLine::State { .. } | ImageLine::Ended(_) => Stage::Ended,
            ImageLine::Released { .. } => Stage::Released,
            ImageLine::Move(_) => Stage::Moves,
        }
    }
}
