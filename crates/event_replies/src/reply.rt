ghost use Rattle.std.specs.Prelude.{◌≡◌, []};

use plain_text::{Limit, NoMemory, Sequence};
use script_text::{Outcome, Schedule};
use std::alloc::Global;

/// The thread and number of outputs that were released, in order of release.
pub type Releases = Sequence<(u32, u64)>;

/// What an event came to, and the outputs that it released.
#[derive(Debug, Drop)]
pub struct Reply {
    /// What the event came to.
    pub outcome: Outcome,
    /// The outputs that it released, in order of release; none for most events.
    pub released: Releases,
}

/// A reply that releases nothing.
pub fn only(alloc: Global, outcome: Outcome) -> Reply
    ensures { result ≡ record { outcome = outcome; released = [] } }
{
    Reply {
        outcome,
        released: Releases::new(alloc),
    }
}

/// Why an event was not performed to its end. The system is stopped then.
#[derive(Clone, Copy, Debug, PartialEq, Eq)]
pub enum Stop {
    /// The next move of a master would pass this limit.
    Limit(Limit),
    NoMemory,
}

impl From<NoMemory> for Stop {
    ghost use Rattle.std.specs.Prelude.{◌≡◌};
    ghost use Rattle.event_replies.specs.declared.reply.Stop.TheVariants as stop;

    ghost from_gives = { λ _ s. s ≡ stop.NoMemory };

    fn from(_: NoMemory) -> Self {
        Stop::NoMemory
    }
}

/// How a run ended: the schedule of the plain run that it amounts to, the packets that were fed, the epoch, and how
/// many outputs were released.
#[derive(Debug, Drop)]
pub struct Finished {
    /// The moves of the plain run, from the first.
    pub schedule: Schedule,
    /// How many packets of the capture were fed, at most 65,536.
    pub fed: u64,
    /// The epoch at the end, from 1: one more than there were recoveries.
    pub epoch: u32,
    /// How many outputs were released in the whole run.
    pub released: u64,
}
