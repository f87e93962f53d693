ghost use Rattle.std.specs.Prelude.{◌≡◌, OnOk};
ghost use Rattle.handover.specs.Images.{empty, with_line};

use crate::line::ImageLine;
use event_replies::Releases;
use plain_machine::Schedule;
use plain_text::{NoMemory, Sequence};
use std::alloc::Global;

/// How far a thread had come in an epoch when that epoch ended, by the moves that were kept.
#[derive(Clone, Copy, Debug, PartialEq, Eq)]
pub struct Ended {
    /// The epoch, from 1.
    pub epoch: u32,
    /// The thread, from 0.
    pub thread: u32,
    /// How many log entries it had made, from the first move of all.
    pub entries: u64,
    /// How many outputs it had emitted, from the first move of all.
    pub outputs: u64,
}

/// How far each thread had come when each earlier epoch ended: epoch by epoch, and within one by thread.
pub type EndedList = Sequence<Ended>;

/// A whole stored state of a system whose master is up, with nothing on the way: all that another process needs to go
/// on from it.
#[derive(Debug, Drop)]
pub struct Image {
    /// How many packets of the capture were fed.
    pub fed: u64,
    /// The clock, in microseconds.
    pub clock: u64,
    /// How many words of the generator were drawn.
    pub draws: u64,
    /// The epoch, from 1: one more than there were recoveries.
    pub epoch: u32,
    /// How many moves the masters made so far, replays included.
    pub moves: u64,
    /// How many bytes the masters sent out so far, replays included.
    pub bytes: u64,
    /// With what each thread ended each earlier epoch.
    pub ended: EndedList,
    /// The outputs that were released, in order of release.
    pub released: Releases,
    /// The moves of the plain run that the state amounts to, from the first.
    pub past: Schedule,
}

impl Image {
    /// A state with nothing in it: what is read before the first line.
    pub(crate) fn empty(alloc: Global) -> Image
        ensures { result ≡ empty }
    {
        Image {
            fed: 0,
            clock: 0,
            draws: 0,
            epoch: 0,
            moves: 0,
            bytes: 0,
            ended: EndedList::new(alloc),
            released: Releases::new(alloc),
            past: Schedule::new(alloc),
        }
    }

    /// Adds what a line says.
    pub(crate) fn add(&mut self, line: ImageLine) -> Result<(), NoMemory>
        ensures { OnOk result (self.new ≡ with_line self.old line) }
    {
        match line {
            ImageLine::Heading => Ok(()),
            ImageLine::State {
                fed,
                clock,
                draws,
                epoch,
                moves,
                bytes,
            } => {
                self.fed = fed;
                self.clock = clock;
                self.draws = draws;
                self.epoch = epoch;
                self.moves = moves;
                self.bytes = bytes;
                Ok(())
            }
            ImageLine::Ended(ended) => self.ended.push(ended),
            ImageLine::Released { thread, number } => self.released.push((thread, number)),
            ImageLine::Move(plain) => self.past.push(plain),
        }
    }
}
