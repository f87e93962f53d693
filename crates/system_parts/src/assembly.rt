use drawn_words::DrawnWords;
use event_replies::Releases;
use link_store::SentFrames;
use output_logger::OutputLogger;
use plain_machine::Schedule;
use plain_text::{Packet, Sequence, Unit};
use recovery_world::InputLog;
use replay_guide::Guide;
use snapshot_store::{Counts, Master, Program, Store};
use std::alloc::Global;
use std::collections::VecDeque;
use std::marker::Model;

/// The parts of a system, put together.
#[derive(Drop)]
pub struct Core<P: Program> {
    pub alloc: Global,
    /// The program of the box.
    pub program: P,
    /// What the fractions of the packets count.
    pub unit: Unit,
    /// The time, in microseconds.
    pub clock: u64,
    /// The random words, of which some were drawn.
    pub generator: DrawnWords,
    /// The packets of the capture that are not fed yet, in order.
    pub left: VecDeque<Packet>,
    /// The packets that were fed, by the thread to which each was steered. It survives a crash.
    pub inputs: InputLog,
    /// Whether the master is up. The one that crashed stays until there is a new one.
    pub up: bool,
    /// The master, or the one that crashed.
    pub master: Master<P>,
    /// The moves that the master made.
    pub schedule: Schedule,
    /// What the master follows of the log of those before it.
    pub guide: Guide,
    /// The stored snapshot, and the one under way. It survives a crash.
    pub store: Store<P>,
    /// How much each thread did until the end of each earlier epoch, the first epoch first.
    pub ended: Vec<Sequence<Counts>>,
    /// How many moves all masters made.
    pub moves: u64,
    /// How many bytes they sent out.
    pub bytes: u64,
    /// The frames that were sent and may still arrive.
    pub sent: SentFrames,
    /// What holds log entries and releases outputs. It survives a crash.
    pub logger: OutputLogger,
    /// Each released output, in order of release.
    pub released: Releases,
}

impl<P: Program> Model for Core<P> {
    ghost use Rattle.system_parts.specs.Parts.{Parts, AreParts};
    ghost use Rattle.system_parts.specs.Views.{parts_in};

    ghost Value = { Parts P P.Value };

    ghost view = { λ y. parts_in y };

    ghost invariant = { λ y. AreParts (P.meaning y.program) (P.fits y.program) (parts_in y) };
}
