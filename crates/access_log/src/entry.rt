ghost use Rattle.std.specs.Prelude.{◌≡◌, IfOk};

use entry_order::What;
use plain_text::{Bytes, NoMemory, Packet, Sequence};
use std::alloc::Global;
use thread_clock::Stamp;

/// One log entry: the `number`-th logged move of `thread`, counted from 1, what it did, and its stamp.
#[derive(Clone, Copy, Debug, PartialEq)]
pub struct StampedEntry {
    /// The thread that made the move, below 16.
    pub thread: u32,
    /// Its number among the logged moves of the thread, from 1.
    pub number: u64,
    /// What the move did: a touch or a read of a variable, or a time or a random word that was told.
    pub what: What,
    /// For each thread, the greatest number of an entry of it that precedes this one or is it; 0 where there is none.
    pub stamp: Stamp,
}

/// A packet that a thread sends out: its `number`-th, counted from 1, made of this input.
#[derive(Debug, Drop)]
pub struct Output {
    /// The thread that sends it out, below 16.
    pub thread: u32,
    /// Its number among the packets that the thread sends out, from 1.
    pub number: u64,
    /// The number of the thread's input that it was made of, from 1.
    pub input: u64,
    /// For each thread, the greatest number of an entry of it among the output's predecessors; 0 where there is none.
    pub stamp: Stamp,
    /// The packet as it is to leave.
    pub packet: Packet,
}

/// Outputs, in the order in which they were made or released.
pub type Outputs = Sequence<Output>;

/// A copy of one output, with the bytes of its packet.
pub fn copy_output(alloc: Global, output: &Output) -> Result<Output, NoMemory>
    ensures { IfOk result (λ copy. copy ≡ output.now) }
{
    let packet = &output.packet;
    Ok(Output {
        thread: output.thread,
        number: output.number,
        input: output.input,
        stamp: output.stamp,
        packet: Packet {
            seconds: packet.seconds,
            fraction: packet.fraction,
            original: packet.original,
            bytes: Bytes::of(alloc, packet.bytes.as_slice())?,
        },
    })
}

/// Whether a thread may make the touch that it wants.
#[derive(Clone, Copy, Debug, PartialEq, Eq)]
pub enum Turn {
    /// Now, and as the log says.
    Follow,
    /// Now, since the log says nothing of it.
    Free,
    /// Only after the entry of this thread and number.
    Wait { thread: u32, number: u64 },
}

/// What became of an entry that was added.
#[derive(Clone, Copy, Debug, PartialEq, Eq)]
pub enum Added {
    /// It is held now.
    New,
    /// An entry of its thread and number was held or covered before, and nothing changed.
    Known,
}
