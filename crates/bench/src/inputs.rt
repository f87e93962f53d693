//! What the threads of a box take.
ghost use Rattle.std.specs.Prelude.{◌≤◌};

use input_logger::InputLog;
use plain_text::{NoMemory, Packet, Packets};
use std::alloc::Global;

/// The packets that threads take, one after another.
pub trait Inputs {
    /// The packet that the thread takes next, where it took this number before, if there is one.
    fn next_of(&self, thread: u32, taken: u64) -> Option<&Packet>;
}

impl Inputs for InputLog {
    fn next_of(&self, thread: u32, taken: u64) -> Option<&Packet> {
        self.input(thread, taken.saturating_add(1))
    }
}

/// One packet for each thread, this number of times.
#[derive(Drop)]
pub struct Again<'a> {
    pub packets: &'a [Packet],
    pub count: u64,
}

impl Inputs for Again<'_> {
    fn next_of(&self, thread: u32, taken: u64) -> Option<&Packet> {
        if taken < self.count {
            self.packets.get(thread as usize)
        } else {
            None
        }
    }
}

/// These packets, each fed to one of this number of threads.
pub fn feed_all(alloc: Global, threads: u32, packets: Packets) -> Result<InputLog, NoMemory>
    requires some { 1 ≤ threads }
    requires few { threads ≤ 16 }
{
    let mut inputs = InputLog::new(alloc, threads, false)?;
    for packet in packets.into_vec() {
        inputs.feed(packet)?;
    }
    Ok(inputs)
}
