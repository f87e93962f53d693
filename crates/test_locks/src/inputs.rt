//! Packets for two threads.
use input_logger::InputLog;
use plain_text::{Bytes, NoMemory, Packet};
use std::alloc::Global;

/// A packet of these captured bytes, all that it had on the wire.
fn packet(alloc: Global, frame: &[u8]) -> Result<Packet, NoMemory> {
    Ok(Packet {
        seconds: 100,
        fraction: 5,
        original: 42,
        bytes: Bytes::of(alloc, frame)?,
    })
}

/// This number of packets of each of two frames, in turn, as the inputs of two threads.
pub fn inputs_of(alloc: Global, frames: [&[u8]; 2], count: u64) -> Result<InputLog, NoMemory> {
    let [first, second] = frames;
    let mut inputs = InputLog::new(alloc, 2, false)?;
    for _number in 0..count {
        inputs.feed(packet(alloc, first)?)?;
        inputs.feed(packet(alloc, second)?)?;
    }
    Ok(inputs)
}
