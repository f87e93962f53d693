//! Log entries and the outputs that depend on them, through an output logger. First each output comes after its entry.
//! Then all outputs come first, and all entries after them, both the last one first.
ghost use Rattle.std.specs.Prelude.{◌≡◌, ◌≤◌, length};

use crate::words::next_count;
use access_log::{Output, Outputs, StampedEntry, What};
use output_logger::OutputLogger;
use plain_text::{Bytes, NoMemory, Packet};
use std::alloc::Global;
use std::env::Args;
use thread_clock::Stamp;

/// The stamp of entry `number` of thread 0, which comes after the earlier ones of the thread.
fn stamp_of(number: u32) -> Stamp {
    let mut components = [0; 16];
    components[0] = number;
    Stamp::new(components)
}

/// Entry `number` of thread 0 arrives.
fn log(logger: &mut OutputLogger, out: &mut Outputs, number: u32) -> Result<(), NoMemory>
    requires threads { length logger.old.held ≡ 1 }
    requires numbered { 1 ≤ number }
    requires epoch { 1 ≤ logger.old.epoch }
    ensures threads { length logger.new.held ≡ 1 }
    ensures epoch { logger.new.epoch ≡ logger.old.epoch }
{
    let entry = StampedEntry {
        thread: 0,
        number: u64::from(number),
        what: What::Clock(0),
        stamp: stamp_of(number),
    };
    logger.entry(1, entry, out)?;
    Ok(())
}

/// The output that comes after entry `number` of thread 0 arrives.
fn send(
    alloc: Global,
    logger: &mut OutputLogger,
    out: &mut Outputs,
    number: u32,
) -> Result<(), NoMemory>
    requires threads { length logger.old.held ≡ 1 }
    requires numbered { 1 ≤ number }
    requires epoch { 1 ≤ logger.old.epoch }
    ensures threads { length logger.new.held ≡ 1 }
    ensures epoch { logger.new.epoch ≡ logger.old.epoch }
{
    let bytes = Bytes::of(alloc, &[])?;
    let packet = Packet {
        seconds: 0,
        fraction: 0,
        original: 0,
        bytes,
    };
    let output = Output {
        thread: 0,
        number: u64::from(number),
        input: u64::from(number),
        stamp: stamp_of(number),
        packet,
    };
    logger.output(1, output, out)?;
    Ok(())
}

/// Each output comes after its entry.
fn come_in_order(
    alloc: Global,
    logger: &mut OutputLogger,
    out: &mut Outputs,
    count: u32,
) -> Result<(), NoMemory>
    requires threads { length logger.old.held ≡ 1 }
    requires epoch { 1 ≤ logger.old.epoch }
{
    for i in 0..count {
        log(logger, out, i + 1)?;
        send(alloc, logger, out, i + 1)?;
    }
    Ok(())
}

/// All outputs come and then all entries, the last one first.
fn come_in_reverse(
    alloc: Global,
    logger: &mut OutputLogger,
    out: &mut Outputs,
    count: u32,
) -> Result<(), NoMemory>
    requires threads { length logger.old.held ≡ 1 }
    requires epoch { 1 ≤ logger.old.epoch }
{
    for i in 0..count {
        send(alloc, logger, out, count - i)?;
    }
    for i in 0..count {
        log(logger, out, count - i)?;
    }
    Ok(())
}

/// How many outputs are released where they come in order, or in reverse.
fn released(alloc: Global, count: u32, in_order: bool) -> Result<usize, NoMemory> {
    let mut out = Outputs::new(alloc);
    let mut logger = OutputLogger::new(alloc, 1)?;
    if in_order {
        come_in_order(alloc, &mut logger, &mut out, count)?;
    } else {
        come_in_reverse(alloc, &mut logger, &mut out, count)?;
    }
    Ok(out.len())
}

/// Tells how many outputs were released, where the words say how many come in order, and how many in reverse.
pub fn run<R: AllocGlobal + Print>(rt: &R, words: &mut Args) -> anyhow::Result<()> {
    let forward = next_count(words, "how many outputs in order?")?;
    let reverse = next_count(words, "how many in reverse?")?;
    let first = released(rt.alloc(), forward, true)?;
    let second = released(rt.alloc(), reverse, false)?;
    println!(rt; "{first} released in order, {second} in reverse")?;
    Ok(())
}
