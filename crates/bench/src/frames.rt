//! The frames of log entries, each written once and read as often as asked for.
ghost use Rattle.std.specs.Prelude.{◌≡◌, ◌≤◌};
ghost use Rattle.wire_frames.specs.Writing.{CanPutEntry};

use crate::words::{next_count, next_number};
use access_log::{StampedEntry, What};
use plain_text::{Bytes, NoMemory};
use std::alloc::Global;
use std::env::Args;
use thread_clock::Stamp;
use wire_frames::{FrameError, put_entry, take_frame};

/// How many bytes were written, and how many were read.
#[derive(Clone, Copy)]
struct Passed {
    written: u64,
    read: u64,
}

/// The entry of this number of thread 0, which comes after entries of two other threads.
fn entry_of(number: u32) -> StampedEntry
    requires { 1 ≤ number }
    ensures { CanPutEntry 1 4 result }
{
    let mut components = [0; 16];
    components[0] = number;
    components[1] = number / 2;
    components[2] = number - 1;
    StampedEntry {
        thread: 0,
        number: u64::from(number),
        what: What::Access {
            var: 0,
            place: u64::from(number),
        },
        stamp: Stamp::new(components),
    }
}

/// Reads a frame this number of times, and gives the bytes that were read.
fn read_often(alloc: Global, frame: &[u8], times: u64) -> Result<u64, FrameError> {
    let mut read: u64 = 0;
    for _ in 0..times {
        let (_, size) = take_frame(alloc, frame)?;
        read = read.wrapping_add(size as u64);
    }
    Ok(read)
}

/// The frame of an entry.
fn frame_of(alloc: Global, number: u32) -> Result<Bytes, NoMemory>
    requires { 1 ≤ number }
{
    put_entry(alloc, 1, 4, &entry_of(number))
}

/// Writes a frame, and reads it this number of times.
fn pass_frame(alloc: Global, number: u32, times: u64) -> Result<Passed, FrameError>
    requires { 1 ≤ number }
{
    let frame = frame_of(alloc, number)?;
    Ok(Passed {
        written: frame.len() as u64,
        read: read_often(alloc, frame.as_slice(), times)?,
    })
}

/// Writes the frames of this number of entries, and reads each this number of times.
fn pass_frames(alloc: Global, count: u32, times: u64) -> Result<Passed, FrameError> {
    let mut all = Passed {
        written: 0,
        read: 0,
    };
    for number in 1..=count {
        let passed = pass_frame(alloc, number, times)?;
        all.written = all.written.wrapping_add(passed.written);
        all.read = all.read.wrapping_add(passed.read);
    }
    Ok(all)
}

/// Tells how many bytes were written and read, where the words say how many entries there are, and how often each is
/// read.
pub fn run<R: AllocGlobal + Print>(rt: &R, words: &mut Args) -> anyhow::Result<()> {
    let count = next_count(words, "how many entries?")?;
    let times = next_number(words, "how often is each read?")?;
    let passed = pass_frames(rt.alloc(), count, times)?;
    println!(rt; "{} bytes written, {} read", passed.written, passed.read)?;
    Ok(())
}
