ghost use Rattle.std.specs.Prelude.{◌≡◌, ◌+◌, ◌≤◌, ℕ, slice_index, length, IfOk};
ghost use Rattle.wire_frames.specs.Writing.{CanPutEntry, CanPutOutput};

use access_log::{Output, StampedEntry, What};
use plain_text::{Bytes, NoMemory, Packet};
use std::alloc::{AllocError, Global};
use std::test::Fail;
use thread_clock::Stamp;
use wire_frames::{
    Frame, FrameError, FrameFault, entry_length, output_length, put_entry, put_output, take_frame,
};

/// The first touch of thread 0, of variable 0 and at place 1, in epoch 1 and of one thread, in version 1.
const OLD_TOUCH: &[u8] = &[
    0x01, 0x01, 0x00, 0x00, 0x00, 0x2d, 0x00, 0x00, 0x00, 0x01, 0x00, 0x01, 0x00, 0x00, 0x00, 0x00,
    0x00, 0x00, 0x00, 0x01, 0x00, 0x00, 0x00, 0x00, 0x00, 0x00, 0x00, 0x00, 0x00, 0x00, 0x00, 0x00,
    0x00, 0x00, 0x00, 0x01, 0x01, 0x00, 0x00, 0x00, 0x00, 0x00, 0x00, 0x00, 0x01,
];

/// The same in version 2.
const TOUCH: &[u8] = &[
    0x01, 0x02, 0x00, 0x00, 0x00, 0x2f, 0x00, 0x00, 0x00, 0x01, 0x00, 0x01, 0x00, 0x00, 0x00, 0x00,
    0x00, 0x00, 0x00, 0x01, 0x00, 0x00, 0x00, 0x00, 0x00, 0x00, 0x00, 0x00, 0x00, 0x00, 0x00, 0x00,
    0x00, 0x00, 0x00, 0x01, 0x01, 0x00, 0x01, 0x00, 0x00, 0x00, 0x00, 0x00, 0x00, 0x00, 0x01,
];

/// The second output of thread 2, of three threads, with the components 5, 0 and 7 and three captured bytes, in version
/// 1.
const OLD_OUTPUT: &[u8] = &[
    0x02, 0x01, 0x00, 0x00, 0x00, 0x48, 0x00, 0x00, 0x00, 0x01, 0x02, 0x00, 0x00, 0x00, 0x00, 0x00,
    0x00, 0x00, 0x00, 0x02, 0x00, 0x00, 0x00, 0x00, 0x00, 0x00, 0x00, 0x09, 0x03, 0x00, 0x00, 0x00,
    0x00, 0x00, 0x00, 0x00, 0x05, 0x00, 0x00, 0x00, 0x00, 0x00, 0x00, 0x00, 0x00, 0x00, 0x00, 0x00,
    0x00, 0x00, 0x00, 0x00, 0x07, 0x00, 0x00, 0x00, 0x64, 0x00, 0x00, 0x00, 0x05, 0x00, 0x00, 0x00,
    0x2a, 0x00, 0x00, 0x00, 0x03, 0x61, 0x62, 0x63,
];

/// The same in version 2.
const OUTPUT: &[u8] = &[
    0x02, 0x02, 0x00, 0x00, 0x00, 0x42, 0x00, 0x00, 0x00, 0x01, 0x02, 0x00, 0x00, 0x00, 0x00, 0x00,
    0x00, 0x00, 0x00, 0x02, 0x00, 0x00, 0x00, 0x00, 0x00, 0x00, 0x00, 0x09, 0x03, 0x00, 0x05, 0x00,
    0x00, 0x00, 0x00, 0x00, 0x00, 0x00, 0x05, 0x00, 0x00, 0x00, 0x00, 0x00, 0x00, 0x00, 0x07, 0x00,
    0x00, 0x00, 0x64, 0x00, 0x00, 0x00, 0x05, 0x00, 0x00, 0x00, 0x2a, 0x00, 0x00, 0x00, 0x03, 0x61,
    0x62, 0x63,
];

/// A stamp of one thread.
fn one_component(first: u32) -> Stamp
    ensures { (u : ℕ) → 1 ≤ u → slice_index result u ≡ 0 }
{
    let mut components = [0; 16];
    components[0] = first;
    Stamp::new(components)
}

/// A stamp of three threads.
fn three_components(first: u32, second: u32, third: u32) -> Stamp
    ensures { (u : ℕ) → 3 ≤ u → slice_index result u ≡ 0 }
{
    let mut components = [0; 16];
    components[0] = first;
    components[1] = second;
    components[2] = third;
    Stamp::new(components)
}

fn touch() -> StampedEntry
    ensures { CanPutEntry 1 1 result }
{
    StampedEntry {
        thread: 0,
        number: 1,
        what: What::Access { var: 0, place: 1 },
        stamp: one_component(1),
    }
}

/// Why no frame is read, if none is.
fn fault_of(alloc: Global, bytes: &[u8]) -> Option<FrameError> {
    match take_frame(alloc, bytes) {
        Ok(_) => None,
        Err(error) => Some(error),
    }
}

/// Whether the bytes are the frame of this entry, in epoch 1 and of this number of threads.
fn is_entry(alloc: Global, bytes: &[u8], threads: u32, entry: &StampedEntry) -> bool {
    let Ok((frame, size)) = take_frame(alloc, bytes) else {
        return false;
    };
    match &frame {
        Frame::Entry {
            epoch,
            threads: told,
            entry: read,
        } => (*epoch, *told, size) == (1, threads, bytes.len()) && read.entry() == Some(*entry),
        Frame::Output { .. } => false,
    }
}

/// The bytes with another one at a place.
fn with_byte(alloc: Global, bytes: &[u8], place: usize, byte: u8) -> Result<Vec<u8>, AllocError>
    requires { place + 1 ≤ length bytes.now }
{
    let mut changed = Vec::from_slice(alloc, bytes)?;
    changed[place] = byte;
    Ok(changed)
}

/// Whether the touch is written in version 2.
fn touch_is_written(alloc: Global) -> Result<bool, NoMemory> {
    Ok(put_entry(alloc, 1, 1, &touch())?.as_slice() == TOUCH)
}

/// Whether the touch has a frame of 47 bytes, which is read in both versions.
fn touch_is_read(alloc: Global) -> bool {
    let entry = touch();
    entry_length(&entry) == 47
        && is_entry(alloc, TOUCH, 1, &entry)
        && is_entry(alloc, OLD_TOUCH, 1, &entry)
}

/// An output whose packet has three captured bytes.
fn output(alloc: Global) -> Result<Output, NoMemory>
    ensures { IfOk result (CanPutOutput 1 3) }
{
    Ok(Output {
        thread: 2,
        number: 2,
        input: 9,
        stamp: three_components(5, 0, 7),
        packet: Packet {
            seconds: 100,
            fraction: 5,
            original: 42,
            bytes: Bytes::of(alloc, b"abc")?,
        },
    })
}

fn is_same_packet(first: &Packet, second: &Packet) -> bool {
    (first.seconds, first.fraction, first.original)
        == (second.seconds, second.fraction, second.original)
        && first.bytes.as_slice() == second.bytes.as_slice()
}

fn is_same_output(first: &Output, second: &Output) -> bool {
    (first.thread, first.number, first.input) == (second.thread, second.number, second.input)
        && first.stamp == second.stamp
        && is_same_packet(&first.packet, &second.packet)
}

/// Whether the bytes are the frame of this output, in epoch 1 and of three threads.
fn is_output(alloc: Global, bytes: &[u8], output: &Output) -> bool {
    let Ok((frame, size)) = take_frame(alloc, bytes) else {
        return false;
    };
    let Frame::Output {
        epoch,
        threads,
        output: read,
    } = frame
    else {
        return false;
    };
    let Some(read) = read.into_output() else {
        return false;
    };
    (epoch, threads, size) == (1, 3, bytes.len()) && is_same_output(&read, output)
}

/// Whether the output is written in version 2.
fn output_is_written(alloc: Global) -> Result<bool, NoMemory> {
    Ok(put_output(alloc, 1, 3, output(alloc)?)?.as_slice() == OUTPUT)
}

/// Whether its frame has 66 bytes, and is read in both versions.
fn output_is_read(alloc: Global) -> Result<bool, NoMemory> {
    let output = output(alloc)?;
    Ok(
        output_length(&output) == 66
            && is_output(alloc, OUTPUT, &output)
            && is_output(alloc, OLD_OUTPUT, &output),
    )
}

/// What an entry may be of, and the code of each.
const KINDS: [(What, u8); 4] = [
    (What::Access { var: 255, place: 3 }, 1),
    (What::Clock(1_600_000_000_000_000), 2),
    (What::Draw(0xffff_ffff), 3),
    (What::Read { var: 7, after: 0 }, 4),
];

/// Whether the bytes are those of an entry of this code with two components, the second and the third.
fn has_code(bytes: &[u8], code: u8) -> bool {
    bytes.len() == 55 && bytes[11] == code && bytes[38] == 6
}

/// Whether an entry of three threads is written with this code, and is read again.
fn is_kind(alloc: Global, entry: &StampedEntry, code: u8) -> Result<bool, NoMemory>
    requires { CanPutEntry 1 3 entry.now }
{
    let written = put_entry(alloc, 1, 3, entry)?;
    let bytes = written.as_slice();
    Ok(has_code(bytes, code) && is_entry(alloc, bytes, 3, entry))
}

/// Whether entries of all kinds are.
fn are_kinds(alloc: Global) -> Result<bool, NoMemory> {
    for (what, code) in &KINDS {
        let entry = StampedEntry {
            thread: 2,
            number: 7,
            what: *what,
            stamp: three_components(0, 4, 7),
        };
        if !is_kind(alloc, &entry, *code)? {
            return Ok(false);
        }
    }
    Ok(true)
}

#[test]
fn frames_are_written_and_read(rt: HostRuntime) -> Result<(), Fail> {
    let alloc = rt.alloc();
    assert!(rt; touch_is_written(alloc)? && touch_is_read(alloc));
    assert!(rt; output_is_written(alloc)? && output_is_read(alloc)?);
    assert!(rt; are_kinds(alloc)?);
    Ok(())
}

/// A frame, a place in it, another byte there, and the fault that is told then, if there is one.
const CHANGED: [(&[u8], usize, u8, Option<FrameFault>); 40] = [
    (OLD_TOUCH, 0, 3, Some(FrameFault::BadKind)),
    (OLD_TOUCH, 1, 9, Some(FrameFault::BadVersion)),
    (OLD_TOUCH, 1, 2, Some(FrameFault::BadLength)),
    (OLD_TOUCH, 5, 44, Some(FrameFault::BadLength)),
    (OLD_TOUCH, 5, 46, Some(FrameFault::Short)),
    (OLD_TOUCH, 11, 4, Some(FrameFault::OutOfRange)),
    (OLD_TOUCH, 36, 0, Some(FrameFault::OutOfRange)),
    (OLD_TOUCH, 36, 2, Some(FrameFault::BadLength)),
    (OLD_TOUCH, 44, 0, None),
    (TOUCH, 0, 3, Some(FrameFault::BadKind)),
    (TOUCH, 1, 0, Some(FrameFault::BadVersion)),
    (TOUCH, 1, 1, Some(FrameFault::BadLength)),
    (TOUCH, 5, 38, Some(FrameFault::BadLength)),
    (TOUCH, 5, 46, Some(FrameFault::BadLength)),
    (TOUCH, 5, 48, Some(FrameFault::Short)),
    (TOUCH, 9, 0, Some(FrameFault::OutOfRange)),
    (TOUCH, 10, 1, Some(FrameFault::OutOfRange)),
    (TOUCH, 11, 2, Some(FrameFault::OutOfRange)),
    (TOUCH, 11, 4, None),
    (TOUCH, 11, 5, Some(FrameFault::OutOfRange)),
    (TOUCH, 19, 0, Some(FrameFault::OutOfRange)),
    (TOUCH, 26, 1, Some(FrameFault::OutOfRange)),
    (TOUCH, 27, 255, None),
    (TOUCH, 35, 0, Some(FrameFault::OutOfRange)),
    (TOUCH, 36, 0, Some(FrameFault::OutOfRange)),
    (TOUCH, 36, 2, None),
    (TOUCH, 36, 16, None),
    (TOUCH, 36, 17, Some(FrameFault::OutOfRange)),
    (TOUCH, 37, 1, Some(FrameFault::OutOfRange)),
    (TOUCH, 38, 0, Some(FrameFault::BadLength)),
    (TOUCH, 38, 2, Some(FrameFault::OutOfRange)),
    (TOUCH, 46, 0, Some(FrameFault::OutOfRange)),
    (OUTPUT, 11, 1, Some(FrameFault::OutOfRange)),
    (OUTPUT, 27, 0, Some(FrameFault::OutOfRange)),
    (OUTPUT, 30, 4, Some(FrameFault::BadLength)),
    (OUTPUT, 30, 6, None),
    (OUTPUT, 30, 7, Some(FrameFault::BadLength)),
    (OUTPUT, 30, 9, Some(FrameFault::OutOfRange)),
    (OUTPUT, 60, 5, Some(FrameFault::OutOfRange)),
    (OUTPUT, 62, 4, Some(FrameFault::BadLength)),
];

/// Whether this is the fault of a frame with another byte at a place in it, or there is none.
fn faults(
    alloc: Global,
    frame: &[u8],
    place: usize,
    byte: u8,
    fault: Option<FrameFault>,
) -> Result<bool, AllocError> {
    if place >= frame.len() {
        return Ok(false);
    }
    let changed = with_byte(alloc, frame, place, byte)?;
    Ok(fault_of(alloc, &changed) == fault.map(FrameError::Fault))
}

#[test]
fn the_first_test_that_fails_answers(rt: HostRuntime) {
    for (frame, place, byte, fault) in &CHANGED {
        let answer = faults(rt.alloc(), frame, *place, *byte, *fault);
        assert!(rt; matches!(answer, Ok(true)), "byte {place} is {byte}");
    }
}

/// Whether this many of the first bytes of a frame are one that is cut.
fn is_cut(alloc: Global, frame: &[u8], length: usize) -> bool {
    length < frame.len()
        && fault_of(alloc, &frame[..length]) == Some(FrameError::Fault(FrameFault::Short))
}

#[test]
fn each_first_part_of_a_frame_is_short(rt: HostRuntime) {
    for length in 0..OLD_TOUCH.len() {
        assert!(rt; is_cut(rt.alloc(), OLD_TOUCH, length), "{length} bytes");
    }
}
