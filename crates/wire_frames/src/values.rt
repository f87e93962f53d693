ghost use Rattle.std.specs.Prelude.{◌≡◌, ◌+◌, ◌≤◌, ◌^◌, ◌<◌, ◌==◌, not, true, false, length};
ghost use Rattle.std.specs.Prelude.{option_map, Some, None, IfOk, IfErr, IfSome, IfNone};
ghost use Rattle.plain_text.specs.declared.kind.Kind.TheVariants.{Log, Out};
ghost use Rattle.wire_frames.specs.declared.version.Version.TheVariants.{One, Two};
ghost use Rattle.wire_frames.specs.declared.frame.FrameFault.TheVariants.{OutOfRange};
ghost use Rattle.wire_frames.specs.Faults.{first_failure, field_tests, has_zero_component};
ghost use Rattle.wire_frames.specs.Faults.{is_not_sent, needed};
ghost use Rattle.wire_frames.specs.Parts.{common_at, layout_of, IsFieldCause, IsReadingCause};
ghost use Rattle.wire_frames.specs.Parts.{IsTold};
ghost use Rattle.wire_frames.specs.Places.{entry_at, kind_at, number_at, output_at, packet_from};
ghost use Rattle.wire_frames.specs.Places.{stamp_at, version_at, what_at, what_from};

use crate::bytes::{byte_at, u32_at, u64_at};
use crate::layout::{Layout, PACKET_HEADER, place_of_components};
use crate::stamp::read_stamp;
use crate::version::Version;
use crate::{Frame, FrameEntry, FrameError, FrameFault, FrameOutput};
use access_log::What;
use plain_text::{Bytes, Kind, NoMemory, Packet};
use std::alloc::Global;
use thread_clock::EntryCounts;

/// The place of the code of what an entry did.
const CODE: usize = 11;

/// The place of the variable, of the value that was told, or of an output's input.
const SUBJECT: usize = 20;

/// The place of an entry's place.
const PLACE: usize = 28;

/// What entries and outputs have in common.
#[derive(Clone, Copy, Debug)]
pub(crate) struct Common {
    pub(crate) epoch: u32,
    pub(crate) thread: u32,
    pub(crate) number: u64,
    pub(crate) stamp: EntryCounts,
}

/// What is in a frame with these parts.
pub(crate) fn read_value(alloc: Global, bytes: &[u8], layout: &Layout) -> Result<Frame, FrameError>
    requires found { layout.now ≡ layout_of bytes.now }
    requires whole { needed (kind_at bytes.now) (version_at bytes.now) bytes.now
        ≤ length bytes.now }
    requires mask { layout.now.mask < 2 ^ 16 }
    ensures passed { IfOk result (λ frame.
        first_failure (field_tests (kind_at bytes.now) (version_at bytes.now) bytes.now) ≡ None) }
    ensures value { IfOk result (IsTold (kind_at bytes.now) (version_at bytes.now) bytes.now) }
    ensures fault { IfErr result
        (IsReadingCause (kind_at bytes.now) (version_at bytes.now) bytes.now) }
{
    match layout.kind {
        Kind::Log => match read_entry(bytes, layout) {
            Some(frame) => Ok(frame),
            None => Err(FrameError::Fault(FrameFault::OutOfRange)),
        },
        Kind::Out => read_output(alloc, bytes, layout),
    }
}

/// The entry in a frame with these parts, unless a field is out of its range.
fn read_entry(bytes: &[u8], layout: &Layout) -> Option<Frame>
    requires found { layout.now ≡ layout_of bytes.now }
    requires kind { kind_at bytes.now ≡ Log }
    requires whole { needed (kind_at bytes.now) (version_at bytes.now) bytes.now
        ≤ length bytes.now }
    requires mask { layout.now.mask < 2 ^ 16 }
    ensures passed { IfSome result (λ frame.
        first_failure (field_tests Log (version_at bytes.now) bytes.now) ≡ None) }
    ensures value { IfSome result (λ frame. option_map (entry_at (version_at bytes.now) bytes.now)
        (what_at (version_at bytes.now) bytes.now) ≡ Some frame) }
    ensures fault { IfNone result
        (first_failure (field_tests Log (version_at bytes.now) bytes.now) ≡ Some OutOfRange) }
{
    let common = read_common(bytes, layout)?;
    let what = read_what(
        layout.version,
        byte_at(bytes, CODE),
        u64_at(bytes, SUBJECT),
        u64_at(bytes, PLACE),
    )?;
    Some(Frame::Entry {
        epoch: common.epoch,
        threads: layout.threads,
        entry: FrameEntry {
            thread: common.thread,
            number: common.number,
            what,
            stamp: common.stamp,
        },
    })
}

/// The output in a frame with these parts, unless a field is out of its range.
fn read_output(alloc: Global, bytes: &[u8], layout: &Layout) -> Result<Frame, FrameError>
    requires found { layout.now ≡ layout_of bytes.now }
    requires kind { kind_at bytes.now ≡ Out }
    requires whole { needed (kind_at bytes.now) (version_at bytes.now) bytes.now
        ≤ length bytes.now }
    requires mask { layout.now.mask < 2 ^ 16 }
    ensures passed { IfOk result (λ frame.
        first_failure (field_tests Out (version_at bytes.now) bytes.now) ≡ None) }
    ensures value { IfOk result (λ frame. frame ≡ output_at (version_at bytes.now) bytes.now) }
    ensures fault { IfErr result (IsFieldCause Out (version_at bytes.now) bytes.now) }
{
    let Some(common) = read_common(bytes, layout) else {
        return Err(FrameError::Fault(FrameFault::OutOfRange));
    };
    let input = u64_at(bytes, SUBJECT);
    if byte_at(bytes, CODE) != 0 || input == 0 {
        return Err(FrameError::Fault(FrameFault::OutOfRange));
    }
    let Ok(packet) = read_packet(alloc, bytes, layout.end) else {
        return Err(FrameError::NoMemory);
    };
    Ok(Frame::Output {
        epoch: common.epoch,
        threads: layout.threads,
        output: FrameOutput {
            thread: common.thread,
            number: common.number,
            input,
            stamp: common.stamp,
            packet,
        },
    })
}

/// The packet of an output, whose fields begin at this place.
fn read_packet(alloc: Global, bytes: &[u8], place: usize) -> Result<Packet, NoMemory>
    requires header { place + 16 ≤ length bytes.now }
    requires whole { place + 16 + number_at 4 (place + 12) bytes.now ≤ length bytes.now }
    ensures { IfOk result (λ packet. packet ≡ packet_from place bytes.now) }
{
    let captured = u32_at(bytes, place + 12) as usize;
    let first = place + PACKET_HEADER;
    Ok(Packet {
        seconds: u32_at(bytes, place),
        fraction: u32_at(bytes, place + 4),
        original: u32_at(bytes, place + 8),
        bytes: Bytes::of(alloc, &bytes[first..first + captured])?,
    })
}

/// What entries and outputs have in common, unless one of these fields is out of its range.
fn read_common(bytes: &[u8], layout: &Layout) -> Option<Common>
    requires found { layout.now ≡ layout_of bytes.now }
    requires whole { needed (kind_at bytes.now) (version_at bytes.now) bytes.now
        ≤ length bytes.now }
    requires mask { layout.now.mask < 2 ^ 16 }
    ensures passed { IfSome result (λ common.
        is_not_sent (kind_at bytes.now) (version_at bytes.now) bytes.now ≡ false) }
    ensures value { IfSome result (λ common.
        common ≡ common_at (kind_at bytes.now) (version_at bytes.now) bytes.now) }
    ensures fault { IfNone result
        (is_not_sent (kind_at bytes.now) (version_at bytes.now) bytes.now ≡ true) }
{
    let epoch = u32_at(bytes, 6);
    let thread = u32::from(byte_at(bytes, 10));
    let number = u64_at(bytes, 12);
    if epoch == 0 || layout.threads <= thread || number == 0 {
        return None;
    }
    Some(Common {
        epoch,
        thread,
        number,
        stamp: find_stamp(bytes, layout)?,
    })
}

/// The stamp, unless a component of a frame of version 2 is 0.
fn find_stamp(bytes: &[u8], layout: &Layout) -> Option<EntryCounts>
    requires found { layout.now ≡ layout_of bytes.now }
    requires whole { needed (kind_at bytes.now) (version_at bytes.now) bytes.now
        ≤ length bytes.now }
    requires mask { layout.now.mask < 2 ^ 16 }
    ensures passed { IfSome result (λ stamp.
        has_zero_component (kind_at bytes.now) (version_at bytes.now) bytes.now ≡ false) }
    ensures value { IfSome result (λ stamp.
        stamp ≡ stamp_at (kind_at bytes.now) (version_at bytes.now) bytes.now) }
    ensures fault { IfNone result
        (has_zero_component (kind_at bytes.now) (version_at bytes.now) bytes.now ≡ true) }
{
    let first = place_of_components(layout.kind, layout.version);
    let (stamp, has_zero) = read_stamp(layout.mask, &bytes[first..]);
    if layout.version == Version::Two && has_zero {
        return None;
    }
    Some(stamp)
}

/// What an entry with this code did; the subject is the variable or the value that was told.
fn read_what(version: Version, code: u8, subject: u64, place: u64) -> Option<What>
    ensures { result ≡ what_from version code subject place }
{
    match (code, version) {
        (1, _) if subject < 256 && place > 0 => Some(What::Access {
            var: subject as u32,
            place,
        }),
        (2, _) if place == 0 => Some(What::Clock(subject)),
        (3, _) if place == 0 => Some(What::Draw(subject)),
        (4, Version::Two) if subject < 256 => Some(What::Read {
            var: subject as u32,
            after: place,
        }),
        _ => None,
    }
}
