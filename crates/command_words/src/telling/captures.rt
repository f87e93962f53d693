use super::advice::{Advice, FileAdvice};
use super::files::read_again;
use super::shown::Shown;
use pcap_io::{CaptureCause, CaptureFault};
use pcapng_io::{AnyCaptured, NgCause, NgFault, read_any_capture};
use plain_text::{Packets, Text, Unit};
use std::rt::Files;
use world_io::SliceSource;

/// Where a savefile's header has the link type.
const LINK_TYPE: usize = 20;

/// The packets of a capture.
#[derive(Drop)]
pub struct Captured {
    /// What the fractions of their times count.
    pub unit: Unit,
    pub packets: Packets,
}

/// A capture that is read again, if it is no stream and is accepted.
pub fn capture_again<R: AllocGlobal + Files>(rt: &R, name: &Text) -> Option<Captured> {
    match any_again(rt, name)? {
        AnyCaptured::Capture { unit, packets } => Some(Captured { unit, packets }),
        _ => None,
    }
}

/// Whether a capture that is read again passes a limit.
pub fn passes_limit<R: AllocGlobal + Files>(rt: &R, name: &Text) -> bool {
    matches!(any_again(rt, name), Some(AnyCaptured::TooLarge(_)))
}

fn any_again<R: AllocGlobal + Files>(rt: &R, name: &Text) -> Option<AnyCaptured> {
    let bytes = read_again(rt, name)?;
    let mut source = SliceSource::of(&bytes);
    Some(read_any_capture(rt.alloc(), &mut source))
}

/// What a file is that begins as no capture does, which link type one has, or where it ends.
pub fn advise_pcap<'a>(
    name: Shown<'a>,
    bytes: &'a [u8],
    fault: CaptureFault,
) -> Option<Advice<'a>> {
    match fault.cause {
        CaptureCause::BadMagic => Some(Advice::Name(name, kind_of(bytes))),
        CaptureCause::BadLinkType => link_type(name, pcap_link_type(bytes)?),
        CaptureCause::ShortHeader => ends(name, bytes, "it is no capture, or was cut"),
        CaptureCause::ShortRecord => ends(name, bytes, "it may have been cut"),
        CaptureCause::BadVersion | CaptureCause::TooLong => None,
    }
}

/// Which link type a pcapng capture has, or where it ends.
pub fn advise_pcapng<'a>(name: Shown<'a>, bytes: &'a [u8], fault: NgFault) -> Option<Advice<'a>> {
    match fault.cause {
        NgCause::BadLinkType => link_type(name, block_link_type(bytes, fault.offset)?),
        NgCause::ShortBlock => ends(name, bytes, "it may have been cut"),
        _ => None,
    }
}

fn link_type(name: Shown<'_>, number: u32) -> Option<Advice<'_>> {
    Some(Advice::File(FileAdvice::LinkType(name, number)))
}

fn ends<'a>(name: Shown<'a>, bytes: &'a [u8], why: &'static str) -> Option<Advice<'a>> {
    Some(Advice::File(FileAdvice::Ends(name, bytes.len(), why)))
}

/// What a file is that begins as no capture does: what compressed it, by its first bytes (RFC 1952, section 2.3.1; RFC
/// 8878, section 3.1.1).
fn kind_of(bytes: &[u8]) -> &'static str {
    if bytes.starts_with(b"\x1f\x8b") {
        ": the file is compressed (gzip): unpack it first"
    } else if bytes.starts_with(b"\x28\xb5\x2f\xfd") {
        ": the file is compressed (zstd): unpack it first"
    } else if bytes.starts_with(b"\xfd7zX") {
        ": the file is compressed (xz): unpack it first"
    } else if bytes.starts_with(b"BZh") {
        ": the file is compressed (bzip2): unpack it first"
    } else {
        ": it begins as neither a pcap nor a pcapng capture does"
    }
}

/// The link type in the header of a savefile, in the byte order that its first byte tells.
fn pcap_link_type(bytes: &[u8]) -> Option<u32> {
    let [a, b, c, d] = four_at(bytes, LINK_TYPE)?;
    match bytes.first()? {
        0xd4 | 0x4d => Some(u32::from_le_bytes([a, b, c, d])),
        _ => Some(u32::from_be_bytes([a, b, c, d])),
    }
}

/// The link type of the interface description at this offset, in the byte order that its type
/// tells, which is 1.
fn block_link_type(bytes: &[u8], offset: u64) -> Option<u32> {
    let offset = usize::try_from(offset).ok()?;
    let [first, ..] = four_at(bytes, offset)?;
    let [a, b, ..] = four_at(bytes, offset.checked_add(8)?)?;
    if first == 1 {
        Some(u32::from(u16::from_le_bytes([a, b])))
    } else {
        Some(u32::from(u16::from_be_bytes([a, b])))
    }
}

/// Four bytes from this place on.
fn four_at(bytes: &[u8], place: usize) -> Option<[u8; 4]> {
    match bytes.get(place..)? {
        [a, b, c, d, ..] => Some([*a, *b, *c, *d]),
        _ => None,
    }
}
