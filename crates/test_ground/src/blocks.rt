use crate::parts::joined;
use pcapng_io::{AnyNext, AnyReader, AnyStarted, open_capture};
use plain_text::{Bytes, NoMemory};
use std::alloc::Global;
use std::test::Fail;
use world_io::SliceSource;

const SECTION: &[u8] =
    b"\x0a\x0d\x0d\x0a\x1c\0\0\0\x4d\x3c\x2b\x1a\x01\0\0\0\xff\xff\xff\xff\xff\xff\xff\xff\x1c\0\0\0";

const INTERFACE: &[u8] = b"\x01\0\0\0\x14\0\0\0\x01\0\0\0\0\0\x04\0\x14\0\0\0";

/// How many packets a reader gives, and what it gives then.
fn read_on(reader: &mut AnyReader, source: &mut SliceSource<'_>) -> (u32, AnyNext) {
    for count in 0..100_000u32 {
        let next = reader.next_packet(source);
        if !matches!(&next, AnyNext::Packet(_)) {
            return (count, next);
        }
    }
    (100_000, AnyNext::Over)
}

/// What comes of a capture that gives this number of packets and then this, in words.
fn told_end(alloc: Global, count: u32, next: &AnyNext) -> Result<String, NoMemory> {
    Ok(match next {
        AnyNext::End => format!(in alloc; "{count} packets")?,
        AnyNext::Refused(fault) => format!(in alloc; "{fault}")?,
        AnyNext::TooLarge(limit) => format!(in alloc; "too large: {limit}")?,
        _ => String::new(alloc),
    })
}

/// What reading these bytes comes to, in words.
fn told(alloc: Global, bytes: &[u8]) -> Result<String, NoMemory> {
    let mut source = SliceSource::of(bytes);
    match open_capture(alloc, &mut source) {
        AnyStarted::Reader(mut reader) => {
            let (count, next) = read_on(&mut reader, &mut source);
            told_end(alloc, count, &next)
        }
        AnyStarted::Refused(fault) => Ok(format!(in alloc; "{fault}")?),
        AnyStarted::ReadFault | AnyStarted::NoMemory => Ok(String::new(alloc)),
    }
}

/// The block of a simple packet of no bytes.
const EMPTY: &[u8] = b"\x03\0\0\0\x10\0\0\0\0\0\0\0\x10\0\0\0";

/// The first bytes of a block, behind 65,536 packets, and what reading comes to. The last ones begin a section.
const MORE: [(&[u8], &str); 7] = [
    (b"", "65536 packets"),
    (b"\x03\0\0", "offset 1048624: short block"),
    (b"\x03\0\0\0", "too large: packets"),
    (b"\x06\0\0\0", "too large: packets"),
    (b"\x01\0\0\0", "offset 1048624: short block"),
    (b"\x0b\0\0\0\x0c\0\0\0\x0c\0\0\0", "65536 packets"),
    (SECTION, "65536 packets"),
];

/// A section with 65,536 packets.
fn many_packets(alloc: Global) -> Result<Bytes, NoMemory> {
    let mut bytes = joined(alloc, &[SECTION, INTERFACE])?;
    for _ in 0..65_536 {
        bytes.extend(EMPTY)?;
    }
    Ok(bytes)
}

/// Whether two parts of a file come to this, in the words of `told`.
fn parts_come_to(alloc: Global, first: &[u8], last: &[u8], wanted: &str) -> Result<bool, NoMemory> {
    let bytes = joined(alloc, &[first, last])?;
    Ok(told(alloc, bytes.as_slice())?.as_str() == wanted)
}

#[test]
fn the_type_of_the_65537th_packet_is_too_large(rt: HostRuntime) -> Result<(), Fail> {
    let bytes = many_packets(rt.alloc())?;
    for (more, want) in &MORE {
        let right = parts_come_to(rt.alloc(), bytes.as_slice(), more, want)?;
        assert!(rt; right, "{more:?}");
    }
    Ok(())
}
