ghost use Rattle.std.specs.Prelude.{◌≡◌, ◌++◌, IfOk};
ghost use Rattle.std.specs.List.{flat_map};
ghost use Rattle.traffic_gen.specs.Frame.{protocol_number, ethernet_header, ipv4_header};
ghost use Rattle.traffic_gen.specs.Frame.{tcp_segment, udp_datagram, transport, pseudo_header};
ghost use Rattle.traffic_gen.specs.Frame.{written_checksum, transport_checksum, frame};

use crate::fields::{Fields, Protocol};
use inet_checksum::checksum;
use plain_text::{Bytes, NoMemory};
use std::alloc::Global;

/// The bytes of every frame.
pub(crate) const FRAME_LENGTH: usize = 60;

/// The bytes of the IPv4 header.
const HEADER_LENGTH: u16 = 20;

/// The bytes that IPv4 carries.
const TRANSPORT_LENGTH: u16 = 26;

const TRANSPORT_WORDS: usize = 13;

const PSEUDO_WORDS: usize = 6;

/// The frame of these fields, with its checksums.
pub(crate) fn build_frame(alloc: Global, fields: &Fields) -> Result<Bytes, NoMemory>
    ensures { IfOk result (λ bytes. bytes ≡ frame fields.now) }
{
    let header_checksum = checksum(ipv4_header(fields, 0).as_flattened());
    let transport_checksum = transport_checksum(fields);
    let mut frame = Bytes::from_vec(Vec::with_capacity(alloc, FRAME_LENGTH)?);
    frame.extend(ethernet_header().as_flattened())?;
    frame.extend(ipv4_header(fields, header_checksum).as_flattened())?;
    frame.extend(transport(fields, transport_checksum).as_flattened())?;
    Ok(frame)
}

/// To 020000000002, from 020000000001, of type IPv4. As all headers here it is in words of 16 bits.
fn ethernet_header() -> [[u8; 2]; 7]
    ensures { flat_map (λ word. word) result ≡ ethernet_header }
{
    [[2, 0], [0, 0], [0, 2], [2, 0], [0, 0], [0, 1], [0x08, 0]]
}

fn ipv4_header(fields: &Fields, checksum: u16) -> [[u8; 2]; 10]
    ensures { flat_map (λ word. word) result ≡ ipv4_header fields.now checksum }
{
    [
        [0x45, 0], // version 4, a header of 5 words of 32 bits, type of service
        (HEADER_LENGTH + TRANSPORT_LENGTH).to_be_bytes(),
        fields.identification.to_be_bytes(),
        [0, 0], // flags and fragment offset
        [64, protocol_number(fields.protocol)], // time to live, protocol
        checksum.to_be_bytes(),
        [10, 0],
        [0, fields.source_host],
        [198, 51],
        [100, fields.destination_host],
    ]
}

/// The pseudo-header of TCP and UDP.
fn pseudo_header(fields: &Fields) -> [[u8; 2]; PSEUDO_WORDS]
    ensures { flat_map (λ word. word) result ≡ pseudo_header fields.now }
{
    [
        [10, 0],
        [0, fields.source_host],
        [198, 51],
        [100, fields.destination_host],
        [0, protocol_number(fields.protocol)],
        TRANSPORT_LENGTH.to_be_bytes(),
    ]
}

/// The number that IPv4 has for a protocol.
fn protocol_number(protocol: Protocol) -> u8
    ensures { result ≡ protocol_number protocol }
{
    match protocol {
        Protocol::Tcp => 6,
        Protocol::Udp => 17,
    }
}

fn transport(fields: &Fields, checksum: u16) -> [[u8; 2]; TRANSPORT_WORDS]
    ensures { flat_map (λ word. word) result ≡ transport fields.now checksum }
{
    match fields.protocol {
        Protocol::Tcp => tcp_segment(fields.source_port, checksum),
        Protocol::Udp => udp_datagram(fields.source_port, checksum),
    }
}

/// An acknowledgment with six zero bytes.
fn tcp_segment(source_port: u16, checksum: u16) -> [[u8; 2]; TRANSPORT_WORDS]
    ensures { flat_map (λ word. word) result ≡ tcp_segment source_port checksum }
{
    [
        source_port.to_be_bytes(),
        80u16.to_be_bytes(), // destination port
        [0, 0], // sequence number
        [0, 0],
        [0, 0], // acknowledgment number
        [0, 0],
        [0x50, 0x10], // a header of 5 words of 32 bits, ACK
        1024u16.to_be_bytes(), // window
        checksum.to_be_bytes(),
        [0, 0], // urgent pointer
        [0, 0], // data
        [0, 0],
        [0, 0],
    ]
}

/// A datagram with eighteen zero bytes.
fn udp_datagram(source_port: u16, checksum: u16) -> [[u8; 2]; TRANSPORT_WORDS]
    ensures { flat_map (λ word. word) result ≡ udp_datagram source_port checksum }
{
    let mut words = [[0, 0]; TRANSPORT_WORDS];
    words[0] = source_port.to_be_bytes();
    words[1] = 53u16.to_be_bytes(); // destination port
    words[2] = TRANSPORT_LENGTH.to_be_bytes();
    words[3] = checksum.to_be_bytes();
    words
}

/// The checksum over the pseudo-header and the transport, as it is written.
fn transport_checksum(fields: &Fields) -> u16
    ensures { result ≡ transport_checksum fields.now }
{
    let covered = join(&pseudo_header(fields), &transport(fields, 0));
    written_checksum(fields.protocol, checksum(covered.as_flattened()))
}

/// The pseudo-header with the transport behind it.
fn join(
    pseudo_header: &[[u8; 2]; PSEUDO_WORDS],
    transport: &[[u8; 2]; TRANSPORT_WORDS],
) -> [[u8; 2]; PSEUDO_WORDS + TRANSPORT_WORDS]
    ensures { result ≡ pseudo_header.now ++ transport.now }
{
    let mut joined = [[0; 2]; PSEUDO_WORDS + TRANSPORT_WORDS];
    joined[..PSEUDO_WORDS].copy_from_slice(pseudo_header);
    joined[PSEUDO_WORDS..].copy_from_slice(transport);
    joined
}

/// How a transport checksum is written: in UDP a 0 means that there is none (RFC 768).
fn written_checksum(protocol: Protocol, checksum: u16) -> u16
    ensures { result ≡ written_checksum protocol checksum }
{
    match (protocol, checksum) {
        (Protocol::Udp, 0) => 0xffff,
        _ => checksum,
    }
}
