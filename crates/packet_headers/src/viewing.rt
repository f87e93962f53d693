ghost use Rattle.std.specs.Prelude.{◌≡◌, ◌+◌, ◌≤◌, length, IfOk};
ghost use Rattle.packet_headers.specs.Fields.{header_end, protocol};
ghost use Rattle.packet_headers.specs.Rewriting.{CanRewrite};
ghost use Rattle.packet_headers.specs.View.{first_failure, flow_of, header_failures, least_header};
ghost use Rattle.packet_headers.specs.View.{packet_failures, viewed};

use crate::fields::{
    DESTINATION_ADDRESS, ETHER_TYPE, FLAGS_AND_OFFSET, IP_HEADER, IP_OPTIONS, PROTOCOL,
    SOURCE_ADDRESS, TOTAL_LENGTH, long_at, word_at,
};
use crate::flow::{TCP, UDP};
use crate::{Flow, NotFlow};

/// The Ethernet type of IPv4 (RFC 894).
const IPV4: u16 = 0x0800;

/// A captured frame as a flow, where it had `original` bytes on the wire.
///
/// Its headers are tested from the front to the back, and the first test that fails answers, as `NotFlow` says. No
/// checksum is verified. A total length of 0 is accepted, as the sending host's captures have it where the network card
/// fills it in; any other has room for both headers, and ends within the captured or the original bytes, whichever are
/// more.
pub fn view(frame: &[u8], original: u32) -> Result<Flow, NotFlow>
    ensures value { result ≡ viewed frame.now original }
    ensures rewritable { IfOk result (λ flow. CanRewrite frame.now flow) }
{
    let transport_at = find_transport(frame)?;
    check_packet(frame, original, transport_at)?;
    Ok(read_flow(frame, transport_at))
}

/// The flow of a frame that is one.
fn read_flow(frame: &[u8], transport_at: usize) -> Flow
    requires at { transport_at ≡ header_end frame.now }
    requires long_enough { header_end frame.now + least_header (protocol frame.now)
        ≤ length frame.now }
    requires behind_header { 34 ≤ header_end frame.now }
    ensures { result ≡ flow_of frame.now }
{
    let protocol = frame[PROTOCOL];
    let flags = if protocol == TCP {
        frame[transport_at + 13]
    } else {
        0
    };
    Flow {
        protocol,
        source: long_at(frame, SOURCE_ADDRESS),
        source_port: word_at(frame, transport_at),
        dest: long_at(frame, DESTINATION_ADDRESS),
        dest_port: word_at(frame, transport_at + 2),
        flags,
        transport_at: transport_at as u32,
    }
}

/// The end of the frame's IPv4 header.
fn find_transport(frame: &[u8]) -> Result<usize, NotFlow>
    ensures { result ≡ first_failure (header_failures frame.now) (header_end frame.now) }
{
    if frame.len() < IP_HEADER {
        return Err(NotFlow::Short);
    }
    if word_at(frame, ETHER_TYPE) != IPV4 {
        return Err(NotFlow::NotIpv4);
    }
    if frame.len() < IP_OPTIONS {
        return Err(NotFlow::Short);
    }
    if frame[IP_HEADER] >> 4 != 4 {
        return Err(NotFlow::NotIpv4);
    }
    let header_words = frame[IP_HEADER] & 0x0f;
    if header_words < 5 {
        return Err(NotFlow::BadHeaderLength);
    }
    let transport_at = IP_HEADER + 4 * usize::from(header_words);
    if frame.len() < transport_at {
        return Err(NotFlow::Short);
    }
    Ok(transport_at)
}

/// Whether what the IPv4 header says and the header behind it are those of a whole TCP or UDP packet.
fn check_packet(frame: &[u8], original: u32, transport_at: usize) -> Result<(), NotFlow>
    requires at { transport_at ≡ header_end frame.now }
    requires long_enough { 34 ≤ length frame.now }
    ensures { result ≡ first_failure (packet_failures frame.now original) tt }
{
    let fragment = word_at(frame, FLAGS_AND_OFFSET);
    if fragment >> 13 & 1 != 0 || fragment & 0x1fff != 0 {
        return Err(NotFlow::Fragment);
    }
    let least_header = match frame[PROTOCOL] {
        TCP => 20,
        UDP => 8,
        _ => return Err(NotFlow::OtherProtocol),
    };
    let total_length = usize::from(word_at(frame, TOTAL_LENGTH));
    let had = frame.len().max(original as usize) - IP_HEADER;
    if total_length != 0
        && (total_length < transport_at - IP_HEADER + least_header || total_length > had)
    {
        return Err(NotFlow::BadTotalLength);
    }
    if frame.len() < transport_at + least_header {
        return Err(NotFlow::Short);
    }
    if frame[PROTOCOL] == TCP && frame[transport_at + 12] >> 4 < 5 {
        return Err(NotFlow::BadHeaderLength);
    }
    Ok(())
}
