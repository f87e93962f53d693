ghost use Rattle.std.specs.Prelude.{◌≡◌, ◌+◌, ◌≤◌, ◌<◌, length};
ghost use Rattle.packet_headers.specs.Fields.{AreBytes};
ghost use Rattle.packet_headers.specs.Rewriting.{CanRewrite, checksum_place, written_checksum};
ghost use Rattle.packet_headers.specs.Rewriting.{rewritten, with_source, with_dest};
ghost use Rattle.packet_headers.specs.Rewriting.{KeepsHeader, KeepsTransport, SeenWithSource};
ghost use Rattle.packet_headers.specs.Rewriting.{SeenWithDest};

use crate::Flow;
use crate::fields::{
    DESTINATION_ADDRESS, HEADER_CHECKSUM, SOURCE_ADDRESS, long_at, put_long, put_word, word_at,
};
use crate::flow::TCP;
use inet_checksum::{adjust16, adjust32};

/// Writes another source address and port into a flow's frame, and adjusts both checksums to them (RFC 3022, section
/// 4.1): the IPv4 checksum to the address, the TCP or UDP checksum to the address and then the port. All other bytes
/// stay.
///
/// A checksum that was wrong stays wrong by the same amount. A UDP checksum of 0, which says that there is none, stays
/// 0, and one that becomes 0 is written as 0xFFFF (RFC 768). The frame may have been captured in part.
pub fn set_source(frame: &mut [u8], flow: &Flow, address: u32, port: u16)
    requires { CanRewrite frame.old flow.now }
    ensures value { frame.new ≡ with_source frame.old flow.now address port }

    // What was right stays right, and the frame can be rewritten again.
    ensures header { KeepsHeader frame.old frame.new flow.now }
    ensures transport { KeepsTransport frame.old frame.new flow.now }
    ensures seen { SeenWithSource frame.old frame.new address port }
    ensures again { CanRewrite frame.new flow.now }
{
    rewrite(
        frame,
        flow,
        SOURCE_ADDRESS,
        flow.transport_at as usize,
        address,
        port,
    );
}

/// Writes another destination address and port into a flow's frame, as `set_source` does the source's.
pub fn set_dest(frame: &mut [u8], flow: &Flow, address: u32, port: u16)
    requires { CanRewrite frame.old flow.now }
    ensures value { frame.new ≡ with_dest frame.old flow.now address port }

    ensures header { KeepsHeader frame.old frame.new flow.now }
    ensures transport { KeepsTransport frame.old frame.new flow.now }
    ensures seen { SeenWithDest frame.old frame.new address port }
    ensures again { CanRewrite frame.new flow.now }
{
    rewrite(
        frame,
        flow,
        DESTINATION_ADDRESS,
        flow.transport_at as usize + 2,
        address,
        port,
    );
}

/// Writes an address and a port at their places, after both checksums were adjusted to them.
fn rewrite(
    frame: &mut [u8],
    flow: &Flow,
    address_place: usize,
    port_place: usize,
    address: u32,
    port: u16,
)
    requires header_in { 34 ≤ length frame.old }
    requires address_in { address_place + 3 < length frame.old }
    requires port_in { port_place + 1 < length frame.old }
    requires checksum_in { checksum_place flow.now + 1 < length frame.old }
    ensures value { frame.new ≡ rewritten frame.old flow.now address_place port_place address port }
    ensures bytes { AreBytes frame.old }
{
    let old_address = long_at(frame, address_place);
    let old_port = word_at(frame, port_place);
    let header = adjust32(word_at(frame, HEADER_CHECKSUM), old_address, address);
    let place = checksum_place(flow);
    let old = word_at(frame, place);
    let transport = adjust16(adjust32(old, old_address, address), old_port, port);
    put_word(frame, HEADER_CHECKSUM, header);
    put_word(
        frame,
        place,
        written_checksum(flow.protocol, old, transport),
    );
    put_long(frame, address_place, address);
    put_word(frame, port_place, port);
}

/// Where the checksum stands in the frame.
fn checksum_place(flow: &Flow) -> usize
    ensures { result ≡ checksum_place flow.now }
{
    flow.transport_at as usize + if flow.protocol == TCP { 16 } else { 6 }
}

/// A TCP or UDP checksum as it is written. A UDP checksum of 0 says that there is none, so it stays, and one that
/// becomes 0 is written as all ones (RFC 768).
pub fn written_checksum(protocol: u8, old: u16, adjusted: u16) -> u16
    ensures { result ≡ written_checksum protocol old adjusted }
{
    if protocol == TCP {
        adjusted
    } else {
        match (old, adjusted) {
            (0, _) => 0,
            (_, 0) => 0xffff,
            _ => adjusted,
        }
    }
}
