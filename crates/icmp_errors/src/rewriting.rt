ghost use Rattle.std.specs.Prelude.{◌≡◌, ◌+◌, ◌≤◌, length};
ghost use Rattle.packet_headers.specs.Fields.{AreBytes};
ghost use Rattle.icmp_errors.specs.ErrorView.{IsErrorFrame};
ghost use Rattle.icmp_errors.specs.ErrorRewriting.{with_transport_checksum, with_quoted_address};
ghost use Rattle.icmp_errors.specs.ErrorRewriting.{rewritten_error, with_quoted_source};
ghost use Rattle.icmp_errors.specs.ErrorRewriting.{with_quoted_dest};
ghost use Rattle.icmp_errors.specs.ErrorRewriting.{FitsFrame, KeepsErrorHeader};
ghost use Rattle.icmp_errors.specs.ErrorRewriting.{KeepsOtherBytes, SeenWithQuotedSource};
ghost use Rattle.icmp_errors.specs.ErrorRewriting.{SeenWithQuotedDest, source_fields, dest_fields};

use crate::error::ICMP_HEADER;
use crate::{IcmpError, exchange_long, exchange_word};
use inet_checksum::{adjust16, adjust32};
use packet_headers::{
    DESTINATION_ADDRESS, HEADER_CHECKSUM, SOURCE_ADDRESS, TCP, long_at, word_at, written_checksum,
};

/// Rewrites an error to the sender of the packet that it quotes, an inside endpoint (RFC 5508, REQ-4): the error goes
/// to this address, and the quoted packet comes from it and from this port. The checksums of both IPv4 headers and of
/// ICMP are adjusted, and the quoted one of TCP or UDP where it is quoted; a UDP checksum of 0 stays 0. The error's
/// type and code and all other bytes stay.
pub fn set_quoted_source(frame: &mut [u8], error: &IcmpError, address: u32, port: u16)
    requires { IsErrorFrame frame.old error.now }
    ensures value { frame.new ≡ with_quoted_source frame.old error.now address port }

    // What verified verifies, and nothing else changes.
    ensures header { KeepsErrorHeader frame.old frame.new error.now }
    ensures seen { SeenWithQuotedSource frame.old frame.new error.now address port }
    ensures others { KeepsOtherBytes frame.old frame.new (source_fields error.now) }
{
    rewrite(
        frame,
        error,
        &Places {
            outer: DESTINATION_ADDRESS,
            quoted: error.icmp_at as usize + ICMP_HEADER + 12,
            port: error.transport_at as usize,
        },
        address,
        port,
    );
}

/// Rewrites an error from the receiver of the packet that it quotes (RFC 5508, REQ-5), as `set_quoted_source` does for
/// its sender: the error comes from this address, and the quoted packet goes to it and to this port.
pub fn set_quoted_dest(frame: &mut [u8], error: &IcmpError, address: u32, port: u16)
    requires { IsErrorFrame frame.old error.now }
    ensures value { frame.new ≡ with_quoted_dest frame.old error.now address port }

    // What verified verifies, and nothing else changes.
    ensures header { KeepsErrorHeader frame.old frame.new error.now }
    ensures seen { SeenWithQuotedDest frame.old frame.new error.now address port }
    ensures others { KeepsOtherBytes frame.old frame.new (dest_fields error.now) }
{
    rewrite(
        frame,
        error,
        &Places {
            outer: SOURCE_ADDRESS,
            quoted: error.icmp_at as usize + ICMP_HEADER + 16,
            port: error.transport_at as usize + 2,
        },
        address,
        port,
    );
}

/// Where the addresses of both headers and the quoted port stand.
#[derive(Clone, Copy)]
struct Places {
    outer: usize,
    quoted: usize,
    port: usize,
}

/// Writes an address and a port at their places, and adjusts the checksums.
fn rewrite(frame: &mut [u8], error: &IcmpError, places: &Places, address: u32, port: u16)
    requires { FitsFrame frame.old error.now places.now.outer places.now.quoted places.now.port }
    ensures value { frame.new
        ≡ rewritten_error frame.old error.now places.now.outer places.now.quoted places.now.port
        address port }
    ensures bytes { AreBytes frame.old }
{
    let old_address = long_at(frame, places.quoted);
    exchange_long(frame, HEADER_CHECKSUM, places.outer, address);
    adjust_transport(frame, error, places.port, (old_address, address), port);
    exchange_word(frame, error.icmp_at as usize + 2, places.port, port);
    rewrite_header(frame, error, places.quoted, (old_address, address));
}

/// Adjusts the quoted checksum of TCP or UDP, where it is quoted, to an old and a new address and to another port.
fn adjust_transport(
    frame: &mut [u8],
    error: &IcmpError,
    port_place: usize,
    addresses: (u32, u32),
    port: u16,
)
    requires ends { error.now.end ≤ length frame.old }
    requires header_in { error.now.icmp_at + 28 ≤ length frame.old }
    requires port_in { port_place + 2 ≤ length frame.old }
    ensures { frame.new
        ≡ with_transport_checksum frame.old error.now addresses.0 addresses.1 port_place port }
{
    let place = error.transport_at as usize + if error.protocol == TCP { 16 } else { 6 };
    if place + 2 <= error.end as usize {
        let old = word_at(frame, place);
        let to_address = adjust32(old, addresses.0, addresses.1);
        let adjusted = adjust16(to_address, word_at(frame, port_place), port);
        exchange_word(
            frame,
            error.icmp_at as usize + 2,
            place,
            written_checksum(error.protocol, old, adjusted),
        );
    }
}

/// Writes a new address over an old one in the quoted header, and adjusts its checksum.
fn rewrite_header(frame: &mut [u8], error: &IcmpError, place: usize, addresses: (u32, u32))
    requires header_in { error.now.icmp_at + 28 ≤ length frame.old }
    requires place_in { place + 4 ≤ length frame.old }
    ensures { frame.new
        ≡ with_quoted_address frame.old error.now place addresses.0 addresses.1 }
{
    let icmp_checksum = error.icmp_at as usize + 2;
    let quoted_checksum = error.icmp_at as usize + ICMP_HEADER + 10;
    let adjusted = adjust32(word_at(frame, quoted_checksum), addresses.0, addresses.1);
    exchange_word(frame, icmp_checksum, quoted_checksum, adjusted);
    exchange_long(frame, icmp_checksum, place, addresses.1);
}
