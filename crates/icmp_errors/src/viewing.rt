ghost use Rattle.std.specs.Prelude.{◌≡◌, ◌^◌, ◌<◌, ◌≤◌, length, IsTrue, IfSome};
ghost use Rattle.packet_headers.specs.Fields.{header_end};
ghost use Rattle.packet_headers.specs.View.{viewed};
ghost use Rattle.icmp_errors.specs.ErrorFields.{error_end, quoted_at, quoted_end};
ghost use Rattle.icmp_errors.specs.ErrorView.{is_other_protocol, is_whole_error, quotes_flow};
ghost use Rattle.icmp_errors.specs.ErrorView.{verify, checksums_verify, is_error, error_of};
ghost use Rattle.icmp_errors.specs.ErrorView.{viewed_error, IsErrorFrame};
ghost use Rattle.icmp_errors.specs.ErrorView.{HasHeader, HasError, HasQuote};

use crate::IcmpError;
use crate::error::ICMP_HEADER;
use inet_checksum::sum;
use packet_headers::{
    DESTINATION_ADDRESS, Flow, IP_HEADER, NotFlow, PROTOCOL, SOURCE_ADDRESS, TCP, TOTAL_LENGTH,
    UDP, long_at, view, word_at,
};

/// The number of ICMP among the protocols of IPv4 (RFC 792).
const ICMP: u8 = 1;

/// The bytes of the shortest IPv4 header.
const IP_LEAST: usize = 20;

/// The bytes that are quoted behind the quoted IPv4 header, at least (RFC 792).
const QUOTED_LEAST: usize = 8;

/// A captured frame as an error of ICMP, where it had `original` bytes on the wire.
///
/// It is IPv4 and no fragment, was captured to the end of its total length, and is destination unreachable, time
/// exceeded or parameter problem (RFC 792). It quotes the first fragment of a packet of TCP or UDP, with at least 8
/// bytes behind its header, whose options are stepped over. The checksums of the error and of the quoted header verify
/// (RFC 5508, REQ-3); that of the quoted TCP or UDP is not looked at.
pub fn view_error(frame: &[u8], original: u32) -> Option<IcmpError>
    ensures value { result ≡ viewed_error frame.now original }
    ensures rewritable { IfSome result (λ error. IsErrorFrame frame.now error) }
{
    find_error(frame, original)
}

/// The same.
fn find_error(frame: &[u8], original: u32) -> Option<IcmpError>
    ensures { result ≡ viewed_error frame.now original }
{
    if is_error(frame, original) {
        Some(read_error(frame))
    } else {
        None
    }
}

/// Whether the frame is such an error.
fn is_error(frame: &[u8], original: u32) -> bool
    ensures value { result ≡ is_error frame.now original }
    ensures long_enough { IsTrue result → HasQuote frame.now }
{
    is_other_protocol(frame, original)
        && is_whole_error(frame)
        && quotes_flow(frame)
        && checksums_verify(frame)
}

/// Whether it is IPv4, no fragment, and neither TCP nor UDP.
fn is_other_protocol(frame: &[u8], original: u32) -> bool
    ensures value { result ≡ is_other_protocol (viewed frame.now original) }
    ensures long_enough { IsTrue result → HasHeader frame.now }
{
    says_other(view(frame, original))
}

/// Whether a view says so.
fn says_other(seen: Result<Flow, NotFlow>) -> bool
    ensures { result ≡ is_other_protocol seen }
{
    matches!(seen, Err(NotFlow::OtherProtocol))
}

/// The end of the frame's IPv4 header, where ICMP begins.
fn icmp_at(frame: &[u8]) -> usize
    requires { HasHeader frame.now }
    ensures { result ≡ header_end frame.now }
{
    IP_HEADER + 4 * usize::from(frame[IP_HEADER] & 0x0f)
}

/// The end of the packet that the frame carries.
fn error_end(frame: &[u8]) -> usize
    requires { HasHeader frame.now }
    ensures value { result ≡ error_end frame.now }
    ensures small { result < 2 ^ 32 }
{
    IP_HEADER + usize::from(word_at(frame, TOTAL_LENGTH))
}

/// Whether it is an error of ICMP that was captured to its end.
fn is_whole_error(frame: &[u8]) -> bool
    requires { HasHeader frame.now }
    ensures value { result ≡ is_whole_error frame.now }
    ensures long_enough { IsTrue result → HasError frame.now }
{
    let icmp_at = icmp_at(frame);
    let end = error_end(frame);
    frame[PROTOCOL] == ICMP
        && icmp_at + ICMP_HEADER + IP_LEAST + QUOTED_LEAST <= end
        && end <= frame.len()
        && matches!(frame[icmp_at], 3 | 11 | 12)
}

/// The end of the quoted IPv4 header.
fn quoted_end(frame: &[u8], begin: usize) -> usize
    requires error { HasError frame.now }
    requires at { begin ≡ quoted_at frame.now }
    ensures { result ≡ quoted_end frame.now }
{
    begin + 4 * usize::from(frame[begin] & 0x0f)
}

/// Whether it quotes the first fragment of a packet of TCP or UDP, with its ports.
fn quotes_flow(frame: &[u8]) -> bool
    requires { HasError frame.now }
    ensures value { result ≡ quotes_flow frame.now }
    ensures long_enough { IsTrue result → HasQuote frame.now }
{
    let quoted_at = icmp_at(frame) + ICMP_HEADER;
    frame[quoted_at] >> 4 == 4
        && frame[quoted_at] & 0x0f >= 5
        && word_at(frame, quoted_at + 6) & 0x1fff == 0
        && matches!(frame[quoted_at + 9], TCP | UDP)
        && quoted_end(frame, quoted_at) + QUOTED_LEAST <= error_end(frame)
}

/// Whether the frame's bytes from a place to another verify (RFC 1071).
fn verify(frame: &[u8], from: usize, to: usize) -> bool
    requires order { from ≤ to }
    requires inside { to ≤ length frame.now }
    ensures { result ≡ verify frame.now from to }
{
    sum(&frame[from..to]) == 0xffff
}

/// Whether the error's checksum verifies, and the quoted header's.
fn checksums_verify(frame: &[u8]) -> bool
    requires { HasQuote frame.now }
    ensures { result ≡ checksums_verify frame.now }
{
    let icmp_at = icmp_at(frame);
    let quoted_at = icmp_at + ICMP_HEADER;
    verify(frame, icmp_at, error_end(frame))
        && verify(frame, quoted_at, quoted_end(frame, quoted_at))
}

/// What an error says.
fn read_error(frame: &[u8]) -> IcmpError
    requires { HasQuote frame.now }
    ensures { result ≡ error_of frame.now }
{
    let icmp_at = icmp_at(frame);
    let quoted_at = icmp_at + ICMP_HEADER;
    let transport_at = quoted_end(frame, quoted_at);
    IcmpError {
        source: long_at(frame, SOURCE_ADDRESS),
        dest: long_at(frame, DESTINATION_ADDRESS),
        protocol: frame[quoted_at + 9],
        quoted_source: long_at(frame, quoted_at + 12),
        quoted_source_port: word_at(frame, transport_at),
        quoted_dest: long_at(frame, quoted_at + 16),
        quoted_dest_port: word_at(frame, transport_at + 2),
        icmp_at: icmp_at as u32,
        transport_at: transport_at as u32,
        end: error_end(frame) as u32,
    }
}
