//! Numbers in a byte order that is known when they are read.
ghost use Rattle.std.specs.Prelude.{◌≡◌, ◌≤◌, length};
ghost use Rattle.std.specs.Int.{w64, cast_signed};
ghost use Rattle.pcap_io.specs.Capture.{number};

use byteorder::{BigEndian, ByteOrder, LittleEndian};
use pcap_io::Order;

/// The 16-bit number in the first two bytes.
pub(crate) fn read_u16(order: Order, bytes: &[u8]) -> u16
    requires { 2 ≤ length bytes.now }
    ensures { result ≡ number order 2 bytes.now }
{
    match order {
        Order::Little => LittleEndian::read_u16(bytes),
        Order::Big => BigEndian::read_u16(bytes),
    }
}

/// The 32-bit number in the first four bytes.
pub(crate) fn read_u32(order: Order, bytes: &[u8]) -> u32
    requires { 4 ≤ length bytes.now }
    ensures { result ≡ number order 4 bytes.now }
{
    match order {
        Order::Little => LittleEndian::read_u32(bytes),
        Order::Big => BigEndian::read_u32(bytes),
    }
}

/// The signed 64-bit number in the first eight bytes.
pub(crate) fn read_i64(order: Order, bytes: &[u8]) -> i64
    requires { 8 ≤ length bytes.now }
    ensures { result ≡ cast_signed w64 (number order 8 bytes.now) }
{
    match order {
        Order::Little => LittleEndian::read_i64(bytes),
        Order::Big => BigEndian::read_i64(bytes),
    }
}
