ghost use Rattle.std.specs.Prelude.{◌≡◌, ◌≤◌, List, ℕ, length, IfSome, MatchResult, Some};
ghost use Rattle.pcap_io.specs.Capture.{magic, number, header_of, written_header};
ghost use Rattle.pcap_io.specs.Faults.{form_of, later_fault, header_fault};

use crate::{CaptureCause, CaptureFault, Order};
use byteorder::{ByteOrder, LittleEndian};
use plain_text::{MOST_CAPTURED, Unit};

pub(crate) const FILE_HEADER: usize = 24;

const MICRO: u32 = 0xa1b2_c3d4;

const NANO: u32 = 0xa1b2_3c4d;

const MAJOR: u16 = 2;

const MINOR: u16 = 4;

const ETHERNET: u32 = 1;

/// The byte order and the unit that a file header tells, or its first fault.
pub(crate) fn read_header(head: &[u8]) -> Result<(Order, Unit), CaptureFault>
    requires { length head.now ≡ 24 }
    ensures { MatchResult result
        (λ form. (unused : List ℕ) × (length unused ≡ 12)
        × (head.now ≡ header_of form.0 form.1 unused))
        (λ fault. header_fault head.now ≡ Some fault) }
{
    let Some((order, unit)) = read_form(head) else {
        return Err(fault_at(0, CaptureCause::BadMagic));
    };
    match later_fault(order, head) {
        None => Ok((order, unit)),
        Some(fault) => Err(fault),
    }
}

/// The first fault of the numbers that follow the magic.
fn later_fault(order: Order, head: &[u8]) -> Option<CaptureFault>
    requires { length head.now ≡ 24 }
    ensures { result ≡ later_fault order head.now }
{
    if order.read_u16(&head[4..]) != MAJOR || order.read_u16(&head[6..]) != MINOR {
        return Some(fault_at(4, CaptureCause::BadVersion));
    }
    if order.read_u32(&head[20..]) != ETHERNET {
        return Some(fault_at(20, CaptureCause::BadLinkType));
    }
    None
}

/// The byte order and the unit that the magic in the first four bytes tells.
fn read_form(head: &[u8]) -> Option<(Order, Unit)>
    requires { 4 ≤ length head.now }
    ensures form { result ≡ form_of head.now }
    ensures magic { IfSome result (λ form. number form.0 4 head.now ≡ magic form.1) }
{
    match (Order::Little.read_u32(head), Order::Big.read_u32(head)) {
        (MICRO, _) => Some((Order::Little, Unit::Micro)),
        (NANO, _) => Some((Order::Little, Unit::Nano)),
        (_, MICRO) => Some((Order::Big, Unit::Micro)),
        (_, NANO) => Some((Order::Big, Unit::Nano)),
        _ => None,
    }
}

fn fault_at(offset: u64, cause: CaptureCause) -> CaptureFault
    ensures { result ≡ record { offset = offset; cause = cause } }
{
    CaptureFault { offset, cause }
}

/// The file header that is written: little-endian, version 2.4, time zone 0, sigfigs 0, snaplen
/// `MOST_CAPTURED`, and link type 1, with the magic of this unit.
pub fn put_header(unit: Unit) -> [u8; 24]
    ensures { result ≡ written_header unit }
{
    let mut header = [0; FILE_HEADER];
    LittleEndian::write_u32(&mut header, magic_of(unit));
    LittleEndian::write_u16(&mut header[4..], MAJOR);
    LittleEndian::write_u16(&mut header[6..], MINOR);
    LittleEndian::write_u32(&mut header[16..], MOST_CAPTURED);
    LittleEndian::write_u32(&mut header[20..], ETHERNET);
    header
}

fn magic_of(unit: Unit) -> u32
    ensures { result ≡ magic unit }
{
    match unit {
        Unit::Micro => MICRO,
        Unit::Nano => NANO,
    }
}
