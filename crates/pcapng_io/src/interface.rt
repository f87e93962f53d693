ghost use Rattle.std.specs.Prelude.{◌≡◌, ◌≤◌, ◌<◌, ℕ, length, IfOk, IfSome};
ghost use Rattle.pcapng_io.specs.Interfaces.{interface_in, units_of, padded, with_setting};
ghost use Rattle.pcapng_io.specs.Interfaces.{with_options};
ghost use Rattle.pcapng_io.specs.Contents.{HasUnits};

use crate::NgCause;
use crate::number::{read_i64, read_u16, read_u32};
use pcap_io::Order;

const ETHERNET: u16 = 1;

const RESOLUTION: u16 = 9;

const OFFSET: u16 = 14;

const MICROSECONDS: u64 = 1_000_000;

/// An interface of a section.
#[derive(Clone, Copy, PartialEq, Eq, Drop)]
pub struct Interface {
    /// The most bytes that are captured of a packet; 0 where there is no such limit.
    pub snaplen: u32,
    /// The units of its times in a second, at least 1.
    pub units: u64,
    /// The seconds to add to its times.
    pub offset: i64,
}

/// The interface that the body of a block of type 1 describes.
pub(crate) fn read_interface(order: Order, body: &[u8]) -> Result<Interface, NgCause>
    requires { 8 ≤ length body.now }
    ensures value { result ≡ interface_in order body.now }
    ensures units { IfOk result HasUnits }
{
    if read_u16(order, body) != ETHERNET {
        return Err(NgCause::BadLinkType);
    }
    let plain = Interface {
        snaplen: read_u32(order, &body[4..]),
        units: MICROSECONDS,
        offset: 0,
    };
    match plain.with_options(order, &body[8..]) {
        Some(interface) => Ok(interface),
        None => Err(NgCause::BadOption),
    }
}

/// The units in a second of a resolution.
#[tactic(auto, using(crate::proofs::Powers::ten_pow))]
fn units_of(resolution: u8) -> Option<u64>
    ensures value { result ≡ units_of resolution }
    ensures some { IfSome result (λ units. 1 ≤ units) }
{
    match resolution {
        0..=19 => Some(10u64.pow(u32::from(resolution))),
        20..=127 => None,
        128..=191 => Some(2u64.pow(u32::from(resolution - 128))),
        192.. => None,
    }
}

/// A length with its padding to a multiple of 4.
fn padded(length: usize) -> usize
    requires { length < 65536 }
    ensures { result ≡ padded length }
{
    length.div_ceil(4) * 4
}

impl Interface {
    /// The interface, once the options in these bytes are read. None comes where an option is bad.
    fn with_options(self, order: Order, bytes: &[u8]) -> Option<Interface>
        requires { 1 ≤ self.units }
        ensures value { (n : ℕ) → length bytes.now ≤ n
            → result ≡ with_options n order self bytes.now }
        ensures units { IfSome result HasUnits }
    {
        let mut interface = self;
        let mut rest = bytes;
        while rest.len() >= 4 {
            let code = read_u16(order, rest);
            if code == 0 {
                break;
            }
            let length = usize::from(read_u16(order, &rest[2..]));
            let end = 4 + padded(length);
            if rest.len() < end {
                return None;
            }
            interface = interface.with_option(order, code, &rest[4..4 + length])?;
            rest = &rest[end..];
        }
        Some(interface)
    }

    /// The interface, once an option is read. None comes where it is bad.
    fn with_option(self, order: Order, code: u16, value: &[u8]) -> Option<Interface>
        requires { 1 ≤ self.units }
        ensures value { result
            ≡ with_setting order self (record { code = code; value = value.now }) }
        ensures units { IfSome result HasUnits }
    {
        match code {
            RESOLUTION => {
                if value.len() != 1 {
                    return None;
                }
                let units = units_of(value[0])?;
                Some(Interface { units, ..self })
            }
            OFFSET => {
                if value.len() != 8 {
                    return None;
                }
                Some(Interface {
                    offset: read_i64(order, value),
                    ..self
                })
            }
            _ => Some(self),
        }
    }
}
