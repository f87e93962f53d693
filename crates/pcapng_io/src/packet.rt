ghost use Rattle.std.specs.Prelude.{◌≡◌, ◌≤◌, ◌*◌, ◌+◌, length, Some};
ghost use Rattle.pcap_io.specs.Capture.{number};
ghost use Rattle.pcapng_io.specs.Contents.{Tells, passes_body, enhanced_time, enhanced_on};
ghost use Rattle.pcapng_io.specs.Contents.{captured_of, simple_on};

use crate::number::read_u32;
use crate::{Interface, NgCause};
use pcap_io::Order;
use plain_text::{Bytes, MOST_CAPTURED, NoMemory, Packet};
use std::alloc::Global;

/// Why a block is not read.
#[derive(Clone, Copy)]
pub enum BlockError {
    Fault(NgCause),
    NoMemory,
}

impl From<NgCause> for BlockError {
    ghost use Rattle.std.specs.Prelude.{◌≡◌};
    ghost use Rattle.pcapng_io.specs.declared.packet.BlockError.TheVariants as error;

    ghost from_gives = { λ cause e. e ≡ error.Fault cause };

    fn from(cause: NgCause) -> Self {
        BlockError::Fault(cause)
    }
}

impl From<NoMemory> for BlockError {
    ghost use Rattle.std.specs.Prelude.{◌≡◌};
    ghost use Rattle.pcapng_io.specs.declared.packet.BlockError.TheVariants as error;

    ghost from_gives = { λ _ e. e ≡ error.NoMemory };

    fn from(_: NoMemory) -> Self {
        BlockError::NoMemory
    }
}

const ENHANCED_HEAD: usize = 20;

const SIMPLE_HEAD: usize = 4;

/// The captured length is more than a packet has, or than the body has behind its first bytes.
fn passes_body(captured: u32, before: usize, body: &[u8]) -> bool
    requires { before ≤ length body.now }
    ensures { result ≡ passes_body captured before body.now }
{
    captured > MOST_CAPTURED || captured as usize > body.len() - before
}

impl Interface {
    /// The packet that the body of a block of type 6 gives on this interface.
    pub(crate) fn read_enhanced(
        self,
        alloc: Global,
        order: Order,
        body: &[u8],
    ) -> Result<Packet, BlockError>
        requires body { 20 ≤ length body.now }
        requires units { 1 ≤ self.units }
        ensures { Tells (enhanced_on order body.now (Some self)) result }
    {
        let captured = read_u32(order, &body[12..]);
        if passes_body(captured, ENHANCED_HEAD, body) {
            return Err(BlockError::Fault(NgCause::BadPacket));
        }
        let time = read_time(order, body);
        let Some(seconds) = self.seconds(time) else {
            return Err(BlockError::Fault(NgCause::BadTime));
        };
        let bytes = Bytes::of(
            alloc,
            &body[ENHANCED_HEAD..ENHANCED_HEAD + captured as usize],
        )?;
        Ok(Packet {
            seconds,
            fraction: self.nanos(time),
            original: read_u32(order, &body[16..]),
            bytes,
        })
    }

    /// The packet that the body of a block of type 3 gives on this interface.
    pub(crate) fn read_simple(
        self,
        alloc: Global,
        order: Order,
        body: &[u8],
    ) -> Result<Packet, BlockError>
        requires { 4 ≤ length body.now }
        ensures { Tells (simple_on order body.now (Some self)) result }
    {
        let original = read_u32(order, body);
        let captured = self.captured(original);
        if passes_body(captured, SIMPLE_HEAD, body) {
            return Err(BlockError::Fault(NgCause::BadPacket));
        }
        let bytes = Bytes::of(alloc, &body[SIMPLE_HEAD..SIMPLE_HEAD + captured as usize])?;
        Ok(Packet {
            seconds: 0,
            fraction: 0,
            original,
            bytes,
        })
    }

    /// The captured length of a simple packet of this original length.
    fn captured(self, original: u32) -> u32
        ensures { result ≡ captured_of self original }
    {
        if self.snaplen == 0 {
            original
        } else {
            original.min(self.snaplen)
        }
    }
}

/// The time of an enhanced packet, in units of its interface.
fn read_time(order: Order, body: &[u8]) -> u64
    requires { 20 ≤ length body.now }
    ensures { result ≡ enhanced_time order body.now }
{
    let high = u64::from(read_u32(order, &body[4..]));
    let low = u64::from(read_u32(order, &body[8..]));
    high * 0x1_0000_0000 + low
}
