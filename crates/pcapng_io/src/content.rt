ghost use Rattle.std.specs.Prelude.{◌≡◌, ◌≤◌, ◌+◌, length, slice_get, ok_or, All, IfOk};
ghost use Rattle.pcapng_io.specs.declared.fault.NgCause.TheVariants.{NoInterface};
ghost use Rattle.pcapng_io.specs.Blocks.{kind_of, least_total};
ghost use Rattle.pcapng_io.specs.Contents.{HasUnits, TellsContent, content};

use crate::interface::read_interface;
use crate::number::{read_u16, read_u32};
use crate::packet::BlockError;
use crate::{Block, BlockKind, Interface, NgCause};
use plain_text::{Packet, Sequence};
use std::alloc::Global;

const MAJOR: u16 = 1;

/// Reads what a block has: it may begin a section, describe an interface, or give a packet.
pub(crate) fn read_content(
    alloc: Global,
    interfaces: &mut Sequence<Interface>,
    block: &Block,
) -> Result<Option<Packet>, BlockError>
    requires size { least_total (kind_of block.now.number) ≤ 12 + length block.now.body }
    requires units { All HasUnits interfaces.old }
    ensures content { TellsContent
        (content block.now.order interfaces.old (kind_of block.now.number) block.now.body)
        result interfaces.old interfaces.new }
    ensures units { All HasUnits interfaces.new }
{
    let order = block.order;
    let body = block.body.as_slice();
    match BlockKind::of(block.number) {
        BlockKind::Section => {
            if read_u16(order, &body[4..]) != MAJOR {
                return Err(BlockError::Fault(NgCause::BadVersion));
            }
            interfaces.truncate(0);
            Ok(None)
        }
        BlockKind::Interface => {
            let interface = read_interface(order, body)?;
            interfaces.push(interface)?;
            Ok(None)
        }
        BlockKind::Simple => {
            let interface = find_interface(interfaces.as_slice(), 0)?;
            Ok(Some(interface.read_simple(alloc, order, body)?))
        }
        BlockKind::Enhanced => {
            let number = read_u32(order, body) as usize;
            let interface = find_interface(interfaces.as_slice(), number)?;
            Ok(Some(interface.read_enhanced(alloc, order, body)?))
        }
        BlockKind::Other => Ok(None),
    }
}

/// The interface of this number.
fn find_interface(interfaces: &[Interface], number: usize) -> Result<Interface, NgCause>
    requires { All HasUnits interfaces.now }
    ensures value { result ≡ ok_or (slice_get interfaces.now number) NoInterface }
    ensures units { IfOk result HasUnits }
{
    match interfaces.get(number) {
        Some(interface) => Ok(*interface),
        None => Err(NgCause::NoInterface),
    }
}
