ghost use Rattle.std.specs.Prelude.{◌≡◌, ◌≤◌, ◌<◌, ◌-◌, ◌==◌, ◌↔◌, ◌++◌, true, false, []};
ghost use Rattle.std.specs.Prelude.{OnOk, IfErr, IsErrOf};
ghost use Rattle.plain_text.specs.declared.limit.TheConstants.{MOST_FILE_BYTES, MOST_PACKETS};
ghost use Rattle.pcap_io.specs.declared.order.Order.TheVariants.{Little};
ghost use Rattle.world_io.specs.Stream.{GoesOn, HasFailed};
ghost use Rattle.world_io.specs.World.{Start};
ghost use Rattle.pcapng_io.specs.Reader.{section_of, MovesOn, StopsAt, AnswersNg, TakesNg};
ghost use Rattle.pcapng_io.specs.Reader.{GivesAny, answer_of};
ghost use Rattle.pcapng_io.specs.Stops.{held_type};

use crate::content::read_content;
use crate::packet::BlockError;
use crate::place::{BLOCK_HEAD, Place, Stop};
use crate::{AnyFault, AnyNext, Interface, NgFault};
use pcap_io::Order;
use plain_text::{MOST_FILE_BYTES, MOST_PACKETS, Packet, Sequence};
use std::alloc::Global;
use std::marker::Model;
use world_io::Source;

/// Reads a pcapng capture's packets, one at a time, from the source that is lent to each call.
///
/// Contracts see the section, whether the next block's type was read before, the bytes passed and the packets given,
/// and whether the reader is over.
#[derive(Drop)]
pub struct NgReader {
    order: Order,
    interfaces: Sequence<Interface>,
    typed: bool,
    offset: u64,
    count: u32,
    over: bool,
}

impl Model for NgReader {
    ghost use Rattle.std.specs.Prelude.{◌≤◌, All};
    ghost use Rattle.plain_text.specs.declared.limit.TheConstants.{MOST_FILE_BYTES, MOST_PACKETS};
    ghost use Rattle.pcapng_io.specs.Contents.{HasUnits};
    ghost use Rattle.pcapng_io.specs.Reader.{NgReading};

    ghost Value = { NgReading };

    ghost view = { λ r. record {
      order = r.order;
      interfaces = r.interfaces;
      typed = r.typed;
      offset = r.offset;
      count = r.count;
      over = r.over;
    } };

    ghost invariant = { λ r. (r.offset ≤ MOST_FILE_BYTES) × (r.count ≤ MOST_PACKETS)
        × All HasUnits r.interfaces };
}

impl NgReader {
    /// Stands at the first block, a section header, whose type was read. It takes no memory.
    pub(crate) fn of(alloc: Global) -> Self
        ensures { result ≡ record {
          order = Little;
          interfaces = [];
          typed = true;
          offset = 0;
          count = 0;
          over = false;
        } }
    {
        NgReader {
            order: Order::Little,
            interfaces: Sequence::new(alloc),
            typed: true,
            offset: 0,
            count: 0,
            over: false,
        }
    }

    /// The next packet, or why there is none. After anything but a packet, NoMemory too, the reader is over.
    pub(crate) fn next_packet<S: Source>(&mut self, alloc: Global, source: &mut S) -> AnyNext
        ensures over { (result ≡ AnyNext.Over) ↔ (self.old.over ≡ true) }
        ensures taken { TakesNg S.reads result source.old source.new self.old self.new }
        ensures few { self.new.count ≤ MOST_PACKETS }
        ensures small { self.new.offset ≤ MOST_FILE_BYTES }
        ensures given { GivesAny result }
        ensures goes_on { GoesOn S.faults S.healthy source.old source.new }
        ensures cause { result ≡ AnyNext.ReadFault
            → HasFailed S.faults S.healthy source.old source.new }
        ensures shows { (p : Start) → S.honest p source.new
            → AnswersNg self.old (held_type self.old.typed ++ S.remains p source.old) result }
    {
        if self.over {
            return AnyNext::Over;
        }
        'blocks: loop {
            match self.pass_block(alloc, source) {
                Ok(Some(packet)) => return AnyNext::Packet(packet),
                Ok(None) => {}
                Err(why) => {
                    self.over = true;
                    return why.answer(self.offset);
                }
            }
        }
    }

    /// Passes one block, and gives its packet, if it has one. Where none is passed the reader is as before.
    fn pass_block<S: Source>(
        &mut self,
        alloc: Global,
        source: &mut S,
    ) -> Result<Option<Packet>, Stop>
        ensures moves { MovesOn S.reads result source.old source.new self.old self.new }
        ensures grows { OnOk result (self.old.offset < self.new.offset) }
        ensures ended { IsErrOf result Stop.End
            → (self.old.typed ≡ false) × S.reads source.old [] source.new }
        ensures goes_on { GoesOn S.faults S.healthy source.old source.new }
        ensures cause { IsErrOf result Stop.ReadFault
            → HasFailed S.faults S.healthy source.old source.new }
        ensures shows { (p : Start) → S.honest p source.new
            → IfErr result (StopsAt (section_of self.old) self.old.count self.old.offset
            (held_type self.old.typed ++ S.remains p source.old)) }
    {
        let block = match self.place().read_block(alloc, source) {
            Ok(block) => block,
            Err(why) => return Err(why),
        };
        let size = (BLOCK_HEAD + block.body.len()) as u64;
        match read_content(alloc, &mut self.interfaces, &block) {
            Ok(packet) => {
                self.order = block.order;
                self.typed = false;
                self.offset += size;
                self.count += u32::from(packet.is_some());
                Ok(packet)
            }
            Err(BlockError::Fault(cause)) => Err(Stop::Refused(cause)),
            Err(BlockError::NoMemory) => Err(Stop::NoMemory),
        }
    }

    /// Where the next block begins.
    fn place(&self) -> Place
        ensures order { result.order ≡ self.now.order }
        ensures typed { result.typed ≡ self.now.typed }
        ensures room { result.room ≡ MOST_FILE_BYTES - self.now.offset }
        ensures full { result.full ≡ (self.now.count == MOST_PACKETS) }
    {
        Place {
            order: self.order,
            typed: self.typed,
            room: MOST_FILE_BYTES - self.offset,
            full: self.count == MOST_PACKETS,
        }
    }
}

impl Stop {
    /// What a reader answers that stops at this offset.
    fn answer(self, offset: u64) -> AnyNext
        ensures { result ≡ answer_of self offset }
    {
        match self {
            Stop::End => AnyNext::End,
            Stop::Refused(cause) => AnyNext::Refused(AnyFault::Ng(NgFault { offset, cause })),
            Stop::TooLarge(limit) => AnyNext::TooLarge(limit),
            Stop::ReadFault => AnyNext::ReadFault,
            Stop::NoMemory => AnyNext::NoMemory,
        }
    }
}
