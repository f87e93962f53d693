ghost use Rattle.std.specs.Prelude.{◌≡◌, ◌≢◌, ◌≤◌, ◌↔◌, true};
ghost use Rattle.world_io.specs.Stream.{GoesOn, HasFailed};
ghost use Rattle.world_io.specs.World.{Start};
ghost use Rattle.pcap_io.specs.Limits.{room_at, limit_at};
ghost use Rattle.pcap_io.specs.Reader.{AnswersAt, Takes, IsGiven, GivesBytes, after};
ghost use Rattle.pcap_io.specs.Started.{Starts, TakesHeader, IsFresh};

use crate::header::{FILE_HEADER, read_header};
use crate::record::{Place, RECORD_HEADER};
use crate::{CaptureCause, CaptureFault, Next, Order, Started};
use plain_text::{Limit, MOST_FILE_BYTES, MOST_PACKETS, Unit};
use std::alloc::Global;
use std::marker::Model;
use world_io::{Source, fill_piece};

/// Reads a capture's packets, one at a time, from the source that is lent to each call.
///
/// It takes from the source exactly the bytes that it uses, and asks for a record's header and for
/// its captured bytes in one piece each: a source of small pieces, as a file, wants a buffer around
/// it.
///
/// Contracts see what the header told, the bytes used and the packets given, and whether the reader
/// is over.
#[derive(Drop)]
pub struct Reader {
    unit: Unit,
    order: Order,
    offset: u64,
    count: u32,
    over: bool,
}

impl Model for Reader {
    ghost use Rattle.std.specs.Prelude.{◌≤◌};
    ghost use Rattle.plain_text.specs.declared.limit.TheConstants.{MOST_FILE_BYTES, MOST_PACKETS};
    ghost use Rattle.pcap_io.specs.Reading.{Reading};

    ghost Value = { Reading };

    ghost view = { λ r. record {
      unit = r.unit;
      order = r.order;
      offset = r.offset;
      count = r.count;
      over = r.over;
    } };

    ghost invariant = { λ r. (r.offset ≤ MOST_FILE_BYTES) × (r.count ≤ MOST_PACKETS) };
}

impl Reader {
    /// Reads the file header.
    pub fn start<S: Source>(source: &mut S) -> Started
        ensures taken { TakesHeader S.reads result source.old source.new }
        ensures fresh { IsFresh result }
        ensures goes_on { GoesOn S.faults S.healthy source.old source.new }
        ensures cause { result ≡ Started.ReadFault
            → HasFailed S.faults S.healthy source.old source.new }
        ensures memory { result ≢ Started.NoMemory }
        ensures shows { (p : Start) → S.honest p source.new
            → Starts (S.remains p source.old) result }
    {
        let mut head = [0u8; FILE_HEADER];
        let Some(had) = fill_piece(source, &mut head) else {
            return Started::ReadFault;
        };
        if had < FILE_HEADER {
            return Started::Refused(CaptureFault {
                offset: had as u64,
                cause: CaptureCause::ShortHeader,
            });
        }
        match read_header(&head) {
            Ok((order, unit)) => Started::Reader(Reader {
                unit,
                order,
                offset: FILE_HEADER as u64,
                count: 0,
                over: false,
            }),
            Err(fault) => Started::Refused(fault),
        }
    }

    /// What the fractions of the packets count.
    pub fn unit(&self) -> Unit
        ensures { result ≡ self.now.unit }
    {
        self.unit
    }

    /// The next packet, or why there is none. After anything but a packet, NoMemory too, the reader
    /// is over.
    pub fn next_packet<S: Source>(&mut self, alloc: Global, source: &mut S) -> Next
        ensures over { (result ≡ Next.Over) ↔ (self.old.over ≡ true) }
        ensures after { self.new ≡ after self.old result }
        ensures taken { Takes S.reads self.old.order result source.old source.new }
        ensures given { IsGiven (room_at self.old.count self.old.offset) result }
        ensures bytes { GivesBytes result }
        ensures goes_on { GoesOn S.faults S.healthy source.old source.new }
        ensures cause { result ≡ Next.ReadFault
            → HasFailed S.faults S.healthy source.old source.new }
        ensures shows { (p : Start) → S.honest p source.new
            → AnswersAt self.old (S.remains p source.old) result }
    {
        if self.over {
            return Next::Over;
        }
        self.over = true;
        let next = self.place().read_record(alloc, source);
        if let Next::Packet(packet) = &next {
            self.over = false;
            self.offset += (RECORD_HEADER + packet.bytes.len()) as u64;
            self.count += 1;
        }
        next
    }

    /// Where the next record begins.
    fn place(&self) -> Place
        ensures order { result.order ≡ self.now.order }
        ensures offset { result.offset ≡ self.now.offset }
        ensures room { result.room ≡ room_at self.now.count self.now.offset }
        ensures limit { result.limit ≡ limit_at self.now.count }
    {
        let (room, limit) = if self.count == MOST_PACKETS {
            (0, Limit::Packets)
        } else {
            (MOST_FILE_BYTES - self.offset, Limit::File)
        };
        Place {
            order: self.order,
            offset: self.offset,
            room,
            limit,
        }
    }
}
