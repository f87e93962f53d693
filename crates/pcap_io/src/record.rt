ghost use Rattle.std.specs.Prelude.{◌≡◌, ◌≢◌, ◌≤◌, ◌+◌, ◌++◌, OnOk, OnErr, length};
ghost use Rattle.world_io.specs.Stream.{GoesOn, HasFailed};
ghost use Rattle.world_io.specs.World.{Start};
ghost use Rattle.pcap_io.specs.Capture.{record_of};
ghost use Rattle.pcap_io.specs.Reader.{Answers, Takes, IsGiven, GivesBytes};
ghost use Rattle.pcap_io.specs.Record.{TakesBody};

use crate::{CaptureCause, CaptureFault, Next, Order};
use byteorder::{ByteOrder, LittleEndian};
use plain_text::{Bytes, Limit, MOST_CAPTURED, NoMemory, Packet};
use std::alloc::Global;
use world_io::{FrontError, Source, fill_piece, read_behind};

pub(crate) const RECORD_HEADER: usize = 16;

/// Where a record begins, how many bytes it may take, and the limit that is passed where it needs
/// more.
#[derive(Clone, Copy)]
pub(crate) struct Place {
    pub(crate) order: Order,
    pub(crate) offset: u64,
    pub(crate) room: u64,
    pub(crate) limit: Limit,
}

impl Place {
    /// Reads the record that begins here.
    pub(crate) fn read_record<S: Source>(self, alloc: Global, source: &mut S) -> Next
        ensures taken { Takes S.reads self.order result source.old source.new }
        ensures given { IsGiven self.room result }
        ensures bytes { GivesBytes result }
        ensures running { result ≢ Next.Over }
        ensures goes_on { GoesOn S.faults S.healthy source.old source.new }
        ensures cause { result ≡ Next.ReadFault
            → HasFailed S.faults S.healthy source.old source.new }
        ensures shows { (p : Start) → S.honest p source.new
            → Answers self.order self.offset self.room self.limit (S.remains p source.old) result }
    {
        let mut head = [0u8; RECORD_HEADER];
        let Some(had) = fill_piece(source, &mut head) else {
            return Next::ReadFault;
        };
        if had == 0 {
            return Next::End;
        }
        if had as u64 > self.room {
            return Next::TooLarge(self.limit);
        }
        if had < RECORD_HEADER {
            return self.refused(CaptureCause::ShortRecord);
        }
        self.read_body(alloc, &head, source)
    }

    /// Reads what follows this record header.
    fn read_body<S: Source>(self, alloc: Global, head: &[u8], source: &mut S) -> Next
        requires head { length head.now ≡ 16 }
        requires room { 16 ≤ self.room }
        ensures taken { TakesBody S.reads self.order head.now result source.old source.new }
        ensures given { IsGiven self.room result }
        ensures bytes { GivesBytes result }
        ensures goes_on { GoesOn S.faults S.healthy source.old source.new }
        ensures cause { result ≡ Next.ReadFault
            → HasFailed S.faults S.healthy source.old source.new }
        ensures shows { (p : Start) → S.honest p source.new
            → Answers self.order self.offset self.room self.limit
            (head.now ++ S.remains p source.old) result }
    {
        let captured = self.order.read_u32(&head[8..]);
        if captured > MOST_CAPTURED {
            return self.refused(CaptureCause::TooLong);
        }
        let bytes = match read_behind(alloc, source, &[], captured as usize) {
            Ok(bytes) => bytes,
            Err(FrontError::Failed) => return Next::ReadFault,
            Err(FrontError::NoMemory) => return Next::NoMemory,
        };
        if (RECORD_HEADER + bytes.len()) as u64 > self.room {
            return Next::TooLarge(self.limit);
        }
        if bytes.len() < captured as usize {
            return self.refused(CaptureCause::ShortRecord);
        }
        Next::Packet(Packet {
            seconds: self.order.read_u32(head),
            fraction: self.order.read_u32(&head[4..]),
            original: self.order.read_u32(&head[12..]),
            bytes,
        })
    }

    /// The fault of the record that begins here.
    fn refused(self, cause: CaptureCause) -> Next
        ensures { result ≡ Next.Refused (record { offset = self.offset; cause = cause }) }
    {
        Next::Refused(CaptureFault {
            offset: self.offset,
            cause,
        })
    }
}

/// The bytes that a packet's record takes.
pub fn record_len(packet: &Packet) -> usize
    requires { length packet.now.bytes ≤ MOST_CAPTURED }
    ensures { result ≡ length (record_of Order.Little packet.now) }
{
    RECORD_HEADER + packet.bytes.len()
}

/// Appends a packet's record, as it is written after the header of `put_header`: seconds, fraction,
/// captured length and original length in 32 bits each, little-endian, and the captured bytes.
///
/// Where memory runs out, nothing is appended.
pub fn put_packet(out: &mut Bytes, packet: &Packet) -> Result<(), NoMemory>
    requires { length packet.now.bytes ≤ MOST_CAPTURED }
    ensures ok { OnOk result (out.new ≡ out.old ++ record_of Order.Little packet.now) }
    ensures err { OnErr result (out.new ≡ out.old) }
{
    let before = out.len();
    out.extend(&put_record_header(packet))?;
    if let Err(error) = out.extend(packet.bytes.as_slice()) {
        out.truncate(before);
        return Err(error);
    }
    Ok(())
}

/// What stands in front of the captured bytes in a packet's record.
fn put_record_header(packet: &Packet) -> [u8; 16]
    requires { length packet.now.bytes ≤ MOST_CAPTURED }
    ensures { result ++ packet.now.bytes ≡ record_of Order.Little packet.now }
{
    let mut head = [0; RECORD_HEADER];
    LittleEndian::write_u32(&mut head, packet.seconds);
    LittleEndian::write_u32(&mut head[4..], packet.fraction);
    LittleEndian::write_u32(&mut head[8..], packet.bytes.len() as u32);
    LittleEndian::write_u32(&mut head[12..], packet.original);
    head
}
