ghost use Rattle.std.specs.Prelude.{◌≡◌, ◌≢◌, ◌≤◌, ◌↔◌, true, length};
ghost use Rattle.world_io.specs.Stream.{GoesOn, HasFailed};
ghost use Rattle.world_io.specs.World.{Start};
ghost use Rattle.pcap_io.specs.Started.{Starts, IsFresh};
ghost use Rattle.pcapng_io.specs.Capture.{begins_ng};
ghost use Rattle.pcapng_io.specs.Reader.{GivesAny};
ghost use Rattle.pcapng_io.specs.Any.{any_started, StartsAny, TakesStart, unit_of, is_over};
ghost use Rattle.pcapng_io.specs.Any.{AnswersAny, TakesAny, IsHeader};

use crate::block::SECTION;
use crate::number::read_u32;
use crate::reader::NgReader;
use crate::{AnyFault, AnyNext};
use pcap_io::{Order, Reader, Started};
use plain_text::Unit;
use std::alloc::Global;
use std::marker::Model;
use world_io::{SliceSource, Source, fill_behind, fill_piece};

const FILE_HEADER: usize = 24;

/// A reader of either format.
#[derive(Drop)]
pub enum Format {
    /// A libpcap savefile.
    Capture(Reader),
    /// A pcapng capture.
    Ng(NgReader),
}

/// Reads the packets of a capture of either format, one at a time, from the source that is lent to each call.
///
/// It takes from the source exactly the bytes that it uses, in pieces of a few bytes where blocks are short: a source
/// whose calls are dear wants a buffer around it. Contracts see the reader of the format.
#[derive(Drop)]
pub struct AnyReader {
    alloc: Global,
    format: Format,
}

impl Model for AnyReader {
    ghost use Rattle.pcapng_io.specs.declared.any.Format.{Format};

    ghost Value = { Format };

    ghost view = { λ r. r.format };
}

/// What beginning to read a capture came to.
#[derive(Drop)]
pub enum AnyStarted {
    Reader(AnyReader),
    /// The header of a savefile is short or faulty.
    Refused(AnyFault),
    /// Reading failed.
    ReadFault,
    NoMemory,
}

/// Begins to read a capture: a pcapng capture where its first four bytes are 0A 0D 0D 0A, and else a libpcap savefile.
/// It takes no memory. The faults of a pcapng capture, also of its first block, are told by `next_packet`.
pub fn open_capture<S: Source>(alloc: Global, source: &mut S) -> AnyStarted
    ensures taken { TakesStart S.reads result source.old source.new }
    ensures goes_on { GoesOn S.faults S.healthy source.old source.new }
    ensures cause { result ≡ AnyStarted.ReadFault
        → HasFailed S.faults S.healthy source.old source.new }
    ensures memory { result ≢ AnyStarted.NoMemory }
    ensures shows { (p : Start) → S.honest p source.new
        → StartsAny (S.remains p source.old) result }
{
    let mut first = [0u8; 4];
    let Some(had) = fill_piece(source, &mut first) else {
        return AnyStarted::ReadFault;
    };
    if is_section_type(&first[..had]) {
        return AnyStarted::Reader(AnyReader {
            alloc,
            format: Format::Ng(NgReader::of(alloc)),
        });
    }
    let mut head = [0u8; FILE_HEADER];
    let Some(had) = fill_behind(source, &first[..had], &mut head) else {
        return AnyStarted::ReadFault;
    };
    AnyStarted::of(alloc, start_savefile(&head[..had]))
}

/// These bytes begin with the type of a section header.
fn is_section_type(bytes: &[u8]) -> bool
    ensures { result ≡ begins_ng bytes.now }
{
    bytes.len() >= 4 && read_u32(Order::Little, bytes) == SECTION
}

/// Reads a savefile's header, of which fewer than 24 bytes are there only where nothing follows.
fn start_savefile(head: &[u8]) -> Started
    requires { length head.now ≤ 24 }
    ensures told { Starts head.now result }
    ensures header { IsHeader result head.now }
    ensures fresh { IsFresh result }
    ensures reading { result ≢ Started.ReadFault }
    ensures memory { result ≢ Started.NoMemory }
{
    Reader::start(&mut SliceSource::of(head))
}

impl AnyStarted {
    /// What reading a savefile's header came to.
    fn of(alloc: Global, started: Started) -> Self
        ensures { result ≡ any_started started }
    {
        match started {
            Started::Reader(reader) => AnyStarted::Reader(AnyReader {
                alloc,
                format: Format::Capture(reader),
            }),
            Started::Refused(fault) => AnyStarted::Refused(AnyFault::Capture(fault)),
            Started::ReadFault => AnyStarted::ReadFault,
            Started::NoMemory => AnyStarted::NoMemory,
        }
    }
}

impl AnyReader {
    /// What the fractions of the packets count: nanoseconds in a pcapng capture.
    pub fn unit(&self) -> Unit
        ensures { result ≡ unit_of self.now }
    {
        match &self.format {
            Format::Capture(reader) => reader.unit(),
            Format::Ng(_) => Unit::Nano,
        }
    }

    /// The next packet, or why there is none. After anything but a packet, NoMemory too, the reader is over.
    pub fn next_packet<S: Source>(&mut self, source: &mut S) -> AnyNext
        ensures over { (result ≡ AnyNext.Over) ↔ (is_over self.old ≡ true) }
        ensures taken { TakesAny S.reads result source.old source.new self.old self.new }
        ensures given { GivesAny result }
        ensures goes_on { GoesOn S.faults S.healthy source.old source.new }
        ensures cause { result ≡ AnyNext.ReadFault
            → HasFailed S.faults S.healthy source.old source.new }
        ensures shows { (p : Start) → S.honest p source.new
            → AnswersAny self.old (S.remains p source.old) result }
    {
        match &mut self.format {
            Format::Capture(reader) => AnyNext::of(reader.next_packet(self.alloc, source)),
            Format::Ng(reader) => reader.next_packet(self.alloc, source),
        }
    }
}
