ghost use Rattle.std.specs.Prelude.{◌≡◌};
ghost use Rattle.pcapng_io.specs.Blocks.{kind_of, least_total, is_bad_total, gives_packet};

use pcap_io::Order;
use plain_text::Bytes;

/// The most bytes of a block.
pub const MOST_BLOCK: u32 = 16_777_216;

pub(crate) const SECTION: u32 = 0x0a0d_0d0a;

const INTERFACE: u32 = 1;

const SIMPLE: u32 = 3;

const ENHANCED: u32 = 6;

/// What a block is, by its type.
#[derive(Clone, Copy, PartialEq, Eq)]
pub enum BlockKind {
    /// Type 0x0A0D0D0A: a section header.
    Section,
    /// Type 1: the description of an interface.
    Interface,
    /// Type 3: a simple packet.
    Simple,
    /// Type 6: an enhanced packet.
    Enhanced,
    /// Any other type, which is passed over.
    Other,
}

impl BlockKind {
    /// The kind of this type.
    pub(crate) fn of(number: u32) -> Self
        ensures { result ≡ kind_of number }
    {
        match number {
            SECTION => BlockKind::Section,
            INTERFACE => BlockKind::Interface,
            SIMPLE => BlockKind::Simple,
            ENHANCED => BlockKind::Enhanced,
            _ => BlockKind::Other,
        }
    }

    fn least_total(self) -> u32
        ensures { result ≡ least_total self }
    {
        match self {
            BlockKind::Section => 28,
            BlockKind::Interface => 20,
            BlockKind::Simple => 16,
            BlockKind::Enhanced => 32,
            BlockKind::Other => 12,
        }
    }

    /// No block of this kind has this total length.
    pub(crate) fn is_bad_total(self, total: u32) -> bool
        ensures { result ≡ is_bad_total self total }
    {
        total % 4 != 0 || total < self.least_total() || total > MOST_BLOCK
    }

    pub(crate) fn gives_packet(self) -> bool
        ensures { result ≡ gives_packet self }
    {
        match self {
            BlockKind::Simple | BlockKind::Enhanced => true,
            BlockKind::Section | BlockKind::Interface | BlockKind::Other => false,
        }
    }
}

/// A block: the byte order of its section, its type, and its body, which stands between the two copies of its total
/// length.
#[derive(Drop)]
pub struct Block {
    /// The byte order of the section, in which the body is written.
    pub order: Order,
    /// The type, as it stands in the file.
    pub number: u32,
    /// The bytes of the body, with the padding of its options: 12 fewer than the total length.
    pub body: Bytes,
}
