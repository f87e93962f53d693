ghost use Rattle.std.specs.Prelude.{◌≡◌, ◌≤◌, ◌<◌, ◌&&◌, ◌++◌, false, [], List, ℕ, length, OnOk};
ghost use Rattle.std.specs.Prelude.{IfErr, IsErrOf};
ghost use Rattle.pcapng_io.specs.Limits.{shows_packet};
ghost use Rattle.pcapng_io.specs.Stops.{StopsHere};

use crate::number::read_u32;
use crate::{BlockKind, NgCause};
use pcap_io::Order;
use plain_text::Limit;

pub(crate) const BLOCK_HEAD: usize = 12;

/// Where a block begins: the byte order of its section, whether its type, that of a section header, was read before,
/// the bytes that are left of a file's limit, and whether all packets of a capture were given.
#[derive(Clone, Copy)]
pub struct Place {
    /// The byte order of the section.
    pub order: Order,
    /// Whether the four bytes of the type were read before.
    pub typed: bool,
    /// How many bytes may follow before the file passes its limit of 64 MiB.
    pub room: u64,
    /// Whether 65,536 packets were given, so that one more passes the limit.
    pub full: bool,
}

/// Why no block is read.
#[derive(Clone, Copy)]
pub enum Stop {
    End,
    Refused(NgCause),
    TooLarge(Limit),
    ReadFault,
    NoMemory,
}

impl Place {
    /// Judges the head of a block, of which fewer than 12 bytes are there only where nothing follows.
    pub(crate) fn judge_head(self, head: &[u8]) -> Result<(), Stop>
        requires { length head.now ≤ 12 }
        ensures whole { OnOk result ((length head.now ≡ 12) × (12 ≤ self.room)
            × (self.full && shows_packet self.order self.room head.now ≡ false)) }
        ensures stops { IfErr result (λ why. (more : List ℕ)
            → (length head.now < 12 → more ≡ []) → StopsHere self (head.now ++ more) why) }
        ensures ended { IsErrOf result Stop.End → head.now ≡ [] }
        ensures quiet { ¬ IsErrOf result Stop.ReadFault }
    {
        if head.is_empty() {
            return Err(Stop::End);
        }
        if self.full && self.shows_packet(head) {
            return Err(Stop::TooLarge(Limit::Packets));
        }
        if head.len() as u64 > self.room {
            return Err(Stop::TooLarge(Limit::File));
        }
        if head.len() < BLOCK_HEAD {
            return Err(Stop::Refused(NgCause::ShortBlock));
        }
        Ok(())
    }

    /// The type of a packet's block stands in the head, within the room.
    fn shows_packet(self, head: &[u8]) -> bool
        ensures { result ≡ shows_packet self.order self.room head.now }
    {
        self.room > 3 && head.len() > 3 && BlockKind::of(read_u32(self.order, head)).gives_packet()
    }
}
