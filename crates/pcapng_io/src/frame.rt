ghost use Rattle.std.specs.Prelude.{◌≡◌, ◌≢◌, ◌≤◌, ◌&&◌, ◌++◌, false, [], List, ℕ, length};
ghost use Rattle.std.specs.Prelude.{IfOk, IfErr, IsErrOf};
ghost use Rattle.world_io.specs.Stream.{GoesOn, HasFailed};
ghost use Rattle.world_io.specs.World.{Start};
ghost use Rattle.pcapng_io.specs.Blocks.{order_of, order_in};
ghost use Rattle.pcapng_io.specs.Limits.{shows_packet};
ghost use Rattle.pcapng_io.specs.Stops.{held_type, StopsHere, StandsHere, TakesBlock, PassesRest};

use crate::number::read_u32;
use crate::piece::read_past;
use crate::place::{BLOCK_HEAD, Place, Stop};
use crate::{Block, BlockKind, NgCause};
use pcap_io::Order;
use plain_text::Limit;
use std::alloc::Global;
use world_io::{FrontError, Source, fill_behind, read_behind};

const MAGIC: u32 = 0x1a2b_3c4d;

const SECTION_TYPE: [u8; 4] = [0x0a, 0x0d, 0x0d, 0x0a];

/// The byte order that a byte-order magic tells.
fn order_in(body: &[u8]) -> Option<Order>
    requires { 4 ≤ length body.now }
    ensures { result ≡ order_in body.now }
{
    if read_u32(Order::Little, body) == MAGIC {
        Some(Order::Little)
    } else if read_u32(Order::Big, body) == MAGIC {
        Some(Order::Big)
    } else {
        None
    }
}

/// The byte order of a block in a section of this order.
fn order_of(order: Order, kind: BlockKind, body: &[u8]) -> Option<Order>
    requires { 4 ≤ length body.now }
    ensures { result ≡ order_of order kind body.now }
{
    match kind {
        BlockKind::Section => order_in(body),
        BlockKind::Interface | BlockKind::Simple | BlockKind::Enhanced | BlockKind::Other => {
            Some(order)
        }
    }
}

fn held_type(typed: bool) -> &'static [u8]
    ensures { result.now ≡ held_type typed }
{
    if typed { &SECTION_TYPE } else { &[] }
}

impl Place {
    /// Reads the block that begins here.
    pub(crate) fn read_block<S: Source>(self, alloc: Global, source: &mut S) -> Result<Block, Stop>
        ensures taken { TakesBlock S.reads (held_type self.typed) result source.old source.new }
        ensures stands { IfOk result (StandsHere self) }
        ensures ended { IsErrOf result Stop.End
            → (self.typed ≡ false) × S.reads source.old [] source.new }
        ensures goes_on { GoesOn S.faults S.healthy source.old source.new }
        ensures cause { IsErrOf result Stop.ReadFault
            → HasFailed S.faults S.healthy source.old source.new }
        ensures shows { (p : Start) → S.honest p source.new
            → IfErr result (StopsHere self (held_type self.typed ++ S.remains p source.old)) }
    {
        let mut head = [0u8; BLOCK_HEAD];
        let Some(had) = fill_behind(source, held_type(self.typed), &mut head) else {
            return Err(Stop::ReadFault);
        };
        match self.judge_head(&head[..had]) {
            Ok(()) => self.read_rest(alloc, &head, source),
            Err(why) => Err(why),
        }
    }

    /// Reads what follows this head of a block.
    fn read_rest<S: Source>(self, alloc: Global, head: &[u8], source: &mut S) -> Result<Block, Stop>
        requires head { length head.now ≡ 12 }
        requires room { 12 ≤ self.room }
        requires few { self.full && shows_packet self.order self.room head.now ≡ false }
        ensures taken { TakesBlock S.reads head.now result source.old source.new }
        ensures stands { IfOk result (StandsHere self) }
        ensures some { ¬ IsErrOf result Stop.End }
        ensures goes_on { GoesOn S.faults S.healthy source.old source.new }
        ensures cause { IsErrOf result Stop.ReadFault
            → HasFailed S.faults S.healthy source.old source.new }
        ensures shows { (p : Start) → S.honest p source.new
            → IfErr result (StopsHere self (head.now ++ S.remains p source.old)) }
    {
        let number = read_u32(self.order, head);
        let kind = BlockKind::of(number);
        let Some(order) = order_of(self.order, kind, &head[8..]) else {
            return Err(Stop::Refused(NgCause::BadMagic));
        };
        let total = read_u32(order, &head[4..]);
        if kind.is_bad_total(total) {
            return Err(self.pass_rest(total, source));
        }
        let total = total as usize;
        let mut body = match read_behind(alloc, source, &head[8..], total - 8) {
            Ok(bytes) => bytes,
            Err(FrontError::Failed) => return Err(Stop::ReadFault),
            Err(FrontError::NoMemory) => return Err(Stop::NoMemory),
        };
        if (8 + body.len()) as u64 > self.room {
            return Err(Stop::TooLarge(Limit::File));
        }
        if 8 + body.len() < total {
            return Err(Stop::Refused(NgCause::ShortBlock));
        }
        if read_u32(order, &body.as_slice()[total - 12..]) as usize != total {
            return Err(Stop::Refused(NgCause::BadLength));
        }
        body.truncate(total - 12);
        Ok(Block {
            order,
            number,
            body,
        })
    }

    /// Reads past a block of a total length that it cannot have, to see whether it is there.
    fn pass_rest<S: Source>(self, total: u32, source: &mut S) -> Stop
        requires { 12 ≤ self.room }
        ensures taken { (taken : List ℕ) × S.reads source.old taken source.new }
        ensures some { result ≢ Stop.End }
        ensures goes_on { GoesOn S.faults S.healthy source.old source.new }
        ensures cause { result ≡ Stop.ReadFault
            → HasFailed S.faults S.healthy source.old source.new }
        ensures shows { (p : Start) → S.honest p source.new
            → PassesRest self.room total (S.remains p source.old) result }
    {
        let rest = u64::from(total).saturating_sub(12);
        let room = self.room - 12;
        let Some(had) = read_past(source, rest.min(room.saturating_add(1))) else {
            return Stop::ReadFault;
        };
        if had > room {
            Stop::TooLarge(Limit::File)
        } else if had < rest {
            Stop::Refused(NgCause::ShortBlock)
        } else {
            Stop::Refused(NgCause::BadLength)
        }
    }
}
