ghost use Rattle.std.specs.Prelude.{◌≡◌, ◌<◌, vec_len};
ghost use Rattle.world_io.specs.Stream.{GoesOn, HasFailed};
ghost use Rattle.world_io.specs.Taking.{TakesSome};
ghost use Rattle.world_io.specs.World.{Start};
ghost use Rattle.packet_taps.specs.Places.{HasShown};
ghost use Rattle.packet_taps.specs.Watching.{SaysWatched};

use crate::{Deck, PacketTap, Watched};
use pcapng_io::{AnyNext, AnyStarted, open_capture};
use std::alloc::Global;
use world_io::{BufferedSource, Source};

/// Shows the packets of a capture to the taps of a deck, each as it is read.
fn show_capture<S: Source, T: PacketTap>(
    alloc: Global,
    source: &mut S,
    deck: &mut Deck<T>,
) -> Watched
    ensures reads { TakesSome S.reads source.old source.new }
    ensures goes_on { GoesOn S.faults S.healthy source.old source.new }
    ensures cause { result ≡ Watched.ReadFault
        → HasFailed S.faults S.healthy source.old source.new }
    ensures words { ¬ (result ≡ Watched.BadWords) }
    ensures shown { HasShown T.saw T.missed T.fault_count T.lack_count (λ packets. (p : Start)
        → S.honest p source.new → SaysWatched (S.remains p source.old) packets result)
        deck.old deck.new }
{
    let mut reader = match open_capture(alloc, source) {
        AnyStarted::Reader(reader) => reader,
        AnyStarted::Refused(fault) => return Watched::BadInput(fault),
        AnyStarted::ReadFault => return Watched::ReadFault,
        AnyStarted::NoMemory => return Watched::NoMemory,
    };
    let mut count: u64 = 0;
    'records: loop {
        match reader.next_packet(source) {
            AnyNext::Packet(packet) => {
                deck.show(&packet);
                count += 1;
            }
            AnyNext::End => return Watched::Done(count),
            AnyNext::Refused(fault) => return Watched::BadInput(fault),
            AnyNext::TooLarge(limit) => return Watched::TooLarge(limit),
            AnyNext::ReadFault => return Watched::ReadFault,
            AnyNext::NoMemory => return Watched::NoMemory,
            AnyNext::Over => unreachable!(),
        }
    }
}

/// Does so through a buffer.
pub(crate) fn show_buffered<S: Source, T: PacketTap>(
    alloc: Global,
    source: &mut S,
    buffer: Vec<u8>,
    deck: &mut Deck<T>,
) -> Watched
    requires { 0 < vec_len buffer }
    ensures reads { TakesSome S.reads source.old source.new }
    ensures goes_on { GoesOn S.faults S.healthy source.old source.new }
    ensures cause { result ≡ Watched.ReadFault
        → HasFailed S.faults S.healthy source.old source.new }
    ensures words { ¬ (result ≡ Watched.BadWords) }
    ensures shown { HasShown T.saw T.missed T.fault_count T.lack_count (λ packets. (p : Start)
        → S.honest p source.new → SaysWatched (S.remains p source.old) packets result)
        deck.old deck.new }
{
    let mut buffered = BufferedSource::of(source, buffer);
    let watched = show_capture(alloc, &mut buffered, deck);
    let _below = buffered.into_inner();
    watched
}
