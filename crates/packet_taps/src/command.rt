ghost use Rattle.std.specs.Prelude.{◌≡◌, ◌≤◌, ◌<◌, ◌+◌, ◌-◌, ◌^◌, ◌↔◌, IfOk, IfSome, None, vec_len};
ghost use Rattle.world_io.specs.Stream.{Rose};
ghost use Rattle.world_io.specs.World.{Start};
ghost use Rattle.packet_taps.specs.Places.{HasShown};
ghost use Rattle.packet_taps.specs.Watching.{JudgesWatched, KeepsFiles, ReadsOneName};
ghost use Rattle.packet_taps.specs.Words.{watch_names};

use crate::showing::show_buffered;
use crate::{Deck, PacketTap, read_watch_words};
use pcapng_io::AnyFault;
use plain_text::{Limit, NoMemory, Text};
use std::alloc::Global;
use world_io::{OpenFault, World, WorldSource};

/// The bytes of a capture that are held at once.
const BUFFER: usize = 65_536;

/// What watching a capture came to.
#[derive(Clone, Copy, PartialEq, Eq)]
pub enum Watched {
    /// The capture has this number of packets.
    Done(u64),
    /// The words are not those of `watch`. Nothing was opened or shown.
    BadWords,
    /// The capture could not be opened or read.
    ReadFault,
    NoMemory,
    /// The first place where the bytes are no capture.
    BadInput(AnyFault),
    /// Whole records or blocks within the limits, and then one that passes this limit.
    TooLarge(Limit),
}

/// Shows the packets of a capture to the taps of a deck, each as it is read: the one that the words
/// `watch CAPTURE SKIP QUOTA` name. The memory that it takes does not grow with the capture.
///
/// SKIP and QUOTA are numbers that the caller seats a tap by. Whatever the answer, the taps were shown the first
/// packets of the capture, as many as were read.
pub fn watch<W: World, T: PacketTap>(
    alloc: Global,
    words: &[Text],
    world: &mut W,
    deck: &mut Deck<T>,
) -> Watched
    requires { (W.ledger world.old).given < 2 ^ 32 - 1 }
    ensures bad_words { (result ≡ Watched.BadWords) ↔ (watch_names words.now ≡ None) }
    ensures world_stays { result ≡ Watched.BadWords → world.new ≡ world.old }
    ensures deck_stays { result ≡ Watched.BadWords → deck.new ≡ deck.old }
    ensures shown { IfSome (watch_names words.now) (λ names.
        HasShown T.saw T.missed T.fault_count T.lack_count (λ packets. (p : Start)
        → W.honest p world.new → JudgesWatched (W.healthy world.old) names.capture packets
        result (W.shows p world.old)) deck.old deck.new) }
    ensures read_fault { result ≡ Watched.ReadFault
        → Rose (W.ledger world.old).read_faults (W.ledger world.new).read_faults }
    ensures only_reads { ReadsOneName W.ledger W.healthy world.old world.new }
    ensures keeps { (p : Start) → W.honest p world.new
        → KeepsFiles (W.shows p world.old) (W.shows p world.new) }
    ensures before { (p : Start) → W.honest p world.new → W.honest p world.old }
{
    let Some(names) = read_watch_words(words) else {
        return Watched::BadWords;
    };
    watch_file(alloc, names.capture, world, deck)
}

/// Does so for the capture of this name.
fn watch_file<W: World, T: PacketTap>(
    alloc: Global,
    name: &Text,
    world: &mut W,
    deck: &mut Deck<T>,
) -> Watched
    requires { (W.ledger world.old).given < 2 ^ 32 - 1 }
    ensures words { ¬ (result ≡ Watched.BadWords) }
    ensures shown { HasShown T.saw T.missed T.fault_count T.lack_count (λ packets. (p : Start)
        → W.honest p world.new → JudgesWatched (W.healthy world.old) name.now packets
        result (W.shows p world.old)) deck.old deck.new }
    ensures read_fault { result ≡ Watched.ReadFault
        → Rose (W.ledger world.old).read_faults (W.ledger world.new).read_faults }
    ensures only_reads { ReadsOneName W.ledger W.healthy world.old world.new }
    ensures keeps { (p : Start) → W.honest p world.new
        → KeepsFiles (W.shows p world.old) (W.shows p world.new) }
    ensures before { (p : Start) → W.honest p world.new → W.honest p world.old }
{
    let file = match world.open_file(name) {
        Ok(file) => file,
        Err(OpenFault::Failed) => return Watched::ReadFault,
        Err(OpenFault::NoMemory) => return Watched::NoMemory,
    };
    let Ok(buffer) = new_buffer(alloc) else {
        return Watched::NoMemory;
    };
    let mut source = WorldSource::of(world, file);
    show_buffered(alloc, &mut source, buffer, deck)
}

/// The room for the bytes that are held.
fn new_buffer(alloc: Global) -> Result<Vec<u8>, NoMemory>
    ensures { IfOk result (λ buffer. 0 < vec_len buffer) }
{
    Ok(vec![in alloc; 0u8; BUFFER]?)
}
