ghost use Rattle.std.specs.Prelude.{◌≡◌, ◌↔◌, ◌<◌, ◌^◌, [], None};
ghost use Rattle.world_io.specs.Stream.{Rose};
ghost use Rattle.world_io.specs.World.{Start};
ghost use Rattle.packet_taps.specs.Lines.{HasPrinted};
ghost use Rattle.packet_taps.specs.Watching.{KeepsFiles, ReadsOneName};
ghost use Rattle.packet_taps.specs.Words.{watch_names};
ghost use Rattle.command_words.specs.Watching.{PrintsLines, Watches, begins_watch, watch_status};

use job_commands::Status;
use packet_taps::{Printed, Watched, print_watched};
use plain_text::Text;
use std::alloc::Global;
use world_io::World;

/// Whether the first word is `watch`.
pub fn asks_watch(words: &[Text]) -> bool
    ensures { result ≡ begins_watch words.now }
{
    match words {
        [word, ..] => word.as_str() == "watch",
        [] => false,
    }
}

/// What watching came to, and the world on whose report it printed.
#[derive(Drop)]
pub struct WatchedTo<V> {
    pub status: Status,
    pub out: V,
}

/// What the program comes to where the first word is `watch`: it shows the packets of a capture to one tap, which
/// prints a line for each on the report of a world that is there for nothing else.
pub fn watch_words<W: World, V: World + Drop>(
    alloc: Global,
    words: &[Text],
    world: &mut W,
    out: V,
) -> WatchedTo<V>
    requires room { (W.ledger world.old).given < 2 ^ 31 }
    requires fresh { HasPrinted V.honest V.shows [] out }
    ensures watches { (p : Start) → W.honest p world.new
        → Watches (W.healthy world.old) words.now result.status (W.shows p world.old) }
    ensures prints { PrintsLines W.honest W.shows W.healthy V.honest V.shows words.now
        result.status world.old world.new result.out }
    ensures bad_words { (result.status ≡ Status.BadWords) ↔ (watch_names words.now ≡ None) }
    ensures nothing_asked { result.status ≡ Status.BadWords → world.new ≡ world.old }
    ensures nothing_printed { result.status ≡ Status.BadWords → result.out ≡ out }
    ensures read_fault { result.status ≡ Status.ReadFault
        → Rose (W.ledger world.old).read_faults (W.ledger world.new).read_faults }
    ensures write_fault { result.status ≡ Status.WriteFault
        → 0 < (V.ledger result.out).write_faults }
    ensures only_reads { ReadsOneName W.ledger W.healthy world.old world.new }
    ensures keeps { (p : Start) → W.honest p world.new
        → KeepsFiles (W.shows p world.old) (W.shows p world.new) }
    ensures before { (p : Start) → W.honest p world.new → W.honest p world.old }
{
    let watched = print_watched(alloc, words, world, out);
    WatchedTo {
        status: status_of(watched.printed),
        out: watched.out,
    }
}

/// The status that has the name of the answer.
fn status_of(printed: Printed) -> Status
    ensures status { result ≡ watch_status printed }
    ensures bad_words { result ≡ Status.BadWords → printed ≡ Printed.Watched Watched.BadWords }
    ensures read_fault { result ≡ Status.ReadFault
        → printed ≡ Printed.Watched Watched.ReadFault }
    ensures write_fault { result ≡ Status.WriteFault → printed ≡ Printed.WriteFault }
{
    match printed {
        Printed::Watched(Watched::Done(_)) => Status::Done,
        Printed::Watched(Watched::BadWords) => Status::BadWords,
        Printed::Watched(Watched::ReadFault) => Status::ReadFault,
        Printed::Watched(Watched::NoMemory) => Status::NoMemory,
        Printed::Watched(Watched::BadInput(fault)) => Status::BadInput(fault.into()),
        Printed::Watched(Watched::TooLarge(limit)) => Status::TooLarge(limit),
        Printed::WriteFault => Status::WriteFault,
    }
}
