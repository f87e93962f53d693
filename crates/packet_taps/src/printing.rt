ghost use Rattle.std.specs.Prelude.{◌≡◌, ◌↔◌, ◌<◌, ◌-◌, ◌^◌, ◌∷◌, [], IfErr, IfOk, IfSome, None};
ghost use Rattle.world_io.specs.Stream.{Rose};
ghost use Rattle.world_io.specs.World.{Start};
ghost use Rattle.packet_taps.specs.Lines.{HasPrinted};
ghost use Rattle.packet_taps.specs.Printing.{HasOne, IsOnly, JudgesPrinted, PrintsWindow};
ghost use Rattle.packet_taps.specs.Printing.{ended_with};
ghost use Rattle.packet_taps.specs.Watching.{JudgesWatched, KeepsFiles, ReadsOneName};
ghost use Rattle.packet_taps.specs.Words.{watch_names};

use crate::{Deck, LineTap, PacketTap, Place, Watched, read_watch_words, watch};
use plain_text::Text;
use std::alloc::Global;
use world_io::World;

/// What printing a line for each packet of a window came to.
#[derive(Clone, Copy, PartialEq, Eq)]
pub enum Printed {
    /// What watching the capture came to. Where it is done, each line was printed.
    Watched(Watched),
    /// The whole capture was read, but a line could not be printed.
    WriteFault,
}

/// What printing came to, and the world on whose report it printed.
#[derive(Drop)]
pub struct PrintedTo<V> {
    pub printed: Printed,
    pub out: V,
}

/// Performs `watch CAPTURE SKIP QUOTA`: prints a line for each packet of the capture after the first SKIP, for QUOTA
/// packets at most, on the report of a world that is there for nothing else.
pub fn print_watched<W: World, V: World + Drop>(
    alloc: Global,
    words: &[Text],
    world: &mut W,
    out: V,
) -> PrintedTo<V>
    requires room { (W.ledger world.old).given < 2 ^ 32 - 1 }
    requires fresh { HasPrinted V.honest V.shows [] out }
    ensures bad_words { (result.printed ≡ Printed.Watched Watched.BadWords)
        ↔ (watch_names words.now ≡ None) }
    ensures world_stays { result.printed ≡ Printed.Watched Watched.BadWords
        → world.new ≡ world.old }
    ensures out_stays { result.printed ≡ Printed.Watched Watched.BadWords → result.out ≡ out }
    ensures judged { (p : Start) → W.honest p world.new → IfSome (watch_names words.now)
        (λ names. JudgesPrinted (W.healthy world.old) names.capture result.printed
        (W.shows p world.old)) }
    ensures prints { IfSome (watch_names words.now) (λ names. PrintsWindow V.honest V.shows
        names result.printed (λ packets watched. (p : Start) → W.honest p world.new
        → JudgesWatched (W.healthy world.old) names.capture packets watched
        (W.shows p world.old)) result.out) }
    ensures read_fault { result.printed ≡ Printed.Watched Watched.ReadFault
        → Rose (W.ledger world.old).read_faults (W.ledger world.new).read_faults }
    ensures write_fault { result.printed ≡ Printed.WriteFault
        → 0 < (V.ledger result.out).write_faults }
    ensures only_reads { ReadsOneName W.ledger W.healthy world.old world.new }
    ensures keeps { (p : Start) → W.honest p world.new
        → KeepsFiles (W.shows p world.old) (W.shows p world.new) }
    ensures before { (p : Start) → W.honest p world.new → W.honest p world.old }
{
    let Some(names) = read_watch_words(words) else {
        return PrintedTo {
            printed: Printed::Watched(Watched::BadWords),
            out,
        };
    };
    let mut deck = match seat_one(alloc, out, names.skip, names.quota) {
        Ok(deck) => deck,
        Err(out) => {
            return PrintedTo {
                printed: Printed::Watched(Watched::NoMemory),
                out,
            };
        }
    };
    let watched = watch(alloc, words, world, &mut deck);
    let only = only_tap(deck);
    PrintedTo {
        printed: ended(watched, only.lost),
        out: only.tap.into_world(),
    }
}

/// A deck of one seat, in which a tap sits that prints on the report of this world, with this window. Where there is no
/// memory for it the world is given back.
fn seat_one<V: World + Drop>(
    alloc: Global,
    out: V,
    skip: u64,
    quota: u64,
) -> Result<Deck<LineTap<V>>, V>
    ensures ok { IfOk result (λ deck. deck ≡ Place.Seated (record {
      tap = record { world = out; faults = 0; lacks = 0 };
      skip = skip;
      quota = quota;
    }) ∷ []) }
    ensures err { IfErr result (λ back. back ≡ out) }
{
    let Ok(mut deck) = Deck::new(alloc) else {
        return Err(out);
    };
    match deck.seat(LineTap::of(alloc, out), skip, quota) {
        Ok(_) => Ok(deck),
        Err(unseated) => Err(unseated.tap.into_world()),
    }
}

/// The tap of a deck of one seat, and whether it was lost for want of memory, or because it failed, or not at all.
#[derive(Drop)]
struct Only<T> {
    lost: Option<bool>,
    tap: T,
}

/// The tap of the one seat of a deck, in which one was seated.
#[tactic(auto, using(crate::proofs::PrintedWindow::only_last, crate::proofs::PrintedWindow::has_one_length))]
fn only_tap<T: PacketTap>(deck: Deck<T>) -> Only<T>
    requires { HasOne deck }
    ensures { IsOnly deck result }
{
    match deck.into_places().pop() {
        Some(Place::Seated(taken)) => Only {
            lost: None,
            tap: taken.tap,
        },
        Some(Place::Lost(lost)) => Only {
            lost: Some(lost.memory),
            tap: lost.object,
        },
        Some(Place::Out) | None => unreachable!(),
    }
}

/// What the command comes to, where the tap was lost for want of memory, or because it failed, or not at all.
fn ended(watched: Watched, lost: Option<bool>) -> Printed
    ensures ended { result ≡ ended_with watched lost }
    ensures read_fault { result ≡ Printed.Watched Watched.ReadFault → watched ≡ Watched.ReadFault }
    ensures bad_words { result ≡ Printed.Watched Watched.BadWords → watched ≡ Watched.BadWords }
    ensures no_words { watched ≡ Watched.BadWords → result ≡ Printed.Watched Watched.BadWords }
{
    match (watched, lost) {
        (Watched::Done(_), Some(true)) => Printed::Watched(Watched::NoMemory),
        (Watched::Done(_), Some(false)) => Printed::WriteFault,
        (watched, _) => Printed::Watched(watched),
    }
}
