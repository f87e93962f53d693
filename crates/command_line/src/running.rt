ghost use Rattle.std.specs.Prelude.{◌≡◌, ◌<◌, ◌≤◌, ◌*◌, ◌^◌, ◌⊎◌, ℕ, [], IfOk, IfErr, IfSome, None};
ghost use Rattle.std.specs.Prelude.{true};
ghost use Rattle.std.specs.Prelude.{false, length};
ghost use Rattle.job_commands.specs.Words.{asked, live_names};
ghost use Rattle.command_line.specs.Performing.{PerformsIn, WatchesIn};
ghost use Rattle.command_line.specs.Running.{AreNamed, AsksNoRounds, AsksToWatch, HasRefused};
ghost use Rattle.command_line.specs.Running.{IsNotBegun, Runs};
ghost use Rattle.command_line.specs.Running.{TapsMirror};
ghost use Rattle.command_words.specs.Printing.{asked_text};
ghost use Rattle.command_words.specs.Watching.{PrintsLines, begins_watch};
ghost use Rattle.job_top.specs.Answers.{Answers};
ghost use Rattle.packet_taps.specs.Lines.{HasPrinted};
ghost use Rattle.release_taps.specs.Split.{AsksForTaps, BeginsWithTap, behind_pairs};
ghost use Rattle.release_taps.specs.Seats.{AllFresh};
ghost use Rattle.world_io.specs.World.{Start, KeepsOrder};
ghost use Rattle.world_real.specs.Real.{real_ledger};
ghost use Rattle.world_told.specs.Sent.{name_of, sent_to};

use crate::perform;
use command_words::{asks_watch, watch_words};
use job_commands::Status;
use job_top::tapped;
use plain_text::Text;
use release_taps::{Seat, Split, split_taps};
use std::alloc::Global;
use std::rt::Files;
use world_io::{OpenFault, World};
use world_real::{RealWorld, Silence};
use world_told::ToldTap;

/// The files of the system, where nothing is told of what is written.
pub type SilentWorld<'a, R> = RealWorld<&'a R, Silence>;

/// A tap on a file of the system.
pub type RealTap<'a, R> = ToldTap<SilentWorld<'a, R>>;

/// What a run of the words came to, and what it leaves.
#[derive(Drop)]
pub struct Ran<W, V, T, X> {
    pub status: Status,
    /// The world in which the command ran.
    pub world: W,
    /// The world on whose report the lines of a watched capture are printed.
    pub out: V,
    /// The taps, each in its seat; none where the run was not begun.
    pub taps: Vec<Seat<T>>,
    /// The world in which the file of a tap could not be created, which has counted a fault.
    pub refused: Option<X>,
}

/// Does what the words ask for, where that is no text and not `live`, with all that `run_words`
/// promises. It takes nothing that may wait, so it is proved to return.
pub(crate) fn run_serial<'a, W: World + Drop, V: World + Drop, R: AllocGlobal + Files + Print>(
    rt: &'a R,
    words: &[Text],
    world: W,
    out: V,
) -> Ran<W, V, RealTap<'a, R>, SilentWorld<'a, R>>
    requires no_text { asked_text words.now ≡ None }
    requires no_rounds { AsksNoRounds words.now }
    requires room { (W.ledger world).given < 2 ^ 31 }
    requires new_world { (file : ℕ) → (W.ledger world).created file ≡ false }
    requires fresh { HasPrinted V.honest V.shows [] out }
    ensures runs { Runs W.honest W.shows W.ledger W.healthy (λ t. ⊥)
        (λ w. (real_ledger w).write_faults) result.refused words.now result.status world
        result.world (V.ledger result.out) }
    ensures prints { AsksToWatch words.now
        → PrintsLines W.honest W.shows W.healthy V.honest V.shows words.now
        result.status world result.world result.out }
    ensures prints_nothing { ¬ AsksToWatch words.now → result.out ≡ out }
    ensures mirrors { (pairs : ℕ) → AsksForTaps words.now pairs
        → IsNotBegun (λ w. (real_ledger w).write_faults) result.refused result.status
        world result.world ⊎ TapsMirror W.honest W.shows W.ledger
        (λ t. (t.faults ≡ 0) × (t.lacks ≡ 0)) (λ t. sent_to t.file t.world.calls)
        (λ t. t.faults) (λ t. t.lacks) (λ t. name_of t.file t.world.calls)
        words.now pairs result.world result.taps.items }
    ensures bad_taps { BeginsWithTap words.now → ((pairs : ℕ) → ¬ AsksForTaps words.now pairs)
        → result.status ≡ Status.BadWords }
    ensures no_command { ¬ BeginsWithTap words.now
        → asked words.now ≡ None → asked_text words.now ≡ None
        → begins_watch words.now ≡ false → result.status ≡ Status.BadWords }
    ensures orderly { (W.ledger result.world).orderly ≡ (W.ledger world).orderly }
    ensures read_fault { result.status ≡ Status.ReadFault
        → 0 < (W.ledger result.world).read_faults }
    ensures write_fault { result.status ≡ Status.WriteFault
        → (0 < (W.ledger result.world).write_faults) ⊎ ((0 < (V.ledger result.out).write_faults)
        ⊎ HasRefused (λ w. (real_ledger w).write_faults) result.refused) }
{
    match split_taps(words) {
        Split::Plain => return run_plain(rt.alloc(), words, world, out),
        Split::Bad => {
            return Ran {
                status: Status::BadWords,
                world,
                out,
                taps: Vec::new(rt.alloc()),
                refused: None,
            };
        }
        Split::Taps { pairs, .. } => {
            return run_tapped(rt, words, pairs, world, out);
        }
    }
}

/// Performs the words, or watches a capture. What is watched is printed through the world that is
/// there for nothing else.
fn run_plain<T, X, W: World + Drop, V: World + Drop>(
    alloc: Global,
    words: &[Text],
    world: W,
    out: V,
) -> Ran<W, V, T, X>
    requires no_rounds { live_names words.now ≡ None }
    requires room { (W.ledger world).given < 2 ^ 31 }
    requires fresh { HasPrinted V.honest V.shows [] out }
    ensures performs { begins_watch words.now ≡ false → PerformsIn W.honest W.shows W.ledger
        W.healthy (λ t. ⊥) words.now result.status world result.world }
    ensures watches { begins_watch words.now ≡ true → WatchesIn W.honest W.shows W.ledger
        W.healthy words.now result.status world result.world (V.ledger result.out) }
    ensures prints { begins_watch words.now ≡ true → PrintsLines W.honest W.shows W.healthy
        V.honest V.shows words.now result.status world result.world result.out }
    ensures prints_nothing { begins_watch words.now ≡ false → result.out ≡ out }
    ensures orderly { KeepsOrder (W.ledger world) (W.ledger result.world) }
    ensures no_command { asked words.now ≡ None → asked_text words.now ≡ None
        → begins_watch words.now ≡ false → result.status ≡ Status.BadWords }
{
    if asks_watch(words) {
        let mut world = world;
        let watched = watch_words(alloc, words, &mut world, out);
        return Ran {
            status: watched.status,
            world,
            out: watched.out,
            taps: Vec::new(alloc),
            refused: None,
        };
    }
    run_alone(alloc, words, world, out)
}

/// Performs the words. Nothing is printed through the world that is there for watched lines.
pub(crate) fn run_alone<T, X, W: World + Drop, V: World + Drop>(
    alloc: Global,
    words: &[Text],
    world: W,
    out: V,
) -> Ran<W, V, T, X>
    requires no_rounds { live_names words.now ≡ None }
    requires room { (W.ledger world).given < 2 ^ 31 }
    ensures performs { PerformsIn W.honest W.shows W.ledger W.healthy (λ t. ⊥) words.now
        result.status world result.world }
    ensures prints_nothing { result.out ≡ out }
    ensures orderly { KeepsOrder (W.ledger world) (W.ledger result.world) }
    ensures no_command { asked words.now ≡ None → asked_text words.now ≡ None
        → result.status ≡ Status.BadWords }
{
    let mut world = world;
    let status = perform(alloc, words, &mut world);
    Ran {
        status,
        world,
        out,
        taps: Vec::new(alloc),
        refused: None,
    }
}

/// Runs what stands after the pairs. Each tap writes to the file of its name, which is created
/// before the command begins.
fn run_tapped<'a, W: World + Drop, V: World + Drop, R: AllocGlobal + Files + Print>(
    rt: &'a R,
    words: &[Text],
    pairs: usize,
    world: W,
    out: V,
) -> Ran<W, V, RealTap<'a, R>, SilentWorld<'a, R>>
    requires asks { AsksForTaps words.now pairs }
    requires no_rounds { live_names (behind_pairs pairs words.now) ≡ None }
    requires room { (W.ledger world).given < 2 ^ 31 }
    requires new_world { (file : ℕ) → (W.ledger world).created file ≡ false }
    ensures answers { IsNotBegun (λ w. (real_ledger w).write_faults) result.refused
        result.status world result.world ⊎ Answers W.honest W.shows W.ledger
        W.healthy (λ t. ⊥) (behind_pairs pairs words.now)
        result.status world result.world }
    ensures prints_nothing { result.out ≡ out }
    ensures orderly { KeepsOrder (W.ledger world) (W.ledger result.world) }
    ensures mirrors { IsNotBegun (λ w. (real_ledger w).write_faults) result.refused
        result.status world result.world ⊎ TapsMirror W.honest W.shows W.ledger
        (λ t. (t.faults ≡ 0) × (t.lacks ≡ 0)) (λ t. sent_to t.file t.world.calls)
        (λ t. t.faults) (λ t. t.lacks) (λ t. name_of t.file t.world.calls)
        words.now pairs result.world result.taps.items }
{
    let taps = match create_taps(rt, words, pairs) {
        Ok(taps) => taps,
        Err(refused) => {
            return Ran {
                status: status_without(&refused),
                world,
                out,
                taps: Vec::new(rt.alloc()),
                refused,
            };
        }
    };
    match tapped(rt.alloc(), words, world, taps) {
        Ok(run) => Ran {
            status: run.status,
            world: run.rest.world,
            out,
            taps: run.rest.seats,
            refused: None,
        },
        Err(world) => Ran {
            status: Status::NoMemory,
            world,
            out,
            taps: Vec::new(rt.alloc()),
            refused: None,
        },
    }
}

/// The status where taps could not be created: of a write fault where a world refused a file, and
/// else of want of memory.
pub(crate) fn status_without<X>(refused: &Option<X>) -> Status
    ensures refused { IfSome refused.now (λ _. result ≡ Status.WriteFault) }
    ensures memory { refused.now ≡ None → result ≡ Status.NoMemory }
{
    match refused {
        Some(_) => Status::WriteFault,
        None => Status::NoMemory,
    }
}

/// A tap on a file for each name, in order, each in a world of its own; or the world that refused a
/// file, or none where memory ran out.
#[tactic(auto, using(crate::proofs::Runs::rose_some))]
pub(crate) fn create_taps<'a, R: AllocGlobal + Files + Print>(
    rt: &'a R,
    words: &[Text],
    pairs: usize,
) -> Result<Vec<RealTap<'a, R>>, Option<SilentWorld<'a, R>>>
    requires { 2 * pairs ≤ length words.now }
    ensures count { IfOk result (λ taps. length taps.items ≡ pairs) }
    ensures named { IfOk result (λ taps. AreNamed
        (λ t. name_of t.file t.world.calls) words.now taps.items) }
    ensures fresh { IfOk result
        (λ taps. AllFresh (λ t. (t.faults ≡ 0) × (t.lacks ≡ 0))
        (λ t. sent_to t.file t.world.calls) (λ t. t.faults) (λ t. t.lacks) taps.items) }
    ensures refused { IfErr result
        (λ refused. IfSome refused (λ w. 0 < (real_ledger w).write_faults)) }
{
    let mut taps = Vec::new(rt.alloc());
    for pair in 0..pairs {
        let world = RealWorld::new(rt.alloc(), rt, Silence);
        let tap = match ToldTap::create(world, &words[2 * pair + 1]) {
            Ok(tap) => tap,
            Err(refused) => {
                return match refused.fault {
                    OpenFault::Failed => Err(Some(refused.world)),
                    OpenFault::NoMemory => Err(None),
                };
            }
        };
        if taps.push(tap).is_err() {
            return Err(None);
        }
    }
    Ok(taps)
}
