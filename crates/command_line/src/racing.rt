//! The words of `live`, whose threads may wait for one another.
ghost use Rattle.std.specs.Prelude.{◌≡◌, ◌≢◌, ◌<◌, ◌^◌, ◌⊎◌, ℕ, [], None, false};
ghost use Rattle.job_commands.specs.Words.{asked, live_names};
ghost use Rattle.command_line.specs.Running.{AsksToWatch, HasRefused, IsNotBegun, Runs, TapsMirror};
ghost use Rattle.command_words.specs.Printing.{asked_text};
ghost use Rattle.command_words.specs.Watching.{PrintsLines, begins_watch};
ghost use Rattle.job_top.specs.Answers.{Answers};
ghost use Rattle.packet_taps.specs.Lines.{HasPrinted};
ghost use Rattle.release_taps.specs.Split.{AsksForTaps, BeginsWithTap, behind_pairs};
ghost use Rattle.world_io.specs.World.{Start, KeepsOrder};
ghost use Rattle.world_real.specs.Real.{real_ledger};
ghost use Rattle.world_told.specs.Sent.{name_of, sent_to};

use crate::running::{create_taps, status_without};
use crate::{Ran, RealTap, SilentWorld};
use job_commands::Status;
use job_top::{ftmb, race_tapped};
use plain_text::Text;
use release_taps::{Split, split_taps};
use std::rt::Files;
use std::sync::Wait;
use std::thread::Threads;
use var_locks::Gate;
use world_io::{Clock, World};

/// Does what the words ask for, where that is `live`, perhaps after taps, and no text, with all that
/// `run_words` promises. Its threads may wait for one another.
pub(crate) fn run_racing<
    'a,
    W: World + Drop,
    V: World + Drop,
    C: Clock + Sync,
    G: Gate + Sync,
    R: AllocGlobal + Files + Print + Threads + Wait + Sync,
>(
    rt: &'a R,
    words: &[Text],
    world: W,
    out: V,
    clock: &C,
    gate: &G,
) -> Ran<W, V, RealTap<'a, R>, SilentWorld<'a, R>>
    requires no_text { asked_text words.now ≡ None }
    requires rounds { ¬ BeginsWithTap words.now → live_names words.now ≢ None }
    requires room { (W.ledger world).given < 2 ^ 31 }
    requires new_world { (file : ℕ) → (W.ledger world).created file ≡ false }
    requires fresh { HasPrinted V.honest V.shows [] out }
    ensures runs { Runs W.honest W.shows W.ledger W.healthy (C.may clock.now)
        (λ w. (real_ledger w).write_faults) result.refused words.now result.status world
        result.world (V.ledger result.out) }
    ensures prints { AsksToWatch words.now
        → PrintsLines W.honest W.shows W.healthy V.honest V.shows words.now
        result.status world result.world result.out }
    ensures prints_nothing { ¬ AsksToWatch words.now → result.out ≡ out }
    ensures mirrors { (pairs : ℕ) → AsksForTaps words.now pairs
        → IsNotBegun (λ w. (real_ledger w).write_faults) result.refused result.status
        world result.world ⊎ TapsMirror W.honest W.shows W.ledger
        (λ t. (t.faults ≡ 0) × (t.lacks ≡ 0)) (λ t. sent_to t.file t.world.calls)
        (λ t. t.faults) (λ t. t.lacks) (λ t. name_of t.file t.world.calls)
        words.now pairs result.world result.taps.items }
    ensures bad_taps { BeginsWithTap words.now → ((pairs : ℕ) → ¬ AsksForTaps words.now pairs)
        → result.status ≡ Status.BadWords }
    ensures no_command { ¬ BeginsWithTap words.now
        → asked words.now ≡ None → asked_text words.now ≡ None
        → begins_watch words.now ≡ false → result.status ≡ Status.BadWords }
    ensures orderly { (W.ledger result.world).orderly ≡ (W.ledger world).orderly }
    ensures read_fault { result.status ≡ Status.ReadFault
        → 0 < (W.ledger result.world).read_faults }
    ensures write_fault { result.status ≡ Status.WriteFault
        → (0 < (W.ledger result.world).write_faults) ⊎ ((0 < (V.ledger result.out).write_faults)
        ⊎ HasRefused (λ w. (real_ledger w).write_faults) result.refused) }
{
    let mut world = world;
    match split_taps(words) {
        Split::Plain => {
            let status = ftmb(rt, words, &mut world, clock, gate);
            return Ran {
                status,
                world,
                out,
                taps: Vec::new(rt.alloc()),
                refused: None,
            };
        }
        Split::Bad => {
            return Ran {
                status: Status::BadWords,
                world,
                out,
                taps: Vec::new(rt.alloc()),
                refused: None,
            };
        }
        Split::Taps { pairs, .. } => {
            return race_with_taps(rt, words, pairs, world, out, clock, gate);
        }
    }
}

/// Runs what stands after the pairs (`run_tapped`). The threads of `live` may wait for one another.
fn race_with_taps<
    'a,
    W: World + Drop,
    V: World + Drop,
    C: Clock + Sync,
    G: Gate + Sync,
    R: AllocGlobal + Files + Print + Threads + Wait + Sync,
>(
    rt: &'a R,
    words: &[Text],
    pairs: usize,
    world: W,
    out: V,
    clock: &C,
    gate: &G,
) -> Ran<W, V, RealTap<'a, R>, SilentWorld<'a, R>>
    requires asks { AsksForTaps words.now pairs }
    requires room { (W.ledger world).given < 2 ^ 31 }
    requires new_world { (file : ℕ) → (W.ledger world).created file ≡ false }
    ensures answers { IsNotBegun (λ w. (real_ledger w).write_faults) result.refused
        result.status world result.world ⊎ Answers W.honest W.shows W.ledger
        W.healthy (C.may clock.now) (behind_pairs pairs words.now)
        result.status world result.world }
    ensures orderly { KeepsOrder (W.ledger world) (W.ledger result.world) }
    ensures prints_nothing { result.out ≡ out }
    ensures mirrors { IsNotBegun (λ w. (real_ledger w).write_faults) result.refused
        result.status world result.world ⊎ TapsMirror W.honest W.shows W.ledger
        (λ t. (t.faults ≡ 0) × (t.lacks ≡ 0)) (λ t. sent_to t.file t.world.calls)
        (λ t. t.faults) (λ t. t.lacks) (λ t. name_of t.file t.world.calls)
        words.now pairs result.world result.taps.items }
{
    let taps = match create_taps(rt, words, pairs) {
        Ok(taps) => taps,
        Err(refused) => {
            return Ran {
                status: status_without(&refused),
                world,
                out,
                taps: Vec::new(rt.alloc()),
                refused,
            };
        }
    };
    match race_tapped(rt, words, world, taps, clock, gate) {
        Ok(run) => Ran {
            status: run.status,
            world: run.rest.world,
            out,
            taps: run.rest.seats,
            refused: None,
        },
        Err(world) => Ran {
            status: Status::NoMemory,
            world,
            out,
            taps: Vec::new(rt.alloc()),
            refused: None,
        },
    }
}
