//! Which words may wait: those of `live` alone.
ghost use Rattle.std.specs.Prelude.{◌≡◌, ◌≢◌, ◌<◌, ◌^◌, ◌⊎◌, ℕ, [], None, false, true};
ghost use Rattle.command_line.specs.Running.{AsksNoRounds, AsksToWatch, HasRefused, IsNotBegun};
ghost use Rattle.command_line.specs.Running.{Runs, TapsMirror};
ghost use Rattle.command_words.specs.Printing.{asked_text};
ghost use Rattle.command_words.specs.Watching.{PrintsLines, begins_watch};
ghost use Rattle.job_commands.specs.Words.{asked, live_names};
ghost use Rattle.packet_taps.specs.Lines.{HasPrinted};
ghost use Rattle.release_taps.specs.Split.{AsksForTaps, BeginsWithTap};
ghost use Rattle.world_io.specs.World.{Start};
ghost use Rattle.world_real.specs.Real.{real_ledger};
ghost use Rattle.world_told.specs.Sent.{name_of, sent_to};

use crate::racing::run_racing;
use crate::running::{run_alone, run_serial};
use crate::{Ran, RealTap, SilentWorld};
use command_words::asks_text;
use job_commands::{Status, read_live_words};
use plain_text::Text;
use release_taps::{Split, run_line, split_taps};
use std::rt::Files;
use std::sync::Wait;
use std::thread::Threads;
use var_locks::Gate;
use world_io::{Clock, World};

/// Does what the words ask for over the files of a world: performs them; or, where pairs
/// `tap NAME` stand in front, runs what stands after them and mirrors the released capture under
/// each name; or, where the first word is `watch`, prints a line for each packet of a window on the
/// report of the other world. Words that ask for a text, as `tap --help`, are performed first of all.
///
/// It ends with `BadWords` only where the words ask for nothing that it does, and with `WriteFault` or
/// `ReadFault` only where a world counted a fault.
///
/// All but `live` goes by functions that take nothing that may wait, and so are proved to return.
pub fn run_words<
    'a,
    W: World + Drop,
    V: World + Drop,
    C: Clock + Sync,
    G: Gate + Sync,
    R: AllocGlobal + Files + Print + Threads + Wait + Sync,
>(
    rt: &'a R,
    words: &[Text],
    world: W,
    out: V,
    clock: &C,
    gate: &G,
) -> Ran<W, V, RealTap<'a, R>, SilentWorld<'a, R>>
    requires room { (W.ledger world).given < 2 ^ 31 }
    requires new_world { (file : ℕ) → (W.ledger world).created file ≡ false }
    requires fresh { HasPrinted V.honest V.shows [] out }
    ensures runs { Runs W.honest W.shows W.ledger W.healthy (C.may clock.now)
        (λ w. (real_ledger w).write_faults) result.refused words.now result.status world
        result.world (V.ledger result.out) }
    ensures prints { AsksToWatch words.now
        → PrintsLines W.honest W.shows W.healthy V.honest V.shows words.now
        result.status world result.world result.out }
    ensures prints_nothing { ¬ AsksToWatch words.now → result.out ≡ out }
    ensures mirrors { (pairs : ℕ) → AsksForTaps words.now pairs
        → IsNotBegun (λ w. (real_ledger w).write_faults) result.refused result.status
        world result.world ⊎ TapsMirror W.honest W.shows W.ledger
        (λ t. (t.faults ≡ 0) × (t.lacks ≡ 0)) (λ t. sent_to t.file t.world.calls)
        (λ t. t.faults) (λ t. t.lacks) (λ t. name_of t.file t.world.calls)
        words.now pairs result.world result.taps.items }
    ensures bad_taps { BeginsWithTap words.now → ((pairs : ℕ) → ¬ AsksForTaps words.now pairs)
        → asked_text words.now ≡ None → result.status ≡ Status.BadWords }
    ensures no_command { ¬ BeginsWithTap words.now
        → asked words.now ≡ None → asked_text words.now ≡ None
        → begins_watch words.now ≡ false → result.status ≡ Status.BadWords }
    ensures orderly { (W.ledger result.world).orderly ≡ (W.ledger world).orderly }
    ensures read_fault { result.status ≡ Status.ReadFault
        → 0 < (W.ledger result.world).read_faults }
    ensures write_fault { result.status ≡ Status.WriteFault
        → (0 < (W.ledger result.world).write_faults) ⊎ ((0 < (V.ledger result.out).write_faults)
        ⊎ HasRefused (λ w. (real_ledger w).write_faults) result.refused) }
{
    if asks_text(words) {
        return run_alone(rt.alloc(), words, world, out);
    }
    if asks_for_rounds(words) {
        return run_racing(rt, words, world, out, clock, gate);
    }
    run_serial(rt, words, world, out)
}

/// Whether the words ask for `live`, perhaps after taps.
fn asks_for_rounds(words: &[Text]) -> bool
    ensures rounds { result ≡ true → ¬ BeginsWithTap words.now → live_names words.now ≢ None }
    ensures no_rounds { result ≡ false → AsksNoRounds words.now }
{
    match split_taps(words) {
        Split::Plain => read_live_words(words).is_some(),
        Split::Bad => false,
        Split::Taps { pairs, .. } => read_live_words(run_line(words, pairs)).is_some(),
    }
}
