ghost use Rattle.std.specs.Prelude.{◌≡◌, ◌<◌, ◌*◌, ◌^◌, ℕ, false, length, map, IfErr, IfOk};
ghost use Rattle.release_taps.specs.Mirrored.{IsMirroring};
ghost use Rattle.release_taps.specs.Seats.{AllFresh, labels_of};
ghost use Rattle.job_top.specs.Answers.{Answers};
ghost use Rattle.release_taps.specs.Split.{AsksForTaps, behind_pairs, released_name};

use crate::{TappedRun, ftmb};
use job_commands::Status;
use plain_text::Text;
use release_taps::{Seating, Tap, TapWorld, mirrored_name, run_line};
use std::marker::Brand;
use std::sync::Wait;
use std::thread::Threads;
use var_locks::Gate;
use world_io::{Clock, World};

/// Runs the words over a world whose file of this name is mirrored. The threads of `live` may wait.
fn race_mirrored<
    W: World + Drop,
    T: Tap,
    C: Clock + Sync,
    G: Gate + Sync,
    R: AllocGlobal + Threads + Wait + Sync,
    S: Seating,
>(rt: &R, words: &[Text], world: TapWorld<W, T, S>, clock: &C, gate: &G) -> TappedRun<W, T>
    requires room { (W.ledger world.world).given < 2 ^ 31 }
    ensures answers { Answers W.honest W.shows W.ledger W.healthy
        (C.may clock.now) words.now result.status world.world result.rest.world }
    ensures mirrors { IsMirroring W.honest W.shows W.ledger T.tells T.seen T.fault_count T.lack_count
        S.file_name result.rest.mirrored result.rest.world result.rest.seats.items }
    ensures seats { length result.rest.seats.items ≡ S.seat_count }
    ensures labels { labels_of T.label result.rest.seats.items ≡ S.labels }
{
    let mut tapped = world;
    let status = ftmb(rt, words, &mut tapped, clock, gate);
    TappedRun {
        status,
        rest: tapped.part(),
    }
}

/// Seats the taps on the file of this name, and runs the words.
fn seat_and_race<
    W: World + Drop,
    T: Tap,
    C: Clock + Sync,
    G: Gate + Sync,
    R: AllocGlobal + Threads + Wait + Sync,
    S: Seating,
>(
    rt: &R,
    words: &[Text],
    world: W,
    name: Text,
    taps: Vec<T>,
    clock: &C,
    gate: &G,
) -> Result<TappedRun<W, T>, W>
    requires room { (W.ledger world).given < 2 ^ 31 }
    requires new_world { (file : ℕ) → (W.ledger world).created file ≡ false }
    requires fresh { AllFresh T.tells T.seen T.fault_count T.lack_count taps.items }
    requires name { name ≡ S.file_name }
    requires count { length taps.items ≡ S.seat_count }
    requires labels { map T.label taps.items ≡ S.labels }
    ensures answers { IfOk result (λ run. Answers W.honest W.shows W.ledger W.healthy
        (C.may clock.now) words.now run.status world run.rest.world) }
    ensures mirrors { IfOk result (λ run. IsMirroring W.honest W.shows W.ledger
        T.tells T.seen T.fault_count T.lack_count
        S.file_name run.rest.mirrored run.rest.world run.rest.seats.items) }
    ensures seats { IfOk result (λ run. length run.rest.seats.items ≡ S.seat_count) }
    ensures labels { IfOk result (λ run. labels_of T.label run.rest.seats.items ≡ S.labels) }
    ensures world_back { IfErr result (λ back. back ≡ world) }
{
    let tapped = TapWorld::<W, T, S>::new(rt.alloc(), world, name, taps)?;
    Ok(race_mirrored(rt, words, tapped, clock, gate))
}

/// Runs what stands after the pairs `tap NAME`, which may be `live`, and shows each tap the bytes that
/// the released capture took: `tapped`, by threads that may wait for one another.
pub fn race_tapped<
    W: World + Drop,
    T: Tap,
    C: Clock + Sync,
    G: Gate + Sync,
    R: AllocGlobal + Threads + Wait + Sync,
>(rt: &R, words: &[Text], world: W, taps: Vec<T>, clock: &C, gate: &G) -> Result<TappedRun<W, T>, W>
    requires asks { AsksForTaps words.now (length taps.items) }
    requires room { (W.ledger world).given < 2 ^ 31 }
    requires new_world { (file : ℕ) → (W.ledger world).created file ≡ false }
    requires fresh { AllFresh T.tells T.seen T.fault_count T.lack_count taps.items }

    // All that the top call promises of the words after the pairs.
    ensures answers { IfOk result (λ run. Answers W.honest W.shows W.ledger W.healthy
        (C.may clock.now) (behind_pairs (length taps.items) words.now)
        run.status world run.rest.world) }

    // Each tap in its seat has seen what the released capture took, or a first part of it and has
    // counted why no more.
    ensures mirrors { IfOk result (λ run. IsMirroring W.honest W.shows W.ledger
        T.tells T.seen T.fault_count T.lack_count (released_name (length taps.items) words.now)
        run.rest.mirrored run.rest.world run.rest.seats.items) }
    ensures seats { IfOk result (λ run. length run.rest.seats.items ≡ length taps.items) }
    ensures labels { IfOk result
        (λ run. labels_of T.label run.rest.seats.items ≡ map T.label taps.items) }
    ensures world_back { IfErr result (λ back. back ≡ world) }
{
    let pairs = taps.len();
    let Ok(name) = Text::of(rt.alloc(), mirrored_name(words, pairs).as_str()) else {
        return Err(world);
    };
    let line = run_line(words, pairs);
    seat_and_race::<W, T, C, G, R, Brand>(rt, line, world, name, taps, clock, gate)
}
