ghost use Rattle.std.specs.Prelude.{◌≡◌, ◌<◌, ◌*◌, ◌^◌, ℕ, None, false, length, map, IfErr, IfOk};
ghost use Rattle.job_commands.specs.Words.{live_names};
ghost use Rattle.release_taps.specs.Mirrored.{IsMirroring};
ghost use Rattle.release_taps.specs.Seats.{AllFresh, labels_of};
ghost use Rattle.job_top.specs.Answers.{Answers};
ghost use Rattle.release_taps.specs.Split.{AsksForTaps, behind_pairs, released_name};

use crate::serial;
use job_commands::Status;
use plain_text::Text;
use release_taps::{Seating, Tap, TapWorld, Untapped, mirrored_name, run_line};
use std::alloc::Global;
use std::marker::Brand;
use world_io::World;

/// What a tapped run comes to.
#[derive(Drop)]
pub struct TappedRun<W, T> {
    pub status: Status,
    /// What is left when the taps are taken off.
    pub rest: Untapped<W, T>,
}

/// Runs the words over a world whose file of this name is mirrored.
fn run_mirrored<W: World + Drop, T: Tap, S: Seating>(
    alloc: Global,
    words: &[Text],
    world: TapWorld<W, T, S>,
) -> TappedRun<W, T>
    requires room { (W.ledger world.world).given < 2 ^ 31 }
    requires no_rounds { live_names words.now ≡ None }
    ensures answers { Answers W.honest W.shows W.ledger W.healthy
        (λ t. ⊥) words.now result.status world.world result.rest.world }
    ensures mirrors { IsMirroring W.honest W.shows W.ledger T.tells T.seen T.fault_count T.lack_count
        S.file_name result.rest.mirrored result.rest.world result.rest.seats.items }
    ensures seats { length result.rest.seats.items ≡ S.seat_count }
    ensures labels { labels_of T.label result.rest.seats.items ≡ S.labels }
{
    let mut tapped = world;
    let status = serial(alloc, words, &mut tapped);
    TappedRun {
        status,
        rest: tapped.part(),
    }
}

/// Seats the taps on the file of this name, and runs the words.
fn seat_and_run<W: World + Drop, T: Tap, S: Seating>(
    alloc: Global,
    words: &[Text],
    world: W,
    name: Text,
    taps: Vec<T>,
) -> Result<TappedRun<W, T>, W>
    requires room { (W.ledger world).given < 2 ^ 31 }
    requires no_rounds { live_names words.now ≡ None }
    requires new_world { (file : ℕ) → (W.ledger world).created file ≡ false }
    requires fresh { AllFresh T.tells T.seen T.fault_count T.lack_count taps.items }
    requires name { name ≡ S.file_name }
    requires count { length taps.items ≡ S.seat_count }
    requires labels { map T.label taps.items ≡ S.labels }
    ensures answers { IfOk result (λ run. Answers W.honest W.shows W.ledger W.healthy
        (λ t. ⊥) words.now run.status world run.rest.world) }
    ensures mirrors { IfOk result (λ run. IsMirroring W.honest W.shows W.ledger
        T.tells T.seen T.fault_count T.lack_count
        S.file_name run.rest.mirrored run.rest.world run.rest.seats.items) }
    ensures seats { IfOk result (λ run. length run.rest.seats.items ≡ S.seat_count) }
    ensures labels { IfOk result (λ run. labels_of T.label run.rest.seats.items ≡ S.labels) }
    ensures world_back { IfErr result (λ back. back ≡ world) }
{
    let tapped = TapWorld::<W, T, S>::new(alloc, world, name, taps)?;
    Ok(run_mirrored(alloc, words, tapped))
}

/// Runs what stands after the pairs `tap NAME`, and shows each tap the bytes that the released
/// capture took.
///
/// A tap that fails is shown nothing more, keeps its seat, and changes nothing for the command: its
/// status and its files are those that `ftmb` promises of the words after the pairs. The world has
/// created no file before. After want of memory the taps are gone, and the world, of which nothing was
/// asked, is given back. It waits for nobody, so the words may not be those of `live` (`race_tapped`).
pub fn tapped<W: World + Drop, T: Tap>(
    alloc: Global,
    words: &[Text],
    world: W,
    taps: Vec<T>,
) -> Result<TappedRun<W, T>, W>
    requires asks { AsksForTaps words.now (length taps.items) }
    requires no_rounds { live_names (behind_pairs (length taps.items) words.now) ≡ None }
    requires room { (W.ledger world).given < 2 ^ 31 }
    requires new_world { (file : ℕ) → (W.ledger world).created file ≡ false }
    requires fresh { AllFresh T.tells T.seen T.fault_count T.lack_count taps.items }

    // All that the top call promises of the words after the pairs.
    ensures answers { IfOk result (λ run. Answers W.honest W.shows W.ledger W.healthy
        (λ t. ⊥) (behind_pairs (length taps.items) words.now)
        run.status world run.rest.world) }

    // Each tap in its seat has seen what the released capture took, or a first part of it and has
    // counted why no more.
    ensures mirrors { IfOk result (λ run. IsMirroring W.honest W.shows W.ledger
        T.tells T.seen T.fault_count T.lack_count (released_name (length taps.items) words.now)
        run.rest.mirrored run.rest.world run.rest.seats.items) }
    ensures seats { IfOk result (λ run. length run.rest.seats.items ≡ length taps.items) }
    ensures labels { IfOk result
        (λ run. labels_of T.label run.rest.seats.items ≡ map T.label taps.items) }
    ensures world_back { IfErr result (λ back. back ≡ world) }
{
    let pairs = taps.len();
    let Ok(name) = Text::of(alloc, mirrored_name(words, pairs).as_str()) else {
        return Err(world);
    };
    let line = run_line(words, pairs);
    seat_and_run::<W, T, Brand>(alloc, line, world, name, taps)
}
