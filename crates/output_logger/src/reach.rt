//! The frontiers of a held set, now and as they will be.
ghost use Rattle.std.specs.Prelude.{◌≡◌, ◌≢◌, ℕ, ◌+◌, ◌-◌, ◌^◌, ◌<◌, ◌≤◌, List, None, IsSome, IfOk};
ghost use Rattle.std.specs.Prelude.{length, slice_index};
ghost use Rattle.access_log.specs.declared.entry.StampedEntry.{StampedEntry};
ghost use Rattle.access_log.specs.Held.{Lane, lane, entry_at, IsKnown, IsFrontier};
ghost use Rattle.access_log.specs.Lanes.{CoversUpTo};
ghost use Rattle.output_logger.specs.Reach.{Reaches, AreFrontiers, WithEntry, WithCover};

use access_log::Held;
use plain_text::NoMemory;
use thread_clock::EntryCounts;

/// The frontier of each thread.
pub fn frontiers(held: &Held) -> EntryCounts
    ensures { AreFrontiers held.now result }
{
    held.is_held_set();
    let mut components = [0; 16];
    for i in 0..16 {
        components[i as usize] = held.frontier(i);
    }
    EntryCounts::new(components)
}

/// The greatest number up to which each entry of the thread after this number is held. It answers that memory ran out
/// where that is the greatest number that there is.
fn reach(held: &Held, thread: u32, from: u64) -> Result<u64, NoMemory>
    ensures { IfOk result (λ reached. Reaches (lane held.now thread) from reached) }
{
    let mut reached = from;
    while reached < u64::MAX {
        if !held.holds(thread, reached + 1) {
            return Ok(reached);
        }
        reached += 1;
    }
    Err(NoMemory)
}

/// The frontiers as they will be with one more entry.
pub fn frontiers_with(held: &Held, thread: u32, number: u64) -> Result<EntryCounts, NoMemory>
    requires thread_in { thread < length held.now }
    requires numbered { 1 ≤ number }
    requires unknown { IsKnown (lane held.now thread) number → ⊥ }
    ensures { IfOk result (λ reached. (new : List Lane) (e : StampedEntry)
        → WithEntry held.now new thread number e → AreFrontiers new reached) }
{
    held.is_held_set();
    let mut components = *frontiers(held).components();
    if components[thread as usize] == number - 1 {
        components[thread as usize] = reach(held, thread, number)?;
    }
    Ok(EntryCounts::new(components))
}

/// The frontier of a thread as it will be once the entries up to this number are covered.
fn frontier_over(held: &Held, thread: u32, count: u64) -> Result<u64, NoMemory>
    requires { (lane held.now thread).covered ≤ count }
    ensures { IfOk result (λ reached. (new : Lane)
        → CoversUpTo (lane held.now thread) new count → IsFrontier new reached) }
{
    let frontier = held.frontier(thread);
    if count <= frontier {
        return Ok(frontier);
    }
    reach(held, thread, count)
}

/// The frontiers as they will be once each thread's entries up to its count are covered.
pub fn frontiers_over(
    held: &Held,
    threads: u32,
    counts: &EntryCounts,
) -> Result<EntryCounts, NoMemory>
    requires all { threads ≡ length held.now }
    requires rising { (t : ℕ) → t < length held.now
        → (lane held.now t).covered ≤ slice_index counts.now t }
    ensures { IfOk result (λ reached. (new : List Lane)
        → WithCover held.now new counts.now → AreFrontiers new reached) }
{
    held.is_held_set();
    let mut components = [0; 16];
    for thread in 0..threads {
        components[thread as usize] = frontier_over(held, thread, counts.get(thread))?;
    }
    Ok(EntryCounts::new(components))
}
