//! The rows of the ended epochs: which is wrong, and what they say as counts.
ghost use Rattle.std.specs.Prelude.{◌≡◌, ◌≤◌, ◌<◌, ◌^◌, ◌-◌, ◌+◌, ◌*◌, ◌/◌, ◌%◌, ◌&&◌, IfOk, List};
ghost use Rattle.std.specs.Prelude.{nat_eq};
ghost use Rattle.std.specs.Prelude.{length};
ghost use Rattle.handover_world.specs.Faults.{wrong_row as wrong_row_in};
ghost use Rattle.handover_world.specs.Images.{ended_rows};
ghost use Rattle.recovery_world.specs.World.{Ended as EndedEpoch};
ghost use Rattle.system_parts.specs.SystemStanding.{AreCounts, HasEnded};
ghost use Rattle.system_images.specs.Judging.{HasRows};

use crate::lists::item_at;
use handover::{Ended, EndedList};
use master_core::Counts;
use plain_text::{NoMemory, Sequence};
use std::alloc::Global;

/// Whether a row is that behind as many rows, of so many threads.
fn is_row(threads: u32, before: u64, row: &Ended) -> bool
    requires some { 1 ≤ threads }
    requires within { before < 2 ^ 40 }
    ensures { result ≡ (nat_eq row.now.epoch (before / threads + 1)
        && nat_eq row.now.thread (before % threads)) }
{
    let threads = u64::from(threads);
    u64::from(row.epoch) == before / threads + 1 && u64::from(row.thread) == before % threads
}

/// The place, from 1, of the first row that is not the next one. A row that is missing has the place behind the last.
pub fn wrong_row(threads: u32, epoch: u32, rows: &EndedList) -> Option<u64>
    requires some { 1 ≤ threads }
    requires few { threads ≤ 16 }
    requires epochs { 1 ≤ epoch }
    ensures { result ≡ wrong_row_in threads 0 ((epoch - 1) * threads) rows.now }
{
    let expected = u64::from(epoch - 1) * u64::from(threads);
    for (index, row) in rows.as_slice().iter().enumerate() {
        let before = index as u64;
        if before >= expected || !is_row(threads, before, row) {
            return Some(before + 1);
        }
    }
    let there = rows.len() as u64;
    if there < expected {
        return Some(there + 1);
    }
    None
}

/// How much each thread did, by as many rows behind the first ones.
fn counts_behind(
    alloc: Global,
    threads: u32,
    before: u64,
    rows: &EndedList,
) -> Result<Sequence<Counts>, NoMemory>
    requires few { threads ≤ 16 }
    requires within { before < 2 ^ 40 }
    ensures { IfOk result (λ counts. (x : EndedEpoch) → HasRows threads before rows.now x
        → AreCounts threads x counts) }
{
    let mut counts = Sequence::new(alloc);
    for thread in 0..threads {
        let place = before + u64::from(thread);
        if let Some(row) = item_at(rows.as_slice(), place as usize) {
            counts.push(Counts {
                taken: 0,
                entries: row.entries,
                outputs: row.outputs,
            })?;
        }
    }
    Ok(counts)
}

/// How much each thread did until the end of each of the first epochs, by their rows.
pub fn counts_of_rows(
    alloc: Global,
    threads: u32,
    many: u32,
    rows: &EndedList,
) -> Result<Vec<Sequence<Counts>>, NoMemory>
    requires few { threads ≤ 16 }
    ensures { IfOk result (λ ended. (epochs : List EndedEpoch)
        → rows.now ≡ ended_rows threads epochs → length epochs ≡ many
        → HasEnded threads (many + 1) epochs ended.items) }
{
    let mut ended = Vec::new(alloc);
    for epoch in 0..many {
        let before = u64::from(epoch) * u64::from(threads);
        let counts = counts_behind(alloc, threads, before, rows)?;
        ended.push(counts)?;
    }
    Ok(ended)
}
