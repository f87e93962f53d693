ghost use Rattle.std.specs.Prelude.{◌≡◌, ◌≤◌, ◌++◌, IfOk, OnOk};
ghost use Rattle.handover_world.specs.Images.{IsImageOf, ended_rows, rows_of};
ghost use Rattle.recovery_world.specs.World.{Setting, World, Ended as EndedEpoch};
ghost use Rattle.system_parts.specs.SystemStanding.{AreCounts, StandsFor};

use crate::lists::item_at;
use box_program::Program;
use event_replies::Releases;
use handover::{Ended, EndedList, Image};
use master_core::Counts;
use plain_machine::Schedule;
use plain_text::{NoMemory, Sequence};
use std::alloc::Global;
use system_parts::Core;

/// Adds a row for each thread: with what it ended this epoch.
fn add_rows(
    rows: &mut EndedList,
    epoch: u32,
    counts: &Sequence<Counts>,
    threads: u32,
) -> Result<(), NoMemory>
    ensures { OnOk result ((x : EndedEpoch) → AreCounts threads x counts.now
        → rows.new ≡ rows.old ++ rows_of epoch x 0 threads) }
{
    for thread in 0..threads {
        if let Some(counts) = item_at(counts.as_slice(), thread as usize) {
            rows.push(Ended {
                epoch,
                thread,
                entries: counts.entries,
                outputs: counts.outputs,
            })?;
        }
    }
    Ok(())
}

/// With what each thread ended each earlier epoch.
fn ended_of<P: Program>(core: &Core<P>) -> Result<EndedList, NoMemory>
    ensures { IfOk result (λ rows. (s : Setting P.Value) (w : World P.Value)
        → StandsFor (P.meaning core.now.program) s w core.now
        → rows ≡ ended_rows s.threads w.ended) }
{
    let mut rows = EndedList::new(core.alloc);
    let threads = core.inputs.threads();
    for epoch in 1..core.logger.epoch() {
        if let Some(counts) = item_at(core.ended.as_slice(), (epoch - 1) as usize) {
            add_rows(&mut rows, epoch, counts, threads)?;
        }
    }
    Ok(rows)
}

/// A copy of the released outputs.
fn copy_released(alloc: Global, released: &Releases) -> Result<Releases, NoMemory>
    ensures { IfOk result (λ copy. copy ≡ released.now) }
{
    let mut copy = Releases::new(alloc);
    for output in released.as_slice() {
        copy.push(*output)?;
    }
    Ok(copy)
}

/// A copy of the moves.
fn copy_moves(alloc: Global, moves: &Schedule) -> Result<Schedule, NoMemory>
    ensures { IfOk result (λ copy. copy ≡ moves.now) }
{
    let mut copy = Schedule::new(alloc);
    for index in 0..moves.len() {
        copy.push(moves.at(index))?;
    }
    Ok(copy)
}

/// The image of the system: all that it has stored, where nothing is on the way.
pub fn image_of<P: Program>(core: &Core<P>) -> Result<Image, NoMemory>
    ensures { IfOk result (λ image. (s : Setting P.Value) (w : World P.Value)
        → StandsFor (P.meaning core.now.program) s w core.now → w.drawn ≤ w.moves
        → IsImageOf s w image) }
{
    Ok(Image {
        fed: core.inputs.fed(),
        clock: core.clock,
        draws: core.generator.drawn(),
        epoch: core.logger.epoch(),
        moves: core.moves,
        bytes: core.bytes,
        ended: ended_of(core)?,
        released: copy_released(core.alloc, &core.released)?,
        past: copy_moves(core.alloc, &core.schedule)?,
    })
}
