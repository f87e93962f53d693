ghost use Rattle.std.specs.Prelude.{◌≡◌, ◌≤◌, IfOk, filter, length, nat_eq};
ghost use Rattle.run_drawing.specs.Slices.{most_in, most_moves, moves_behind as noted_behind};
ghost use Rattle.run_drawing.specs.Slices.{moves_of, slice_of as slice_at, slices_of};

use crate::Note;
use crate::places::advance;
use crate::samples::{Slice, Slices};
use plain_text::NoMemory;
use std::alloc::Global;

/// The most slices into which the events are cut.
const MOST_SLICES: u64 = 50;

/// How many of these moves are the thread's.
fn count_in(thread: u64, movers: &[u32]) -> u64
    ensures { result ≡ length (filter (λ u. nat_eq u thread) movers.now) }
{
    movers
        .iter()
        .filter(|mover| u64::from(**mover) == thread)
        .count() as u64
}

/// How many of the moves that are noted behind an event are the thread's.
fn moves_behind(thread: u64, note: &Note) -> u64
    ensures { result ≡ noted_behind thread note.now }
{
    count_in(thread, note.movers.as_slice())
}

/// How many of the moves that are noted behind these events are the thread's.
fn count_moves(thread: u64, notes: &[Note]) -> Result<u64, NoMemory>
    ensures { IfOk result (λ count. count ≡ moves_of thread notes.now) }
{
    let mut count = 0;
    for note in notes {
        count = advance(count, moves_behind(thread, note))?;
    }
    Ok(count)
}

/// The slice of these events, the first of which has this place.
fn slice_of(thread: u64, first: u64, events: &[Note]) -> Result<Slice, NoMemory>
    ensures { IfOk result (λ slice. slice ≡ slice_at thread first events.now) }
{
    Ok(Slice {
        first,
        events: events.len() as u64,
        moves: count_moves(thread, events)?,
    })
}

/// What the slices of the events have of the moves of a thread.
pub fn take_slices(alloc: Global, thread: u64, notes: &[Note]) -> Result<Slices, NoMemory>
    ensures { IfOk result (λ slices. slices ≡ slices_of thread notes.now) }
{
    let every = notes.len() / 50 + 1;
    let mut slices = Slices::new(alloc);
    let mut first = 0;
    let mut rest = notes;
    let mut left = MOST_SLICES;
    'cut: while left > 0 && !rest.is_empty() {
        let many = every.min(rest.len());
        slices.push(slice_of(thread, first, &rest[..many])?)?;
        first = advance(first, every as u64)?;
        rest = &rest[many..];
        left -= 1;
    }
    Ok(slices)
}

/// The most moves of a slice, or so many.
fn most_of(most: u64, slices: &[Slice]) -> u64
    ensures { result ≡ most_in most slices.now }
{
    let mut greatest = most;
    for slice in slices {
        greatest = greatest.max(slice.moves);
    }
    greatest
}

/// The most moves that one of so many threads made in a slice.
pub fn most_of_threads(alloc: Global, threads: u64, notes: &[Note]) -> Result<u64, NoMemory>
    ensures { IfOk result (λ most. most ≡ most_moves 0 0 threads notes.now) }
{
    let mut most = 0;
    'threads: for thread in 0..threads {
        let slices = take_slices(alloc, thread, notes)?;
        most = most_of(most, slices.as_slice());
    }
    Ok(most)
}
