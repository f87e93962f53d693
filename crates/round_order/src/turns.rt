ghost use Rattle.std.specs.Prelude.{◌≡◌, ◌≢◌, ℕ, ◌+◌, ◌<◌, ◌≤◌, ◌↔◌, ◌++◌, List, [], ◌∷◌, length};
ghost use Rattle.std.specs.Prelude.{reverse, slice_index, slice_index_or, IfOk, IfSome, IfNone};
ghost use Rattle.std.specs.Prelude.{IsTrue, Option, Some, None};
ghost use Rattle.round_order.specs.Turns.{IsLighter, newest, IsLatest, HasLatest, AreLeft};
ghost use Rattle.round_order.specs.Turns.{AreTurns, lengths};

use plain_text::{NoMemory, Sequence};
use std::alloc::Global;

/// The weight of the entry of a receipt, or none where its move is not logged. The marks of a thread stand oldest
/// first.
pub type Marks = Sequence<Option<u64>>;

/// Whether a receipt with the first mark is lighter than one with the second.
fn is_lighter(first: Option<u64>, second: Option<u64>) -> bool
    ensures { IsTrue result ↔ IsLighter first second }
{
    match (first, second) {
        (Some(first), Some(second)) => first < second,
        (Some(_), None) => true,
        (None, _) => false,
    }
}

/// The mark of the newest receipt of a thread, of which some are left.
fn newest_mark(marks: &[Marks], left: &[usize], thread: usize) -> Option<u64>
    requires left { AreLeft marks.now left.now }
    requires thread { thread < length marks.now }
    requires some { 0 < slice_index left.now thread }
    ensures { result ≡ newest marks.now left.now thread }
{
    marks[thread].as_slice()[left[thread] - 1]
}

/// The later of the latest thread so far and the next one.
fn later(marks: &[Marks], left: &[usize], latest: Option<usize>, thread: usize) -> Option<usize>
    requires left { AreLeft marks.now left.now }
    requires thread { thread < length marks.now }
    requires so_far { HasLatest marks.now left.now thread latest }
    ensures { HasLatest marks.now left.now (thread + 1) result }
{
    if left[thread] == 0 {
        return latest;
    }
    let Some(other) = latest else {
        return Some(thread);
    };
    let mine = newest_mark(marks, left, thread);
    let best = newest_mark(marks, left, other);
    if is_lighter(mine, best) {
        latest
    } else {
        Some(thread)
    }
}

/// The thread whose newest receipt stands last in the woven list, if there are receipts left.
fn latest_thread(marks: &[Marks], left: &[usize]) -> Option<usize>
    requires left { AreLeft marks.now left.now }
    ensures { HasLatest marks.now left.now (length marks.now) result }
{
    let mut latest = None;
    for thread in 0..marks.len() {
        latest = later(marks, left, latest, thread);
    }
    latest
}

/// How many receipts each thread has.
fn count_all(alloc: Global, marks: &[Marks]) -> Result<Vec<usize>, NoMemory>
    ensures { IfOk result (λ counts. counts.items ≡ lengths marks.now) }
{
    let mut counts = Vec::new(alloc);
    for thread in 0..marks.len() {
        counts.push(marks[thread].len())?;
    }
    Ok(counts)
}

/// The turns in which the threads' receipts, of which these are the marks, stand in the woven list: each is of the
/// oldest receipt of a thread that has not had its turn. It takes time by the number of receipts and that of threads.
pub fn weave(alloc: Global, marks: &[Marks]) -> Result<Sequence<usize>, NoMemory>
    ensures { IfOk result (λ turns. AreTurns marks.now (lengths marks.now) (reverse turns)) }
{
    let mut left = count_all(alloc, marks)?;
    let mut turns = Vec::new(alloc);
    while let Some(thread) = latest_thread(marks, &left) {
        left[thread] -= 1;
        turns.push(thread)?;
    }
    turns.reverse();
    Ok(Sequence::from_vec(turns))
}
