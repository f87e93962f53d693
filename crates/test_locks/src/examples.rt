//! What a guide says, worked by hand: the example of two threads that count, and reads between two touches.
use crate::following::guide_of;
use access_log::{StampedEntry, Turn, What};
use plain_text::NoMemory;
use replay_guide::Guide;
use std::alloc::Global;
use std::marker::{Send, Sync};
use std::test::Fail;
use thread_clock::Stamp;

/// That a value may be used by other threads, and handed to one.
fn goes_between_threads<T: Send + Sync>(_value: &T) {}

/// The stamp with these components for the first four threads.
fn stamp(first: [u32; 4]) -> Stamp {
    let mut components = [0; 16];
    for i in 0..4 {
        components[i] = first[i];
    }
    Stamp::new(components)
}

/// The first entry of a thread: the thread, what it is, and the stamp's first components.
type First = (u32, What, [u32; 4]);

fn first_entry(first: First) -> StampedEntry {
    let (thread, what, components) = first;
    StampedEntry {
        thread,
        number: 1,
        what,
        stamp: stamp(components),
    }
}

const FIRST_TOUCH: What = What::Access { var: 0, place: 1 };

const SECOND_TOUCH: What = What::Access { var: 0, place: 2 };

const READ_BETWEEN: What = What::Read { var: 0, after: 1 };

/// A guide that follows these entries of an example.
fn guide_to(alloc: Global, entries: &[First]) -> Result<Guide, NoMemory> {
    let mut stamped = Vec::with_capacity(alloc, entries.len())?;
    for entry in entries {
        stamped.push(first_entry(*entry))?;
    }
    guide_of(alloc, &stamped)
}

/// A move that a thread wants as its first entry: the thread, whether it reads, the places of variable 0, the readers'
/// stamp, and whose turn it is.
type Asked = (u32, bool, u64, [u32; 4], Turn);

/// The first of these moves of which the guide says something else.
fn first_wrong(guide: &Guide, moves: &[Asked]) -> Option<usize> {
    for i in 0..moves.len() {
        let (thread, reads, places, readers, turn) = moves[i];
        if guide.turn(thread, 1, 0, reads, places, &stamp(readers)) != turn {
            return Some(i);
        }
    }
    None
}

/// Whether this is the order of the entries that a guide follows, each by its thread and number.
fn is_order(alloc: Global, guide: &Guide, order: &[(u32, u64)]) -> Result<bool, NoMemory> {
    Ok(guide.order(alloc)?.as_slice() == order)
}

const TOUCH: bool = false;

const READ: bool = true;

const NONE: [u32; 4] = [0; 4];

/// That the turn waits for the first entry of thread 0.
const WAIT_0: Turn = Turn::Wait {
    thread: 0,
    number: 1,
};

/// That the turn waits for the first entry of thread 1.
const WAIT_1: Turn = Turn::Wait {
    thread: 1,
    number: 1,
};

/// That the turn waits for the first entry of thread 2.
const WAIT_2: Turn = Turn::Wait {
    thread: 2,
    number: 1,
};

/// That the turn waits for the first entry of thread 3.
const WAIT_3: Turn = Turn::Wait {
    thread: 3,
    number: 1,
};

/// What two threads want of variable 0, where thread 1 made touch 1 before thread 0 made touch 2.
const TWO_THREADS: [Asked; 7] = [
    (0, TOUCH, 0, NONE, WAIT_1),
    (0, READ, 0, NONE, WAIT_1),
    (1, TOUCH, 0, NONE, Turn::Follow),
    (0, TOUCH, 1, NONE, Turn::Follow),
    (1, TOUCH, 1, NONE, WAIT_0),
    (1, TOUCH, 2, NONE, Turn::Free),
    (1, READ, 2, NONE, Turn::Free),
];

/// The entries of the two threads.
const COUNTING: [First; 2] = [
    (1, FIRST_TOUCH, [0, 1, 0, 0]),
    (0, SECOND_TOUCH, [1, 1, 0, 0]),
];

/// Thread 1 makes touch 1, then thread 0 touch 2. After the crash thread 0 waits.
#[test]
fn two_threads_count(rt: HostRuntime) -> Result<(), Fail> {
    let guide = guide_to(rt.alloc(), &COUNTING)?;
    goes_between_threads(&guide);
    let right = first_wrong(&guide, &TWO_THREADS).is_none();
    assert!(rt; right && is_order(rt.alloc(), &guide, &[(1, 1), (0, 1)])?);
    Ok(())
}

/// What threads want of variable 0, where threads 2 and 3 read between two touches.
const READS_BETWEEN: [Asked; 8] = [
    (2, READ, 0, NONE, WAIT_1),
    (3, READ, 1, NONE, Turn::Follow),
    (0, TOUCH, 1, NONE, WAIT_2),
    (0, TOUCH, 1, [0, 0, 1, 0], WAIT_3),
    (0, TOUCH, 1, [0, 0, 1, 1], Turn::Follow),
    (4, TOUCH, 1, [0, 0, 0, 1], WAIT_2),
    (4, READ, 1, NONE, WAIT_0),
    (4, READ, 2, NONE, Turn::Free),
];

/// The entries of those threads.
const READING: [First; 4] = [
    (1, FIRST_TOUCH, [0, 1, 0, 0]),
    (2, READ_BETWEEN, [0, 1, 1, 0]),
    (3, READ_BETWEEN, [0, 1, 0, 1]),
    (0, SECOND_TOUCH, [1, 1, 1, 1]),
];

/// Between the two touches threads 2 and 3 read. The second touch waits for both, and a free read for it.
#[test]
fn reads_stand_between_touches(rt: HostRuntime) -> Result<(), Fail> {
    let guide = guide_to(rt.alloc(), &READING)?;
    let right = first_wrong(&guide, &READS_BETWEEN).is_none();
    assert!(rt; right && is_order(rt.alloc(), &guide, &[(1, 1), (2, 1), (3, 1), (0, 1)])?);
    Ok(())
}
