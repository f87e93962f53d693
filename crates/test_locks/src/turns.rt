//! Two threads over the monitor box, one after the other on one thread of the machine: exactly what each did.
use crate::inputs::inputs_of;
use crate::races::race_fresh;
use crate::racing::{Feed, MOST_MOVES};
use crate::steps::Did;
use access_log::{StampedEntry, What};
use box_program::Program;
use input_logger::InputLog;
use master_core::{Trace, Woven};
use monitor_box::MonitorBox;
use plain_text::NoMemory;
use replay_guide::Guide;
use sample_frames::{OTHER_QUERY, QUERY};
use std::alloc::Global;
use std::marker::Sync;
use std::sync::Wait;
use std::test::Fail;
use std::thread::Threads;
use thread_clock::Stamp;

/// What two threads of a fresh master did, each with its first input, thread 0 first.
pub fn take_one_each<P: Program + Sync, R: Threads + Wait + Sync>(
    rt: &R,
    alloc: Global,
    program: &P,
    inputs: &InputLog,
) -> Result<Did, NoMemory> {
    let feed = Feed {
        inputs,
        count: 1,
        moves: MOST_MOVES,
        time: 0,
        at_once: false,
    };
    let raced = race_fresh(rt, alloc, program, &Guide::none(alloc), feed)?;
    Ok(raced.did)
}

/// The stamp of which these are the components of threads 0 and 1.
fn stamp(first: u32, second: u32) -> Stamp {
    let mut components = [0; 16];
    components[0] = first;
    components[1] = second;
    Stamp::new(components)
}

/// The touch of a variable at this place.
fn touch(thread: u32, number: u64, var: u32, place: u64, stamp: Stamp) -> Trace {
    Trace::Did(StampedEntry {
        thread,
        number,
        what: What::Access { var, place },
        stamp,
    })
}

/// What each thread does: it counts the packet in the table of its flow, and in the totals, which thread 1 finds as
/// thread 0 left them.
pub fn wanted() -> [[Trace; 5]; 2] {
    [
        [
            Trace::Took(1),
            touch(0, 1, 1, 1, stamp(1, 0)),
            touch(0, 2, 0, 1, stamp(2, 0)),
            Trace::Emitted(1),
            Trace::Ended(1),
        ],
        [
            Trace::Took(1),
            touch(1, 1, 2, 1, stamp(0, 1)),
            touch(1, 2, 0, 2, stamp(2, 2)),
            Trace::Emitted(1),
            Trace::Ended(1),
        ],
    ]
}

/// Whether this is what the thread did.
pub fn did(receipts: &[Woven], thread: usize, wanted: &[Trace]) -> bool {
    let Some(steps) = receipts.get(thread) else {
        return false;
    };
    for (step, trace) in steps.as_slice().iter().zip(wanted) {
        if step.trace != *trace {
            return false;
        }
    }
    steps.len() == wanted.len()
}

/// Whether each thread does what is wanted of it.
fn take_turns_as_wanted<R: Threads + Wait + Sync>(rt: &R, alloc: Global) -> Result<bool, NoMemory> {
    let inputs = inputs_of(alloc, [&QUERY, &OTHER_QUERY], 1)?;
    let made = take_one_each(rt, alloc, &MonitorBox::new(2), &inputs)?;
    let [first, second] = wanted();
    Ok(did(&made.receipts, 0, &first) && did(&made.receipts, 1, &second))
}

/// Each thread touches a table of its own at place 1, and then the totals.
#[test]
fn two_threads_one_after_the_other(rt: HostRuntime) -> Result<(), Fail> {
    assert!(rt; take_turns_as_wanted(&rt, rt.alloc())?);
    Ok(())
}
