//! Rounds that follow a log: what another round did is made again.
use crate::following::guide_to_run;
use crate::inputs::inputs_of;
use crate::outcomes::{Outcome, outcome_of};
use crate::races::{outcome, race_fresh};
use crate::racing::{Feed, MOST_MOVES};
use crate::steps::Did;
use crate::turns::take_one_each;
use crate::weaving::woven;
use box_program::Program;
use master_core::Woven;
use monitor_box::MonitorBox;
use nat_box::{NatBox, NatSettings};
use plain_text::NoMemory;
use replay_guide::Guide;
use sample_frames::{NEXT_QUERY, OTHER_QUERY, QUERY};
use std::alloc::Global;
use std::marker::Sync;
use std::sync::Wait;
use std::test::Fail;
use std::thread::Threads;

/// A guide that follows what the threads did.
fn guide_to(alloc: Global, did: &Did) -> Result<Guide, NoMemory> {
    let steps = woven(alloc, did)?;
    guide_to_run(alloc, steps.as_slice())
}

/// Whether each thread did first what it did in another round.
fn begins_with(receipts: &[Woven], other: &[Woven]) -> bool {
    for (steps, wanted) in receipts.iter().zip(other) {
        if !steps.as_slice().starts_with(wanted.as_slice()) {
            return false;
        }
    }
    receipts.len() == other.len()
}

/// What the thread is told in its 11th move.
fn told_at(receipts: &[Woven], thread: usize) -> Option<u64> {
    receipts.get(thread)?.as_slice().get(10)?.moved.answer
}

/// What comes of a race that follows another round, and what each thread is told in its 11th move, the second one of
/// its second packet.
#[derive(Clone, Copy)]
struct Followed {
    outcome: Outcome,
    told: Option<u64>,
}

/// Whether two threads that race and follow what these did begin with it, and come to this.
fn race_after<P: Program + Sync, R: Threads + Wait + Sync>(
    rt: &R,
    alloc: Global,
    program: &P,
    first: &Did,
    feed: Feed<'_>,
    wanted: &Followed,
) -> Result<bool, NoMemory> {
    let guide = guide_to(alloc, first)?;
    let again = race_fresh(rt, alloc, program, &guide, feed)?;
    let receipts = again.did.receipts.as_slice();
    let told = told_at(receipts, 0) == wanted.told && told_at(receipts, 1) == wanted.told;
    let outcome = outcome_of(alloc, program, feed.inputs, &again)?;
    Ok(told && begins_with(receipts, &first.receipts) && outcome == wanted.outcome)
}

/// The time of the second round.
const LATER: u64 = 1_000_000;

/// Whether a race in which each thread takes this number of packets of one of these frames comes to this, where it
/// follows a round in which each took one, thread 0 first.
fn race_again<P: Program + Sync, R: Threads + Wait + Sync>(
    rt: &R,
    alloc: Global,
    program: &P,
    frames: [&[u8]; 2],
    count: u64,
    wanted: &Followed,
) -> Result<bool, NoMemory> {
    let inputs = inputs_of(alloc, frames, count)?;
    let first = take_one_each(rt, alloc, program, &inputs)?;
    let feed = Feed {
        inputs: &inputs,
        count,
        moves: MOST_MOVES,
        time: LATER,
        at_once: true,
    };
    race_after(rt, alloc, program, &first, feed, wanted)
}

/// Each thread touches the totals in its third move. Where thread 1 comes to them first, it waits for thread 0.
#[test]
fn a_thread_waits_for_the_other(rt: HostRuntime) -> Result<(), Fail> {
    let wanted = Followed {
        outcome: outcome(1, 2, 10),
        told: None,
    };
    let frames: [&[u8]; 2] = [&QUERY, &OTHER_QUERY];
    assert!(rt; race_again(&rt, rt.alloc(), &MonitorBox::new(2), frames, 1, &wanted)?);
    Ok(())
}

/// The first packets are told the recorded time and word, which are those of the first round, and bind the same ports
/// in the same order. The second ones are not followed, and are told the later time.
#[test]
fn followed_answers_and_then_free_ones(rt: HostRuntime) -> Result<(), Fail> {
    let wanted = Followed {
        outcome: outcome(2, 14, 40),
        told: Some(LATER + 600_000_000),
    };
    let frames: [&[u8]; 2] = [&QUERY, &NEXT_QUERY];
    for tables in [1, 4] {
        let program = NatBox::new(NatSettings::basic(
            tables,
            0x0a00_0000,
            8,
            0xcb00_7101,
            39_276,
            40_299,
        ));
        let right = race_again(&rt, rt.alloc(), &program, frames, 2, &wanted)?;
        assert!(rt; right, "{tables}");
    }
    Ok(())
}
