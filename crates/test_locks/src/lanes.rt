//! A lane between two threads of the machine.
ghost use Rattle.std.specs.Prelude.{◌≡◌};

use log_queues::{Lane, LaneReceiver, LaneSender};
use plain_text::NoMemory;
use std::alloc::Global;
use std::marker::Sync;
use std::sync::Wait;
use std::test::Fail;
use std::thread;
use std::thread::{Threads, yield_now};

/// How many numbers go through the lane, which has room for 1,024 of them, and how many stay in it at the end.
const TAKEN: u64 = 100_000;

const LEFT: u64 = 500;

/// Puts a number, again and again until there is room.
fn put<R: Wait>(rt: &R, lane: &Lane<u64>, sender: &mut LaneSender<u64>, number: u64)
    requires of { sender.old.lane ≡ lane.now }
    ensures lane { sender.new.lane ≡ sender.old.lane }
{
    for _ in rt.forever() {
        if lane.put(rt, sender, number).is_ok() {
            return;
        }
        yield_now();
    }
}

/// Puts the numbers from 0 on, those that stay included.
fn put_all<R: Wait>(rt: &R, lane: &Lane<u64>, mut sender: LaneSender<u64>) -> LaneSender<u64>
    requires of { sender.lane ≡ lane.now }
    ensures lane { result.lane ≡ lane.now }
{
    for number in 0..TAKEN + LEFT {
        put(rt, lane, &mut sender, number);
    }
    sender
}

/// Takes as many numbers as are to be taken; whether they came from 0 on, in order.
fn take_all<R: Wait>(
    rt: &R,
    lane: &Lane<u64>,
    mut receiver: LaneReceiver<u64>,
) -> (LaneReceiver<u64>, bool)
    requires of { receiver.lane ≡ lane.now }
    ensures lane { result.0.lane ≡ lane.now }
{
    let mut taken = 0;
    for _ in rt.forever() {
        if taken >= TAKEN {
            break;
        }
        match lane.take(rt, &mut receiver) {
            Some(number) => {
                if number != taken {
                    return (receiver, false);
                }
                taken += 1;
            }
            None => yield_now(),
        }
    }
    (receiver, true)
}

/// Both at once; whether all came in order, and what was left is what was put last.
fn passed<R: Threads + Wait + Sync>(rt: &R, alloc: Global) -> Result<bool, NoMemory> {
    let (whole, sender, receiver) = Lane::<u64>::new(alloc)?;
    let lane = &whole;
    let (sender, (receiver, in_order)) = thread::join(
        rt,
        move || -> LaneSender<u64>
            requires { sender.lane ≡ lane.now }
            ensures { result.lane ≡ lane.entry.now }
        { put_all(rt, lane, sender) },
        move || -> (LaneReceiver<u64>, bool)
            requires { receiver.lane ≡ lane.now }
            ensures { result.0.lane ≡ lane.entry.now }
        { take_all(rt, lane, receiver) },
    );
    let left = whole.finish(rt, alloc, sender, receiver)?;
    let numbers = left.as_slice();
    Ok(in_order && numbers.len() as u64 == LEFT && numbers[0] == TAKEN)
}

/// Through a room of 1,024 go 100,000 numbers, in order, and the 500 that nobody took are left.
#[test]
fn numbers_come_in_order(rt: HostRuntime) -> Result<(), Fail> {
    assert!(rt; passed(&rt, rt.alloc())?);
    Ok(())
}
