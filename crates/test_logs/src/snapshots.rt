ghost use Rattle.std.specs.Prelude.{◌≡◌, length};
ghost use Rattle.box_program.specs.Count.{IsCounter};
ghost use Rattle.test_logs.specs.Pinned.{pinned_meaning};
ghost use Rattle.test_logs.specs.Scene.{HasMaster, HasStored};

use crate::pinned::{PINNED_BOX, PinnedBox};
use access_log::Turn;
use master_core::{Master, Stepped};
use plain_text::{Bytes, NoMemory, Packet};
use snapshot_store::Store;
use std::alloc::Global;
use std::test::Fail;

/// How many moves a packet takes: the take, the touch, the output and the end.
const MOVES: u64 = 4;

/// Makes a move of thread 0. Whether it was made.
fn make(alloc: Global, program: &PinnedBox, master: &mut Master<PinnedBox>, input: &Packet) -> bool
    requires { HasMaster pinned_meaning (λ _ n. IsCounter n) master.old }
    ensures { HasMaster pinned_meaning (λ _ n. IsCounter n) master.new }
{
    let counts = master.counts(0);
    if counts.taken > 100 || counts.entries > 100 || counts.outputs > 100 {
        return false;
    }
    match master.step(alloc, program, 0, Turn::Free, 7, Some(input)) {
        Stepped::Took(_) | Stepped::Did(_) | Stepped::Emitted(_) | Stepped::Ended(_) => true,
        Stepped::Idle | Stepped::NotTurn { .. } | Stepped::NoMemory => false,
    }
}

/// Makes all moves of a packet. Whether all were made.
fn pass(alloc: Global, program: &PinnedBox, master: &mut Master<PinnedBox>, input: &Packet) -> bool
    requires { HasMaster pinned_meaning (λ _ n. IsCounter n) master.old }
    ensures { HasMaster pinned_meaning (λ _ n. IsCounter n) master.new }
{
    for _ in 0..MOVES {
        if !make(alloc, program, master, input) {
            return false;
        }
    }
    true
}

/// Whether a packet is passed, and a snapshot of the master, which made this number of moves, is stored then.
fn stores(
    alloc: Global,
    program: &PinnedBox,
    store: &mut Store<PinnedBox>,
    master: &mut Master<PinnedBox>,
    input: &Packet,
    moves: u64,
) -> Result<bool, NoMemory>
    requires master { HasMaster pinned_meaning (λ _ n. IsCounter n) master.old }
    requires stored { HasStored pinned_meaning (λ _ n. IsCounter n) store.old }
    ensures master { HasMaster pinned_meaning (λ _ n. IsCounter n) master.new }
    ensures stored { HasStored pinned_meaning (λ _ n. IsCounter n) store.new }
{
    let passed = pass(alloc, program, master, input);
    store.take(alloc, program, master, moves)?;
    Ok(passed && store.store().is_some() && store.moves() == moves)
}

/// Whether two snapshots are stored, and a recovery runs out of memory.
fn only_restoring_copies(
    alloc: Global,
    program: &PinnedBox,
    store: &mut Store<PinnedBox>,
    master: &mut Master<PinnedBox>,
    input: &Packet,
) -> Result<bool, NoMemory>
    requires master { HasMaster pinned_meaning (λ _ n. IsCounter n) master.old }
    requires stored { HasStored pinned_meaning (λ _ n. IsCounter n) store.old }
{
    let first = stores(alloc, program, store, master, input, MOVES)?;
    let second = stores(alloc, program, store, master, input, 2 * MOVES)?;
    Ok(first && second && store.restore(alloc, program).is_err())
}

/// A packet of six bytes.
fn packet(alloc: Global) -> Result<Packet, NoMemory> {
    Ok(Packet {
        seconds: 1,
        fraction: 2,
        original: 60,
        bytes: Bytes::of(alloc, &[0; 6])?,
    })
}

/// The same, of a new store and a fresh master of one thread.
fn only_restoring_copies_all(alloc: Global, program: &PinnedBox) -> Result<bool, NoMemory> {
    let input = packet(alloc)?;
    let mut store = Store::new(alloc, program, 1)?;
    let mut master = Master::fresh(alloc, program, 1)?;
    only_restoring_copies(alloc, program, &mut store, &mut master, &input)
}

/// Of a variable that was not touched no value is copied for a snapshot: only the restoring copies it.
#[test]
fn only_touched_values_are_copied(rt: HostRuntime) -> Result<(), Fail> {
    assert!(rt; only_restoring_copies_all(rt.alloc(), &PINNED_BOX)?);
    Ok(())
}
