ghost use Rattle.std.specs.Prelude.{ℕ, ◌<◌, ◌^◌};
ghost use Rattle.box_program.specs.Count.{IsCounter};
ghost use Rattle.test_logs.specs.Pinned.{pinned_meaning, pinned_lawful};

use box_program::{CountBox, Program};
use plain_machine::{Local, Move};
use plain_text::{Bytes, NoMemory, Text};
use std::alloc::Global;

/// The variable that can't be copied.
const PINNED: u32 = 1;

/// A program for tests: the box `count`, with a second variable. No packet touches that one, and copying it always runs
/// out of memory.
#[derive(Drop)]
pub struct PinnedBox {
    count: CountBox,
}

/// The program.
pub const PINNED_BOX: PinnedBox = PinnedBox { count: CountBox {} };

impl Program for PinnedBox {
    type Value = u64;

    ghost meaning = { λ _. pinned_meaning };

    ghost fits = { λ _ _ n. IsCounter n };

    ghost lawful = { λ _. pinned_lawful };

    fn vars(&self) -> u32 {
        2
    }

    fn fresh(&self, _alloc: Global, _var: u32) -> Result<u64, NoMemory> {
        Ok(0)
    }

    fn begin(&self, frame: &[u8], original: u32) -> Local {
        self.count.begin(frame, original)
    }

    fn next(&self, local: &Local) -> Move {
        self.count.next(local)
    }

    fn touch(
        &self,
        alloc: Global,
        var: u32,
        value: &mut u64,
        local: &mut Local,
    ) -> Result<(), NoMemory> {
        self.count.touch(alloc, var, value, local)
    }

    fn look(&self, var: u32, value: &u64, local: &mut Local) {
        self.count.look(var, value, local);
    }

    fn told(&self, answer: u64, local: &mut Local) {
        self.count.told(answer, local);
    }

    fn emitted(&self, local: &mut Local) {
        self.count.emitted(local);
    }

    fn packet_out(
        &self,
        alloc: Global,
        frame: &[u8],
        original: u32,
        local: &Local,
    ) -> Result<Bytes, NoMemory> {
        self.count.packet_out(alloc, frame, original, local)
    }

    fn copy_value(&self, alloc: Global, var: u32, value: &u64) -> Result<u64, NoMemory> {
        if var == PINNED {
            return Err(NoMemory);
        }
        self.count.copy_value(alloc, var, value)
    }

    fn show(&self, alloc: Global, var: u32, value: &u64) -> Result<Text, NoMemory> {
        self.count.show(alloc, var, value)
    }
}
