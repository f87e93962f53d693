ghost use Rattle.std.specs.Prelude.{◌≡◌, ℕ, ◌<◌, ◌^◌};
ghost use Rattle.bench.specs.Touching.{touch_meaning, touch_lawful};
ghost use Rattle.box_program.specs.Count.{IsCounter};

use box_program::Program;
use plain_machine::{Local, Move};
use plain_text::{Bytes, NoMemory, Text};
use std::alloc::Global;

/// The variables of the box.
const VARS: u64 = 4;

/// How often a packet touches its variable. It goes out at the place of this number, and ends at the next one.
const TOUCHES: u32 = 60;

/// A box that touches much: a packet touches one variable 60 times, each time one more, and goes out as it came.
///
/// Which variable it is says the first byte of the packet, modulo 4.
#[derive(Drop)]
pub struct TouchBox {}

impl TouchBox {
    /// The box, which has no settings.
    pub fn new() -> Self {
        TouchBox {}
    }
}

impl Program for TouchBox {
    type Value = u64;

    ghost meaning = { λ _. touch_meaning };

    ghost fits = { λ _ _ n. IsCounter n };

    ghost lawful = { λ _. touch_lawful };

    fn vars(&self) -> u32 {
        VARS as u32
    }

    fn fresh(&self, _alloc: Global, _var: u32) -> Result<u64, NoMemory> {
        Ok(0)
    }

    fn begin(&self, frame: &[u8], _original: u32) -> Local {
        let mut regs = [0; 12];
        if let Some(first) = frame.first() {
            regs[0] = u64::from(*first);
        }
        Local { at: 0, regs }
    }

    fn next(&self, local: &Local) -> Move {
        if local.at < TOUCHES {
            Move::Access((local.regs[0] % VARS) as u32)
        } else if local.at == TOUCHES {
            Move::Emit
        } else {
            Move::End
        }
    }

    fn touch(
        &self,
        _alloc: Global,
        _var: u32,
        value: &mut u64,
        local: &mut Local,
    ) -> Result<(), NoMemory> {
        *value = value.wrapping_add(1);
        local.at += 1;
        Ok(())
    }

    fn look(&self, _var: u32, _value: &u64, _local: &mut Local) {}

    fn told(&self, _answer: u64, _local: &mut Local) {}

    fn emitted(&self, local: &mut Local) {
        local.at = TOUCHES + 1;
    }

    fn packet_out(
        &self,
        alloc: Global,
        frame: &[u8],
        _original: u32,
        _local: &Local,
    ) -> Result<Bytes, NoMemory> {
        Bytes::of(alloc, frame)
    }

    fn copy_value(&self, _alloc: Global, _var: u32, value: &u64) -> Result<u64, NoMemory> {
        Ok(*value)
    }

    fn show(&self, alloc: Global, _var: u32, value: &u64) -> Result<Text, NoMemory> {
        let mut digits = itoa::Buffer::new();
        Text::of(alloc, digits.format(*value))
    }
}
