ghost use Rattle.std.specs.Prelude.{◌≡◌, ℕ, ◌<◌, ◌^◌};
ghost use Rattle.box_program.specs.Count.{count_meaning, IsCounter, count_lawful};

use crate::Program;
use crate::numbered::numbered_bytes;
use plain_machine::{Bytes, Local, Move, NoMemory, Text};
use std::alloc::Global;

/// The places of the program: the touch, then the packet goes out, then the end.
const COUNTS: u32 = 0;

const EMITS: u32 = 1;

const ENDS: u32 = 2;

/// The box `count`: it counts packets in one variable, and writes each packet's number into the packet.
///
/// A packet touches variable 0, which grows by 1 modulo 2^64, and goes out with the low 32 bits of the new number in
/// its bytes 2 to 5, big-endian; a packet of fewer than 6 bytes goes out unchanged.
#[derive(Debug, Drop)]
pub struct CountBox {}

impl CountBox {
    /// The box. It has no settings.
    pub fn new() -> Self {
        CountBox {}
    }
}

impl Program for CountBox {
    type Value = u64;

    ghost meaning = { λ _. count_meaning };

    ghost fits = { λ _ _ n. IsCounter n };

    ghost lawful = { λ _. count_lawful };

    fn vars(&self) -> u32 {
        1
    }

    fn fresh(&self, _alloc: Global, _var: u32) -> Result<u64, NoMemory> {
        Ok(0)
    }

    fn begin(&self, _frame: &[u8], _original: u32) -> Local {
        Local {
            at: COUNTS,
            regs: [0; 12],
        }
    }

    fn next(&self, local: &Local) -> Move {
        match local.at {
            COUNTS => Move::Access(0),
            EMITS => Move::Emit,
            _ => Move::End,
        }
    }

    fn touch(
        &self,
        _alloc: Global,
        _var: u32,
        value: &mut u64,
        local: &mut Local,
    ) -> Result<(), NoMemory> {
        *value = value.wrapping_add(1);
        local.regs[0] = *value;
        local.at = EMITS;
        Ok(())
    }

    fn look(&self, _var: u32, _value: &u64, _local: &mut Local) {}

    fn told(&self, _answer: u64, _local: &mut Local) {}

    fn emitted(&self, local: &mut Local) {
        local.at = ENDS;
    }

    fn packet_out(
        &self,
        alloc: Global,
        frame: &[u8],
        _original: u32,
        local: &Local,
    ) -> Result<Bytes, NoMemory> {
        numbered_bytes(alloc, frame, local.regs[0])
    }

    fn copy_value(&self, _alloc: Global, _var: u32, value: &u64) -> Result<u64, NoMemory> {
        Ok(*value)
    }

    fn show(&self, alloc: Global, _var: u32, value: &u64) -> Result<Text, NoMemory> {
        let mut digits = itoa::Buffer::new();
        Text::of(alloc, digits.format(*value))
    }
}
