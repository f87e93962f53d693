ghost use Rattle.std.specs.Prelude.{◌≡◌, ℕ, ◌<◌, ◌^◌};
ghost use Rattle.box_program.specs.Count.{IsCounter};
ghost use Rattle.box_program.specs.Peek.{peek_meaning, peek_lawful};

use crate::Program;
use crate::numbered::numbered_bytes;
use plain_machine::{Bytes, Local, Move, NoMemory, Text};
use std::alloc::Global;

/// The places of the program: the touch or the read, then the packet goes out, then the end.
const COUNTS: u32 = 0;

const LOOKS: u32 = 1;

const EMITS: u32 = 2;

const ENDS: u32 = 3;

/// A program for tests: as the box `count`, but a packet with an odd number of bytes reads variable 0 in place of
/// touching it, and goes out with the number that it found.
#[derive(Debug, Drop)]
pub struct PeekBox {}

impl PeekBox {
    /// The program. It has no settings.
    pub fn new() -> Self {
        PeekBox {}
    }
}

impl Program for PeekBox {
    type Value = u64;

    ghost meaning = { λ _. peek_meaning };

    ghost fits = { λ _ _ n. IsCounter n };

    ghost lawful = { λ _. peek_lawful };

    fn vars(&self) -> u32 {
        1
    }

    fn fresh(&self, _alloc: Global, _var: u32) -> Result<u64, NoMemory> {
        Ok(0)
    }

    fn begin(&self, frame: &[u8], _original: u32) -> Local {
        let at = if frame.len() % 2 == 0 { COUNTS } else { LOOKS };
        Local { at, regs: [0; 12] }
    }

    fn next(&self, local: &Local) -> Move {
        match local.at {
            COUNTS => Move::Access(0),
            LOOKS => Move::Read(0),
            EMITS => Move::Emit,
            _ => Move::End,
        }
    }

    fn touch(
        &self,
        _alloc: Global,
        _var: u32,
        value: &mut u64,
        local: &mut Local,
    ) -> Result<(), NoMemory> {
        *value = value.wrapping_add(1);
        local.regs[0] = *value;
        local.at = EMITS;
        Ok(())
    }

    fn look(&self, _var: u32, value: &u64, local: &mut Local) {
        local.regs[0] = *value;
        local.at = EMITS;
    }

    fn told(&self, _answer: u64, _local: &mut Local) {}

    fn emitted(&self, local: &mut Local) {
        local.at = ENDS;
    }

    fn packet_out(
        &self,
        alloc: Global,
        frame: &[u8],
        _original: u32,
        local: &Local,
    ) -> Result<Bytes, NoMemory> {
        numbered_bytes(alloc, frame, local.regs[0])
    }

    fn copy_value(&self, _alloc: Global, _var: u32, value: &u64) -> Result<u64, NoMemory> {
        Ok(*value)
    }

    fn show(&self, alloc: Global, _var: u32, value: &u64) -> Result<Text, NoMemory> {
        let mut digits = itoa::Buffer::new();
        Text::of(alloc, digits.format(*value))
    }
}
