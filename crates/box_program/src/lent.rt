use crate::{Local, Move, Program};
use plain_machine::{Bytes, NoMemory, Text};
use std::alloc::Global;

/// A box that is lent, so that more than one system can run it, one after another. It is the box itself.
#[derive(Drop)]
pub struct Lent<'a, P> {
    pub program: &'a P,
}

impl<'a, P: Program> Program for Lent<'a, P> {
    type Value = P::Value;

    ghost meaning = { λ lent. P.meaning lent.program.now };

    ghost fits = { λ lent. P.fits lent.program.now };

    ghost lawful = { λ lent. P.lawful lent.program.now };

    fn vars(&self) -> u32 {
        self.program.vars()
    }

    fn fresh(&self, alloc: Global, var: u32) -> Result<P::Value, NoMemory> {
        self.program.fresh(alloc, var)
    }

    fn begin(&self, frame: &[u8], original: u32) -> Local {
        self.program.begin(frame, original)
    }

    fn next(&self, local: &Local) -> Move {
        self.program.next(local)
    }

    fn touch(
        &self,
        alloc: Global,
        var: u32,
        value: &mut P::Value,
        local: &mut Local,
    ) -> Result<(), NoMemory> {
        self.program.touch(alloc, var, value, local)
    }

    fn look(&self, var: u32, value: &P::Value, local: &mut Local) {
        self.program.look(var, value, local);
    }

    fn told(&self, answer: u64, local: &mut Local) {
        self.program.told(answer, local);
    }

    fn emitted(&self, local: &mut Local) {
        self.program.emitted(local);
    }

    fn packet_out(
        &self,
        alloc: Global,
        frame: &[u8],
        original: u32,
        local: &Local,
    ) -> Result<Bytes, NoMemory> {
        self.program.packet_out(alloc, frame, original, local)
    }

    fn copy_value(&self, alloc: Global, var: u32, value: &P::Value) -> Result<P::Value, NoMemory> {
        self.program.copy_value(alloc, var, value)
    }

    fn show(&self, alloc: Global, var: u32, value: &P::Value) -> Result<Text, NoMemory> {
        self.program.show(alloc, var, value)
    }
}
