ghost use Rattle.std.specs.Prelude.{Ok};
ghost use Rattle.tagged_box.specs.Tagged.{tagged_meaning, tagged_lawful};

use box_program::Program;
use plain_machine::{Local, Move};
use plain_text::{Bytes, NoMemory, Text};
use std::alloc::Global;
use tagged_frames::tag_length;

/// A box that sees each packet behind its VLAN tag, where tags are looked through (IEEE 802.1Q): what it sends out has
/// the bytes that were not seen in front again. Where they are not, it is the box itself.
#[derive(Debug, Drop)]
pub struct Tagged<P> {
    pub program: P,
    /// Whether tags are looked through.
    pub tags: bool,
}

impl<P: Program> Program for Tagged<P> {
    type Value = P::Value;

    ghost meaning = { λ tagged. tagged_meaning tagged.tags (P.meaning tagged.program) };

    ghost fits = { λ tagged. P.fits tagged.program };

    ghost lawful = { λ tagged. tagged_lawful tagged.tags (P.meaning tagged.program)
        (P.fits tagged.program) (P.lawful tagged.program) };

    fn vars(&self) -> u32 {
        self.program.vars()
    }

    fn fresh(&self, alloc: Global, var: u32) -> Result<P::Value, NoMemory> {
        self.program.fresh(alloc, var)
    }

    fn begin(&self, frame: &[u8], original: u32) -> Local {
        let tag = tag_length(self.tags, frame);
        self.program
            .begin(&frame[tag..], original.saturating_sub(tag as u32))
    }

    fn next(&self, local: &Local) -> Move {
        self.program.next(local)
    }

    fn touch(
        &self,
        alloc: Global,
        var: u32,
        value: &mut P::Value,
        local: &mut Local,
    ) -> Result<(), NoMemory> {
        self.program.touch(alloc, var, value, local)
    }

    fn look(&self, var: u32, value: &P::Value, local: &mut Local) {
        self.program.look(var, value, local);
    }

    fn told(&self, answer: u64, local: &mut Local) {
        self.program.told(answer, local);
    }

    fn emitted(&self, local: &mut Local) {
        self.program.emitted(local);
    }

    fn packet_out(
        &self,
        alloc: Global,
        frame: &[u8],
        original: u32,
        local: &Local,
    ) -> Result<Bytes, NoMemory> {
        let tag = tag_length(self.tags, frame);
        let behind = original.saturating_sub(tag as u32);
        let mut bytes = self
            .program
            .packet_out(alloc, &frame[tag..], behind, local)?;
        bytes.prepend(&frame[..tag])?;
        Ok(bytes)
    }

    fn copy_value(&self, alloc: Global, var: u32, value: &P::Value) -> Result<P::Value, NoMemory> {
        self.program.copy_value(alloc, var, value)
    }

    fn show(&self, alloc: Global, var: u32, value: &P::Value) -> Result<Text, NoMemory> {
        self.program.show(alloc, var, value)
    }
}
