ghost use Rattle.std.specs.Prelude.{◌≡◌, ℕ, IfOk, OnOk, Err, length};
ghost use Rattle.plain_text.specs.declared.limit.Limit.{Limit as LimitKind};
ghost use Rattle.box_program.specs.Hands.{FitsProgram};
ghost use Rattle.plain_machine.specs.History.{Step};
ghost use Rattle.master_core.specs.Mastered.{value_of};
ghost use Rattle.master_core.specs.MasterStanding.{Stands};
ghost use Rattle.recovery_world.specs.World.{Setting, World};
ghost use Rattle.thread_steps.specs.FromSystemParts.{AreParts};
ghost use Rattle.thread_steps.specs.FromSystemParts.{StandsFor};
ghost use Rattle.thread_steps.specs.FromSystemParts.{RestsFor};
ghost use Rattle.thread_steps.specs.Stepping.{CanNote, NotesFor, PassesFor};

use box_program::Program;
use event_replies::Stop;
use input_logger::InputLog;
use kept_moves::KeptMove;
use master_core::Master;
use plain_text::NoMemory;
use recovery_world::Outcome;
use std::marker::Model;
use std::mem;
use thread_steps::{Core, Guide, note_kept};

/// The parts of a system whose master was taken out: a fresh one stands in its place.
#[derive(Drop)]
pub struct Rest<P: Program> {
    core: Core<P>,
}

impl<P: Program> Model for Rest<P> {
    ghost use Rattle.thread_steps.specs.FromSystemParts.{Parts};

    ghost Value = { Parts P P.Value };

    ghost view = { λ r. r.core };
}

/// A system taken apart: its master, and the rest.
#[derive(Drop)]
pub struct Parted<P: Program> {
    pub master: Master<P>,
    pub rest: Rest<P>,
}

/// Takes the master out of the parts of a system. Where no memory is left for the fresh one that takes its place, the
/// parts are gone.
pub fn part<P: Program>(mut core: Core<P>) -> Result<Parted<P>, NoMemory>
    ensures rest { IfOk result (λ parted. (s : Setting P.Value) (w : World P.Value)
        → StandsFor (P.meaning core.program) s w core
        → RestsFor (P.meaning core.program) s w parted.rest
        × Stands s.meaning s.threads w.past parted.master) }
    ensures same { IfOk result (λ parted.
        parted.rest ≡ record core { master = parted.rest.master }) }
    ensures program { IfOk result (λ parted. parted.rest.program ≡ core.program) }
    ensures fits { IfOk result (λ parted. FitsProgram (P.meaning core.program)
        (P.fits core.program) value_of parted.master.vars) }
    ensures threads { IfOk result (λ parted.
        length parted.master.threads ≡ parted.rest.inputs.threads) }
    ensures released { IfOk result (λ parted. parted.rest.released ≡ core.released) }
{
    let fresh = Master::fresh(core.alloc, &core.program, core.inputs.threads())?;
    let master = mem::replace(&mut core.master, fresh);
    Ok(Parted {
        master,
        rest: Rest { core },
    })
}

impl<P: Program> Rest<P> {
    /// The program.
    pub fn program(&self) -> &P
        ensures { result.now ≡ self.now.program }
    {
        &self.core.program
    }

    /// The packets that came in.
    pub fn inputs(&self) -> &InputLog
        ensures { result.now ≡ self.now.inputs }
    {
        &self.core.inputs
    }

    /// What the master follows.
    pub fn guide(&self) -> &Guide
        ensures { result.now ≡ self.now.guide }
    {
        &self.core.guide
    }

    /// What is true of the parts of every system. It does nothing: a caller has it by the call.
    pub fn has_parts(&self)
        ensures { AreParts (P.meaning self.now.program) (P.fits self.now.program) self.now }
    {
        let _program = &self.core.program;
    }

    /// How many threads the master has.
    pub fn threads(&self) -> u32
        ensures { result ≡ self.now.inputs.threads }
    {
        self.core.inputs.threads()
    }

    /// The epoch, from 1: each recovery raises it by 1.
    pub fn epoch(&self) -> u32
        ensures { (s : Setting P.Value) (w : World P.Value)
            → RestsFor (P.meaning self.now.program) s w self.now → result ≡ w.epoch }
    {
        self.core.logger.epoch()
    }

    /// How many moves all masters made, also those that were noted while the master is out.
    pub fn moves(&self) -> u64
        ensures { result ≡ self.now.moves }
    {
        self.core.moves
    }

    /// Takes note of a move that a thread of the master made while it was out, with what the thread was told, and sends
    /// what it logged or sent out, as the frame in which it was kept if this is one of these links. After `NoMemory`
    /// the rest is of no use any more.
    pub fn note(
        &mut self,
        thread: u32,
        answer: Option<u64>,
        kept: KeptMove,
    ) -> Result<Outcome, Stop>
        requires can { CanNote self.old kept }
        ensures on { IfOk result (λ to. (s : Setting P.Value) (w : World P.Value)
            (step : Step P.Value)
            → NotesFor (P.meaning self.old.program) s w thread answer kept step to
            self.old self.new) }
        ensures limit { (limit : LimitKind) → result ≡ Err (Stop.Limit limit)
            → (s : Setting P.Value) (w : World P.Value) (step : Step P.Value)
            → PassesFor (P.meaning self.old.program) s w thread answer kept step limit
            self.old }
        ensures program { OnOk result (self.new.program ≡ self.old.program) }
        ensures epoch { OnOk result (self.new.sent.epoch ≡ self.old.sent.epoch) }
        ensures threads { OnOk result (self.new.sent.threads ≡ self.old.sent.threads) }
    {
        let (epoch, threads) = (self.core.sent.epoch(), self.core.sent.threads());
        let form = kept.into_form(self.core.alloc, epoch, threads)?;
        note_kept(&mut self.core, thread, answer, form)
    }

    /// Puts a master in: the parts stand for each world for which the rest and the master do.
    pub fn join(self, master: Master<P>) -> Core<P>
        requires fits { FitsProgram (P.meaning self.program) (P.fits self.program)
            value_of master.vars }
        requires threads { length master.threads ≡ self.inputs.threads }
        ensures stands { (s : Setting P.Value) (w : World P.Value)
            → RestsFor (P.meaning self.program) s w self
            → Stands s.meaning s.threads w.past master
            → StandsFor (P.meaning self.program) s w result }
        ensures program { result.program ≡ self.program }
    {
        let mut core = self.core;
        core.master = master;
        core
    }

    /// Lets go of the rest of a system. A function that may end early gives it to this call: so how all parts are let
    /// go is proved once.
    pub fn discard(self) {
        drop(self.core);
    }
}
