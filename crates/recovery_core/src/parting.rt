//! A system is taken apart for a round of racing threads, and put together again.
ghost use Rattle.std.specs.Prelude.{◌≡◌, ◌≤◌, IfOk, drop, length, false};
ghost use Rattle.box_program.specs.Hands.{FitsProgram};
ghost use Rattle.master_core.specs.Mastered.{value_of};
ghost use Rattle.master_core.specs.MasterStanding.{Stands};
ghost use Rattle.recovery_world.specs.World.{Setting, World};
ghost use Rattle.recovery_world.specs.Files.{packets_of};
ghost use Rattle.system_parts.specs.SystemStanding.{NotesNames, StandsFor};
ghost use Rattle.system_parts.specs.Resting.{RestsFor};
ghost use Rattle.system_parts.specs.Performing.{packets_in};
ghost use Rattle.recovery_core.specs.Partings.{PartsStandForSome};
ghost use Rattle.recovery_core.specs.Systems.{HasReleased};

use crate::System;
use access_log::Outputs;
use box_program::Program;
use master_core::Master;
use plain_text::NoMemory;
use std::marker::Model;
use system_rest::{Rest, part};

/// What a system keeps for the operator while its master is out.
#[derive(Drop)]
pub struct Kept {
    /// How many of the released outputs were handed over.
    handed: usize,
    /// The others.
    fresh: Outputs,
}

impl Model for Kept {
    ghost use Rattle.recovery_core.specs.Partings.{KeptOutputs};

    ghost Value = { KeptOutputs };

    ghost view = { λ k. record { handed = k.handed; fresh = k.fresh } };
}

/// A system taken apart: its master, the rest, and what it keeps for the operator.
#[derive(Drop)]
pub struct SystemParted<P: Program> {
    pub master: Master<P>,
    pub rest: Rest<P>,
    pub kept: Kept,
}

impl<P: Program> System<P> {
    /// Takes the master out, for a round of racing threads. After `NoMemory` the system is gone.
    pub fn part(self) -> Result<SystemParted<P>, NoMemory>
        requires runs { self.stopped ≡ false }
        ensures rest { IfOk result (λ parted. (s : Setting P.Value) (w : World P.Value)
            → StandsFor (P.meaning self.parts.program) s w self.parts
            → RestsFor (P.meaning self.parts.program) s w parted.rest
            × Stands s.meaning s.threads w.past parted.master) }
        ensures some { IfOk result (λ parted. PartsStandForSome
            (P.meaning self.parts.program) parted.rest parted.master) }
        ensures same { IfOk result (λ parted.
            parted.rest ≡ record self.parts { master = parted.rest.master }) }
        ensures program { IfOk result (λ parted. parted.rest.program ≡ self.parts.program) }
        ensures fits { IfOk result (λ parted. FitsProgram (P.meaning self.parts.program)
            (P.fits self.parts.program) value_of parted.master.vars) }
        ensures threads { IfOk result (λ parted.
            length parted.master.threads ≡ parted.rest.inputs.threads) }
        ensures handed { IfOk result (λ parted. parted.kept.handed ≡ self.handed) }
        ensures fresh { IfOk result (λ parted. parted.kept.fresh ≡ self.fresh) }
        ensures names { IfOk result (λ parted. (w : World P.Value)
            → HasReleased w self → NotesNames w parted.rest) }
    {
        let parted = part(self.core)?;
        Ok(SystemParted {
            master: parted.master,
            rest: parted.rest,
            kept: Kept {
                handed: self.handed,
                fresh: self.fresh,
            },
        })
    }

    /// Puts a master in again.
    pub fn rejoin(rest: Rest<P>, master: Master<P>, kept: Kept) -> Self
        requires fits { FitsProgram (P.meaning rest.program) (P.fits rest.program)
            value_of master.vars }
        requires threads { length master.threads ≡ rest.inputs.threads }
        requires some { PartsStandForSome (P.meaning rest.program) rest master }
        ensures stands { (s : Setting P.Value) (w : World P.Value)
            → RestsFor (P.meaning rest.program) s w rest
            → Stands s.meaning s.threads w.past master
            → StandsFor (P.meaning rest.program) s w result.parts }
        ensures released { (w : World P.Value) → kept.handed ≤ length w.released
            → packets_in kept.fresh ≡ packets_of (drop kept.handed w.released)
            → NotesNames w result.parts → HasReleased w result }
        ensures program { result.parts.program ≡ rest.program }
        ensures handed { result.handed ≡ kept.handed }
        ensures fresh { result.fresh ≡ kept.fresh }
        ensures runs { result.stopped ≡ false }
    {
        System {
            core: rest.join(master),
            stopped: false,
            handed: kept.handed,
            fresh: kept.fresh,
        }
    }
}
