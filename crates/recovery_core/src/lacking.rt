//! What an output that was not released lacks.
ghost use Rattle.std.specs.Prelude.{◌≡◌, ◌<◌, IfOk};
ghost use Rattle.recovery_world.specs.World.{Setting, World};
ghost use Rattle.recovery_world.specs.Files.{moves_made};
ghost use Rattle.system_parts.specs.SystemStanding.{StandsFor};
ghost use Rattle.recovery_core.specs.Lacking.{OutputLacks};

use crate::System;
use box_program::Program;
use plain_machine::Schedule;
use plain_text::NoMemory;
use system_parts::Core;

/// What an output lacks for its release.
#[derive(Clone, Copy, Debug, PartialEq, Eq)]
pub enum Lacks {
    /// The first log entry that is missing for it. The output itself may be there and wait.
    Entry { thread: u32, number: u64 },
    /// No log entry is missing, but the output itself has not arrived.
    Arrival,
    /// The present master has not sent it out, or it was released.
    NotSent,
}

/// What an output of a thread lacks.
fn lacking<P: Program>(core: &Core<P>, thread: u32, number: u64) -> Result<Lacks, NoMemory>
    requires { thread < core.now.inputs.threads }
    ensures { IfOk result (λ lacks. (s : Setting P.Value) (w : World P.Value)
        → StandsFor (P.meaning core.now.program) s w core.now
        → OutputLacks w thread number lacks) }
{
    if number == 0 || number > core.master.counts(thread).outputs {
        return Ok(Lacks::NotSent);
    }
    if core.logger.released().seen(thread, number) {
        return Ok(Lacks::NotSent);
    }
    match core.sent.output(thread, number)? {
        Some(output) => match core.logger.held().missing(&output.stamp) {
            Some((thread, number)) => Ok(Lacks::Entry { thread, number }),
            None => Ok(Lacks::Arrival),
        },
        None => Ok(Lacks::NotSent),
    }
}

impl<P: Program> System<P> {
    /// The moves that the master made, oldest first. While it is down, those of the one that crashed.
    pub fn moves(&self) -> &Schedule
        ensures { (s : Setting P.Value) (w : World P.Value)
            → StandsFor (P.meaning self.now.parts.program) s w self.now.parts
            → result.now ≡ moves_made w.past }
    {
        &self.core.schedule
    }

    /// What an output of a thread lacks for its release.
    pub fn lacks(&self, thread: u32, number: u64) -> Result<Lacks, NoMemory>
        requires { thread < self.now.parts.inputs.threads }
        ensures { IfOk result (λ lacks. (s : Setting P.Value) (w : World P.Value)
            → StandsFor (P.meaning self.now.parts.program) s w self.now.parts
            → OutputLacks w thread number lacks) }
    {
        lacking(&self.core, thread, number)
    }
}
