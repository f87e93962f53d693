//! A system is brought, event by event, to a whole stored state.
ghost use Rattle.std.specs.Prelude.{◌≡◌, IfOk, OnOk, Err};
ghost use Rattle.recovery_world.specs.World.{Setting, World};
ghost use Rattle.system_parts.specs.Performing.{MovesOn};
ghost use Rattle.system_parts.specs.SystemStanding.{StandsFor, StandsForSome};
ghost use Rattle.system_images.specs.Building.{IsWrong, MakesAll, MakesOne, ReleasesAll};
ghost use Rattle.system_images.specs.Building.{ReleasesOne, StoresAll, Turns};
ghost use Rattle.handover_world.specs.declared.fault.ResumeError.{ResumeError as ResumeErrorKind};

use access_log::Outputs;
use box_program::Program;
use crash_recovery::{crash, recover};
use event_replies::Releases;
use handover_world::ResumeError;
use message_arrivals::arrive;
use plain_machine::{PlainMove, Schedule};
use plain_text::{Kind, NoMemory};
use recovery_world::Outcome;
use snapshot_steps::{snap, store};
use system_parts::Core;
use thread_steps::step;

/// The master crashes, and a new one starts.
fn turn<P: Program>(core: &mut Core<P>) -> Result<(), NoMemory>
    requires stands { StandsForSome (P.meaning core.old.program) core.old }
    ensures { OnOk result (MovesOn (P.meaning core.old.program) (Turns 1) core.old core.new) }
{
    crash(core);
    recover(core)?;
    Ok(())
}

/// So many masters crash, one after another, before the first move.
pub fn turn_epochs<P: Program>(core: &mut Core<P>, many: u32) -> Result<(), NoMemory>
    requires stands { StandsForSome (P.meaning core.old.program) core.old }
    ensures { OnOk result (MovesOn (P.meaning core.old.program) (Turns many) core.old core.new) }
{
    'turns: for _ in 0..many {
        turn(core)?;
    }
    Ok(())
}

/// The master makes one move. That no limit is passed was judged before.
fn make_one<P: Program>(core: &mut Core<P>, plain: PlainMove) -> Result<(), NoMemory>
    requires stands { StandsForSome (P.meaning core.old.program) core.old }
    ensures { OnOk result
        (MovesOn (P.meaning core.old.program) (MakesOne plain) core.old core.new) }
{
    match step(core, u64::from(plain.thread), plain.answer) {
        Ok(_) => Ok(()),
        Err(_) => Err(NoMemory),
    }
}

/// The master makes these moves, which are a legal list.
pub fn make_moves<P: Program>(core: &mut Core<P>, moves: &Schedule) -> Result<(), NoMemory>
    requires stands { StandsForSome (P.meaning core.old.program) core.old }
    ensures { OnOk result (MovesOn (P.meaning core.old.program) (MakesAll moves.now)
        core.old core.new) }
{
    for index in 0..moves.len() {
        make_one(core, moves.at(index))?;
    }
    Ok(())
}

/// All that the master made is stored.
pub fn store_all<P: Program>(core: &mut Core<P>) -> Result<(), NoMemory>
    requires stands { StandsForSome (P.meaning core.old.program) core.old }
    ensures { OnOk result (MovesOn (P.meaning core.old.program) StoresAll core.old core.new) }
{
    let mut out = Outputs::new(core.alloc);
    snap(core)?;
    store(core, &mut out)?;
    Ok(())
}

/// An output arrives, and goes at once: whether it was there, and not released before.
fn release_one<P: Program>(core: &mut Core<P>, thread: u32, number: u64) -> Result<bool, NoMemory>
    requires stands { StandsForSome (P.meaning core.old.program) core.old }
    ensures { IfOk result (λ good. MovesOn (P.meaning core.old.program)
        (ReleasesOne thread number good) core.old core.new) }
{
    let mut out = Outputs::new(core.alloc);
    let reply = arrive(core, Kind::Out, u64::from(thread), number, &mut out)?;
    Ok(matches!(reply.outcome, Outcome::Released))
}

/// Outputs of what is stored are released, in order.
pub fn release_all<P: Program>(core: &mut Core<P>, outputs: &Releases) -> Result<(), ResumeError>
    requires stands { StandsForSome (P.meaning core.old.program) core.old }
    ensures good { OnOk result (MovesOn (P.meaning core.old.program) (ReleasesAll outputs.now)
        core.old core.new) }
    ensures faults { (error : ResumeErrorKind) → result ≡ Err error → (s : Setting P.Value) (w : World P.Value)
        → StandsFor (P.meaning core.old.program) s w core.old → IsWrong outputs.now w error }
{
    for (index, output) in outputs.as_slice().iter().enumerate() {
        let (thread, number) = *output;
        if !release_one(core, thread, number)? {
            return Err(ResumeError::Released(index as u64 + 1));
        }
    }
    Ok(())
}
