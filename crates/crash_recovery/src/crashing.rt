ghost use Rattle.std.specs.Prelude.{◌≡◌, ◌-◌, ◌^◌, ◌<◌, ◌≤◌, false, true, IfOk, OnOk, length};
ghost use Rattle.std.specs.Prelude.{map, take};
ghost use Rattle.recovery_world.specs.declared.event.Event.TheVariants as event_is;
ghost use Rattle.system_parts.specs.SystemStanding.{StandsForSome};
ghost use Rattle.system_parts.specs.Performing.{MovesOn, ComesTo};
ghost use Rattle.crash_recovery.specs.Recovering.{RecoversTo, TurnsLinks, WakesUp};

use access_log::Kept;
use box_program::Program;
use link_store::SentFrames;
use master_core::{Counts, Master};
use plain_text::{NoMemory, Sequence};
use recovery_world::Outcome;
use std::alloc::Global;
use system_parts::{Core, Guide};

/// The master crashes. A snapshot that was under way is lost.
pub fn crash<P: Program>(core: &mut Core<P>) -> Outcome
    ensures { MovesOn (P.meaning core.old.program) (ComesTo event_is.Crash result)
        core.old core.new }
{
    if !core.up {
        return Outcome::Down;
    }
    core.up = false;
    core.store.lose();
    Outcome::Crashed
}

/// How much each of the first threads did.
fn counts_of<P: Program>(
    alloc: Global,
    master: &Master<P>,
    threads: u32,
) -> Result<Sequence<Counts>, NoMemory>
    requires { threads ≤ length master.now.threads }
    ensures { IfOk result (λ counts.
        counts ≡ map (λ part. part.counts) (take threads master.now.threads)) }
{
    let mut counts = Sequence::new(alloc);
    for thread in 0..threads {
        counts.push(master.counts(thread))?;
    }
    Ok(counts)
}

/// The links serve a new epoch, with what this master sent alone: its outputs stay where they are.
fn turn_links<P: Program>(
    sent: &mut SentFrames,
    master: &Master<P>,
    threads: u32,
) -> Result<(), NoMemory>
    requires epoch { sent.old.epoch < 2 ^ 32 - 1 }
    requires in_master { threads ≤ length master.now.threads }
    requires in_links { threads ≤ sent.old.threads }
    ensures ok { OnOk result (TurnsLinks master.now threads sent.old sent.new) }
    ensures threads { sent.new.threads ≡ sent.old.threads }
{
    for thread in 0..threads {
        let counts = master.counts(thread);
        sent.turn_back(thread, counts.entries, counts.outputs);
    }
    sent.begin_epoch()
}

/// A new master starts from the stored snapshot, and follows what is held of that all of whose predecessors are held or
/// stored. How many entries it follows, and how many were dropped. After 2^32 - 2 recoveries no memory is taken to be
/// left.
pub fn start_over<P: Program>(core: &mut Core<P>) -> Result<Kept, NoMemory>
    requires stands { StandsForSome (P.meaning core.old.program) core.old }
    requires down { core.old.up ≡ false }
    ensures on { IfOk result (λ kept.
        MovesOn (P.meaning core.old.program) (RecoversTo kept) core.old core.new) }
    ensures up { IfOk result (λ _. core.new.up ≡ true) }
{
    if core.logger.epoch() == u32::MAX {
        return Err(NoMemory);
    }
    let threads = core.inputs.threads();
    let restored = core.store.restore(core.alloc, &core.program)?;
    let counts = counts_of(core.alloc, &core.master, threads)?;
    core.ended.push(counts)?;
    let kept = core.logger.fence();
    core.guide = Guide::of(core.alloc, core.logger.held())?;
    turn_links(&mut core.sent, &restored.master, threads)?;
    core.schedule.truncate(restored.moves as usize);
    core.master = restored.master;
    core.up = true;
    Ok(kept)
}

/// The master recovers, where it is down.
pub fn wake<P: Program>(core: &mut Core<P>) -> Result<(), NoMemory>
    requires stands { StandsForSome (P.meaning core.old.program) core.old }
    ensures on { OnOk result (MovesOn (P.meaning core.old.program) WakesUp core.old core.new) }
    ensures up { OnOk result (core.new.up ≡ true) }
{
    if core.up {
        return Ok(());
    }
    start_over(core)?;
    Ok(())
}

/// A new master starts from the stored snapshot.
pub fn recover<P: Program>(core: &mut Core<P>) -> Result<Outcome, NoMemory>
    requires stands { StandsForSome (P.meaning core.old.program) core.old }
    ensures { IfOk result (λ to.
        MovesOn (P.meaning core.old.program) (ComesTo event_is.Recover to) core.old core.new) }
{
    if core.up {
        return Ok(Outcome::Up);
    }
    let kept = start_over(core)?;
    Ok(Outcome::Recovered {
        epoch: u64::from(core.logger.epoch()),
        keeps: kept.kept,
        drops: kept.dropped,
    })
}
