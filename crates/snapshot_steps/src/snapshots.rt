ghost use Rattle.std.specs.Prelude.{◌≡◌, ◌<◌, ◌≤◌, ◌^◌, IfOk, length, sum};
ghost use Rattle.recovery_world.specs.declared.event.Event.TheVariants as event_is;
ghost use Rattle.link_store.specs.Sending.{ForgetsCovered};
ghost use Rattle.output_releases.specs.FromSystemParts.{StandsForSome};
ghost use Rattle.output_releases.specs.FromSystemParts.{Appends, MovesOn, Releasing, ComesTo, Replies};

use access_log::Outputs;
use box_program::Program;
use event_replies::{Reply, only};
use link_store::SentFrames;
use output_releases::{Core, forget_released, note_released};
use plain_text::NoMemory;
use recovery_world::Outcome;
use thread_clock::EntryCounts;

/// How many entries there are, by the number of each thread.
fn total(counts: &EntryCounts) -> u64
    ensures total { sum counts.now < 2 ^ 64 → result ≡ sum counts.now }
    ensures all { length counts.now ≡ 16 }
{
    let weight = counts.weight();
    if weight > u128::from(u64::MAX) {
        return u64::MAX;
    }
    weight as u64
}

/// A snapshot of the master is made.
pub fn snap<P: Program>(core: &mut Core<P>) -> Result<Outcome, NoMemory>
    requires stands { StandsForSome (P.meaning core.old.program) core.old }
    ensures { IfOk result (λ to.
        MovesOn (P.meaning core.old.program) (ComesTo event_is.Snap to) core.old core.new) }
{
    if !core.up {
        return Ok(Outcome::Down);
    }
    let moves = core.schedule.len() as u64;
    core.store
        .take(core.alloc, &core.program, &core.master, moves)?;
    Ok(Outcome::Copied(total(&core.master.entry_counts())))
}

/// Forgets the frames of the entries that a stored snapshot has, by the number of each thread.
fn forget_stored(sent: &mut SentFrames, threads: u32, counts: &EntryCounts)
    requires { threads ≤ 16 }
    ensures { ForgetsCovered sent.old sent.new counts.now }
{
    for thread in 0..threads {
        sent.forget_entries(thread, counts.get(thread));
    }
}

/// The snapshot that is under way arrives at the store.
pub fn store<P: Program>(core: &mut Core<P>, out: &mut Outputs) -> Result<Reply, NoMemory>
    requires stands { StandsForSome (P.meaning core.old.program) core.old }
    ensures on { IfOk result (λ reply.
        MovesOn (P.meaning core.old.program)
        (Releasing out.old out.new (Replies event_is.Store reply)) core.old core.new) }
    ensures appends { Appends out.old out.new }
{
    let before = out.len();
    let Some(counts) = core.store.store() else {
        return Ok(only(core.alloc, Outcome::Nothing));
    };
    core.logger.covered(&counts, out)?;
    forget_stored(&mut core.sent, core.inputs.threads(), &counts);
    forget_released(
        &mut core.sent,
        core.logger.released(),
        core.inputs.threads(),
    );
    let released = note_released(core, &out.as_slice()[before..])?;
    Ok(Reply {
        outcome: Outcome::Covers(total(&counts)),
        released,
    })
}
