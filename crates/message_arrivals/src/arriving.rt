ghost use Rattle.std.specs.Prelude.{◌≡◌, ◌<◌, ◌≤◌, ◌++◌, ◌↔◌, IsTrue, [], IfOk, OnOk, length};
ghost use Rattle.recovery_world.specs.declared.event.Event.TheVariants as event_is;
ghost use Rattle.plain_machine.specs.History.{sent_of, outputs};
ghost use Rattle.recovery_world.specs.World.{Setting, World};
ghost use Rattle.output_releases.specs.FromSystemParts.{StandsFor, StandsForSome};
ghost use Rattle.message_arrivals.specs.Arriving.{HadSent, arrival_of, GoesNext, ForgetsTaken};
ghost use Rattle.output_releases.specs.FromSystemParts.{Appends, MovesOn, Releasing, Replies};

use access_log::Outputs;
use box_program::Program;
use link_store::SentFrames;
use master_core::Counts;
use output_logger::{EntryTook, OutputLogger, OutputTook};
use output_releases::{Core, Reply, forget_some, note_released, only};
use plain_text::{Kind, NoMemory, Sequence};
use recovery_world::Outcome;

/// An entry of a thread arrives at the output logger.
fn take_entry<P: Program>(
    core: &mut Core<P>,
    thread: u32,
    number: u64,
    out: &mut Outputs,
) -> Result<Reply, NoMemory>
    requires stands { StandsForSome (P.meaning core.old.program) core.old }
    requires thread_in { thread < core.old.inputs.threads }
    ensures on { IfOk result (λ reply.
        MovesOn (P.meaning core.old.program)
        (Releasing out.old out.new (Replies (event_is.Log thread number) reply))
        core.old core.new) }
    ensures appends { Appends out.old out.new }
    ensures forgets { IfOk result (λ reply. ForgetsTaken thread reply core.new) }
{
    if number == 0 || number > core.master.counts(thread).entries {
        return Ok(only(core.alloc, Outcome::Nothing));
    }
    let Some(entry) = core.sent.entry(thread, number)? else {
        return Ok(only(core.alloc, Outcome::Known));
    };
    let before = out.len();
    let epoch = core.logger.epoch();
    match core.logger.entry(epoch, entry, out)? {
        EntryTook::New => {
            let known = core.logger.held().frontier(thread);
            core.sent.forget_entries(thread, known);
            let outputs = &out.as_slice()[before..];
            forget_some(
                &mut core.sent,
                core.logger.released(),
                core.inputs.threads(),
                outputs,
            );
            let released = note_released(core, outputs)?;
            Ok(Reply {
                outcome: Outcome::New,
                released,
            })
        }
        EntryTook::Known | EntryTook::OldEpoch => Ok(only(core.alloc, Outcome::Known)),
    }
}

/// Whether an output is released as it arrives, as the next one of its thread.
fn goes_next(sent: &SentFrames, logger: &OutputLogger, thread: u32, number: u64) -> bool
    requires { 1 ≤ number }
    ensures { IsTrue result → GoesNext sent.now logger.now thread number }
{
    let Some(stamp) = sent.stamp(thread, number) else {
        return false;
    };
    logger.released().floor(thread) == number - 1
        && !logger.has_arrived(thread, number)
        && logger.held().missing(&stamp).is_none()
}

/// The next output of a thread arrives and is released: it is moved off the links.
fn release_next<P: Program>(
    core: &mut Core<P>,
    thread: u32,
    number: u64,
    out: &mut Outputs,
) -> Result<Reply, NoMemory>
    requires stands { StandsForSome (P.meaning core.old.program) core.old }
    requires thread_in { thread < core.old.inputs.threads }
    requires numbered { 1 ≤ number }
    requires made { (s : Setting P.Value) (w : World P.Value)
        → StandsFor (P.meaning core.old.program) s w core.old
        → number ≤ outputs thread (sent_of w.past) }
    requires goes { GoesNext core.old.sent core.old.logger thread number }
    ensures on { IfOk result (λ reply.
        MovesOn (P.meaning core.old.program)
        (Releasing out.old out.new (Replies (event_is.Out thread number) reply))
        core.old core.new) }
    ensures appends { Appends out.old out.new }
    ensures forgets { IfOk result (λ reply. ForgetsTaken thread reply core.new) }
{
    let Some(output) = core.sent.take_output(thread, number)? else {
        return Ok(only(core.alloc, Outcome::Again));
    };
    core.logger.send(output, out)?;
    core.released.push((thread, number))?;
    let floor = core.logger.released().floor(thread);
    core.sent.forget_outputs(thread, floor);
    Ok(only(core.alloc, Outcome::Released))
}

/// An output of a thread arrives at the output logger.
fn take_output<P: Program>(
    core: &mut Core<P>,
    thread: u32,
    number: u64,
    out: &mut Outputs,
) -> Result<Reply, NoMemory>
    requires stands { StandsForSome (P.meaning core.old.program) core.old }
    requires thread_in { thread < core.old.inputs.threads }
    ensures on { IfOk result (λ reply.
        MovesOn (P.meaning core.old.program)
        (Releasing out.old out.new (Replies (event_is.Out thread number) reply))
        core.old core.new) }
    ensures appends { Appends out.old out.new }
    ensures forgets { IfOk result (λ reply. ForgetsTaken thread reply core.new) }
{
    if number == 0 || number > core.master.counts(thread).outputs {
        return Ok(only(core.alloc, Outcome::Nothing));
    }
    if goes_next(&core.sent, &core.logger, thread, number) {
        return release_next(core, thread, number, out);
    }
    let Some(output) = core.sent.output(thread, number)? else {
        return Ok(only(core.alloc, Outcome::Again));
    };
    let epoch = core.logger.epoch();
    match core.logger.output(epoch, output, out)? {
        OutputTook::Release => {
            core.released.push((thread, number))?;
            let floor = core.logger.released().floor(thread);
            core.sent.forget_outputs(thread, floor);
            Ok(only(core.alloc, Outcome::Released))
        }
        OutputTook::Wait { thread, number } => Ok(only(
            core.alloc,
            Outcome::Waits {
                thread: u64::from(thread),
                number,
            },
        )),
        OutputTook::Again | OutputTook::OldEpoch => Ok(only(core.alloc, Outcome::Again)),
    }
}

/// An entry or an output of the present epoch arrives. Of a thread that there is none of, nothing arrives.
pub fn arrive<P: Program>(
    core: &mut Core<P>,
    kind: Kind,
    thread: u64,
    number: u64,
    out: &mut Outputs,
) -> Result<Reply, NoMemory>
    requires stands { StandsForSome (P.meaning core.old.program) core.old }
    ensures on { IfOk result (λ reply.
        MovesOn (P.meaning core.old.program)
        (Releasing out.old out.new (Replies (arrival_of kind thread number) reply))
        core.old core.new) }
    ensures appends { Appends out.old out.new }
    ensures forgets { IfOk result (λ reply. ForgetsTaken thread reply core.new) }
{
    if thread >= u64::from(core.inputs.threads()) {
        return Ok(only(core.alloc, Outcome::Nothing));
    }
    match kind {
        Kind::Log => take_entry(core, thread as u32, number, out),
        Kind::Out => take_output(core, thread as u32, number, out),
    }
}

/// Whether the master of this earlier epoch had such an entry or output.
fn was_sent(ended: &[Sequence<Counts>], epoch: u64, kind: Kind, thread: u64, number: u64) -> bool
    ensures { IsTrue result ↔ HadSent ended.now epoch kind thread number }
{
    let Some(earlier) = epoch.checked_sub(1) else {
        return false;
    };
    let Some(threads) = ended.get(earlier as usize) else {
        return false;
    };
    let Some(counts) = threads.as_slice().get(thread as usize) else {
        return false;
    };
    let count = match kind {
        Kind::Log => counts.entries,
        Kind::Out => counts.outputs,
    };
    1 <= number && number <= count
}

/// An entry or an output of this epoch arrives. What a master of an earlier epoch sent changes nothing.
pub fn arrive_late<P: Program>(
    core: &mut Core<P>,
    epoch: u64,
    kind: Kind,
    thread: u64,
    number: u64,
    out: &mut Outputs,
) -> Result<Reply, NoMemory>
    requires stands { StandsForSome (P.meaning core.old.program) core.old }
    ensures on { IfOk result (λ reply. MovesOn (P.meaning core.old.program)
        (Releasing out.old out.new (Replies (event_is.Late epoch kind thread number) reply))
        core.old core.new) }
    ensures appends { Appends out.old out.new }
    ensures forgets { IfOk result (λ reply. ForgetsTaken thread reply core.new) }
{
    if epoch == u64::from(core.logger.epoch()) {
        return arrive(core, kind, thread, number, out);
    }
    if was_sent(&core.ended, epoch, kind, thread, number) {
        return Ok(only(core.alloc, Outcome::Old));
    }
    Ok(only(core.alloc, Outcome::Nothing))
}

/// Of the frame of an entry or an output, this many bytes arrive.
pub fn arrive_cut<P: Program>(
    core: &mut Core<P>,
    kind: Kind,
    thread: u64,
    number: u64,
    length: u64,
    out: &mut Outputs,
) -> Result<Reply, NoMemory>
    requires stands { StandsForSome (P.meaning core.old.program) core.old }
    ensures on { IfOk result (λ reply. MovesOn (P.meaning core.old.program)
        (Releasing out.old out.new (Replies (event_is.Cut kind thread number length) reply))
        core.old core.new) }
    ensures appends { Appends out.old out.new }
    ensures forgets { IfOk result (λ reply. ForgetsTaken thread reply core.new) }
{
    if thread >= u64::from(core.inputs.threads()) {
        return Ok(only(core.alloc, Outcome::Nothing));
    }
    let Some(whole) = core.sent.length(kind, thread as u32, number) else {
        return Ok(only(core.alloc, Outcome::Nothing));
    };
    if length < whole {
        return Ok(only(core.alloc, Outcome::Short));
    }
    arrive(core, kind, thread, number, out)
}
