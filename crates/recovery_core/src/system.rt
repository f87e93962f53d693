ghost use Rattle.std.specs.Prelude.{◌≡◌, ◌<◌, ◌≤◌, ◌↔◌, ◌+◌, ◌++◌, ◌∷◌, ℕ, All, List, [], IfOk};
ghost use Rattle.std.specs.Prelude.{OnOk, OnErr, Err, IsTrue, true, false, drop, length};
ghost use Rattle.longer_captures.specs.Longer.{with_more};
ghost use Rattle.plain_text.specs.Packets.{IsShort};
ghost use Rattle.plain_text.specs.declared.limit.Limit.{Limit as LimitKind};
ghost use Rattle.plain_text.specs.declared.packet.Packet as packet_of;
ghost use Rattle.entry_order.specs.Log.{entries};
ghost use Rattle.plain_machine.specs.History.{log_of, sent_of, outputs, thread_after};
ghost use Rattle.recovery_world.specs.World.{Setting, World, opening};
ghost use Rattle.recovery_world.specs.Files.{packets_of, sent_names};
ghost use Rattle.system_rest.specs.FromRunEnd.{EndsIn};
ghost use Rattle.system_parts.specs.SystemStanding.{StandsFor, StandsForSome};
ghost use Rattle.system_parts.specs.Performing.{Appends, MovesOn, StopsAt, Releasing, packets_in};
ghost use Rattle.recovery_core.specs.Systems.{HasReleased, SystemStands, SystemMoves, SystemStops};
ghost use Rattle.recovery_core.specs.Systems.{RepliesAny, FinishesAs};
ghost use Rattle.system_parts.specs.Performing.{IsStopped};

use access_log::Outputs;
use box_program::Program;
use event_replies::{Finished, Releases, Reply, Stop, only};
use master_core::Counts;
use plain_machine::Schedule;
use plain_text::{MOST_PACKETS, NoMemory, Packet, Packets, Unit};
use recovery_world::Event;
use several_events::{begin, perform_several, perform_single};
use std::alloc::Global;
use std::marker::Model;
use std::mem;
use system_images::{Memory, append, discard, end_awake, open_parts, wake};
use system_parts::Core;

/// A recovering system on the packets of a capture: an input logger, a master that runs a box, its snapshots, the links
/// behind it, and an output logger.
///
/// It performs events one by one. An event that does not end, since memory ran out or a limit would be passed, stops it
/// for good; what it released until then can still be taken.
#[derive(Drop)]
pub struct System<P: Program> {
    pub(crate) core: Core<P>,
    pub(crate) stopped: bool,
    /// How many of the released outputs were handed over.
    pub(crate) handed: usize,
    /// The others.
    pub(crate) fresh: Outputs,
}

impl<P: Program> Model for System<P> {
    ghost use Rattle.std.specs.Prelude.{◌≡◌, false};
    ghost use Rattle.recovery_core.specs.Systems.{Systemed};
    ghost use Rattle.recovery_core.specs.Views.{system_in};
    ghost use Rattle.system_parts.specs.SystemStanding.{StandsForSome};

    ghost Value = { Systemed P P.Value };

    ghost view = { λ y. system_in y };

    ghost invariant = { λ y. y.stopped ≡ false → StandsForSome (P.meaning y.core.program) y.core };
}

/// Performs an event. What it releases is put behind the outputs of the list.
fn perform<P: Program>(core: &mut Core<P>, event: Event, out: &mut Outputs) -> Result<Reply, Stop>
    requires stands { StandsForSome (P.meaning core.old.program) core.old }
    ensures on { IfOk result (λ reply.
        MovesOn (P.meaning core.old.program)
        (Releasing out.old out.new (RepliesAny event reply)) core.old core.new) }
    ensures limit { (limit : LimitKind) → result ≡ Err (Stop.Limit limit)
        → StopsAt (P.meaning core.old.program)
        (Releasing out.old out.new (IsStopped event limit)) core.old core.new }
    ensures appends { Appends out.old out.new }
{
    let alloc = core.alloc;
    match begin(core, event) {
        Some(from) => Ok(only(alloc, perform_several(core, from, out)?)),
        None => perform_single(core, event, out),
    }
}

/// The schedule of the run in which the world ends. Where the master is down, it is that of the one that would start
/// now.
fn end<P: Program>(mut core: Core<P>, memory: Memory) -> Result<Schedule, NoMemory>
    requires stands { StandsForSome (P.meaning core.program) core }
    ensures { IfOk result (λ moves. (s : Setting P.Value) (w : World P.Value)
        → StandsFor (P.meaning core.program) s w core → EndsIn s w moves) }
{
    match wake(&mut core) {
        Ok(()) => end_awake(core, memory),
        Err(no_memory) => {
            discard(core);
            Err(no_memory)
        }
    }
}

impl<P: Program> System<P> {
    /// A system of 1 to 16 threads on these packets, before the first event; `tags` says whether one tag is looked
    /// through. Random words come from the generator of the seed.
    pub fn new(
        alloc: Global,
        program: P,
        threads: u32,
        tags: bool,
        seed: u64,
        unit: Unit,
        packets: Packets,
    ) -> Result<Self, NoMemory>
        requires some_threads { 1 ≤ threads }
        requires few_threads { threads ≤ 16 }
        requires short { All IsShort packets }
        ensures stands { IfOk result (λ y. SystemStands (P.meaning program) (record {
          meaning = P.meaning program;
          threads = threads;
          tags = tags;
          fractions = unit;
          packets = packets;
          seed = seed;
        }) (opening P.Value) y) }
        ensures program { IfOk result (λ y. y.parts.program ≡ program) }
        ensures runs { IfOk result (λ y. y.stopped ≡ false) }
        ensures none { IfOk result (λ y. y.handed ≡ 0) }
    {
        let core = open_parts(alloc, program, threads, tags, seed, unit, packets)?;
        Ok(System {
            core,
            stopped: false,
            handed: 0,
            fresh: Outputs::new(alloc),
        })
    }

    /// Performs one event.
    ///
    /// After an error the system is stopped. Of a limit, what the event released before the move that would pass it is
    /// there to be taken; where memory ran out, nothing that the event released.
    pub fn on(&mut self, event: &Event) -> Result<Reply, Stop>
        requires runs { self.old.stopped ≡ false }

        // For every world that the system stood for, it stands for that of the event, and the reply is that of the
        // event.
        ensures on { IfOk result (λ reply.
            SystemMoves (P.meaning self.old.parts.program) (RepliesAny event.now reply)
            self.old self.new) }
        ensures goes_on { OnOk result (self.new.stopped ≡ false) }

        // A limit stops it exactly where the event of the definitions stops.
        ensures limit { (limit : LimitKind) → result ≡ Err (Stop.Limit limit)
            → SystemStops (P.meaning self.old.parts.program) (IsStopped event.now limit)
            self.old self.new }
        ensures stops { OnErr result (self.new.stopped ≡ true) }
        ensures no_memory { result ≡ Err Stop.NoMemory
            → (self.new.fresh ≡ self.old.fresh) × (self.new.handed ≡ self.old.handed) }
        ensures appends { Appends self.old.fresh self.new.fresh }
    {
        let before = self.fresh.len();
        let done = perform(&mut self.core, *event, &mut self.fresh);
        if let Err(stop) = &done {
            self.stopped = true;
            if matches!(stop, Stop::NoMemory) {
                self.fresh.truncate(before);
            }
        }
        done
    }

    /// Puts a packet behind those of the capture, and all else stays. After `NoMemory` this packet is not there, and
    /// the system can go on.
    pub fn append(&mut self, packet: Packet) -> Result<(), NoMemory>
        requires runs { self.old.stopped ≡ false }
        requires short { IsShort packet }
        requires room { length self.old.parts.inputs.packets + length self.old.parts.left
            < MOST_PACKETS }
        ensures ok { OnOk result (self.new ≡ record self.old {
          parts = record self.old.parts {
            left = self.old.parts.left ++ packet ∷ [];
          };
        }) }
        ensures stands { OnOk result ((s : Setting P.Value) (w : World P.Value)
            → SystemStands (P.meaning self.old.parts.program) s w self.old
            → SystemStands (P.meaning self.old.parts.program) (with_more s (packet ∷ [])) w
            self.new) }
        ensures err { OnErr result (self.new ≡ self.old) }
    {
        append(&mut self.core, packet)
    }

    /// The allocator by which its lists grow.
    pub fn alloc(&self) -> Global {
        self.core.alloc
    }

    /// Whether another packet can be put behind those of the capture: a capture has at most `MOST_PACKETS`.
    pub fn has_room(&self) -> bool
        ensures { IsTrue result ↔ (length self.now.parts.inputs.packets
            + length self.now.parts.left < MOST_PACKETS) }
    {
        self.core.inputs.fed() + (self.core.left.len() as u64) < u64::from(MOST_PACKETS)
    }

    /// Whether an event did not end, so that no other can be performed.
    pub fn stopped(&self) -> bool
        ensures { result ≡ self.now.stopped }
    {
        self.stopped
    }

    /// Hands over the outputs that were released since the last such call, in order of release.
    pub fn take_released(&mut self) -> Outputs
        ensures outputs { result ≡ self.old.fresh }
        ensures rest { self.new.fresh ≡ [] }
        ensures packets { (w : World P.Value) → HasReleased w self.old
            → (packets_in result ≡ packets_of (drop self.old.handed w.released))
            × HasReleased w self.new × (self.new.handed ≡ length w.released) }
        ensures stands { (s : Setting P.Value) (w : World P.Value)
            → SystemStands (P.meaning self.old.parts.program) s w self.old
            → SystemStands (P.meaning self.old.parts.program) s w self.new }
        ensures program { self.new.parts.program ≡ self.old.parts.program }
        ensures stopped { self.new.stopped ≡ self.old.stopped }
    {
        self.handed = self.core.released.len();
        mem::replace(&mut self.fresh, Outputs::new(self.core.alloc))
    }

    /// The outputs that were released and not handed over yet, in order of release.
    pub fn fresh(&self) -> &Outputs
        ensures { result.now ≡ self.now.fresh }
    {
        &self.fresh
    }

    /// The thread and number of each output that was released, in order of release.
    pub fn released(&self) -> &Releases
        ensures { (w : World P.Value) → HasReleased w self.now
            → result.now ≡ sent_names w.released }
    {
        &self.core.released
    }

    /// Whether the master is up: it is down from a crash to the next recovery.
    pub fn up(&self) -> bool
        ensures { self.now.stopped ≡ false → (s : Setting P.Value) (w : World P.Value)
            → StandsFor (P.meaning self.now.parts.program) s w self.now.parts → result ≡ w.up }
    {
        self.core.up
    }

    /// The epoch, from 1: each recovery raises it by 1.
    pub fn epoch(&self) -> u32
        ensures { (s : Setting P.Value) (w : World P.Value)
            → StandsFor (P.meaning self.now.parts.program) s w self.now.parts
            → result ≡ w.epoch }
    {
        self.core.logger.epoch()
    }

    /// How many packets of the capture are not fed yet.
    pub fn left(&self) -> u64
        ensures { (s : Setting P.Value) (w : World P.Value)
            → StandsFor (P.meaning self.now.parts.program) s w self.now.parts
            → result ≡ length (drop w.fed s.packets) }
    {
        self.core.left.len() as u64
    }

    /// How many outputs arrived and wait for a missing log entry.
    pub fn waiting(&self) -> u64
        ensures { (s : Setting P.Value) (w : World P.Value)
            → StandsFor (P.meaning self.now.parts.program) s w self.now.parts
            → result ≡ length w.waiting }
    {
        self.core.logger.waiting() as u64
    }

    /// How many inputs a thread took, entries it logged and outputs it sent out.
    pub fn counts(&self, thread: u32) -> Counts
        requires { thread < self.now.parts.inputs.threads }
        ensures { (s : Setting P.Value) (w : World P.Value)
            → StandsFor (P.meaning self.now.parts.program) s w self.now.parts
            → (result.taken ≡ (thread_after w.past thread).taken)
            × (result.entries ≡ entries thread (log_of w.past))
            × (result.outputs ≡ outputs thread (sent_of w.past)) }
    {
        self.core.master.counts(thread)
    }

    /// Lets go of the system, also of one that is stopped. What it released and nobody took is lost.
    ///
    /// A function that may end early gives its system to this call: so how all parts are let go is proved once.
    pub fn discard(self) {
        discard(self.core);
    }

    /// The run that the script amounts to, once its last event was performed: the schedule, and the counts of the last
    /// line of the report. Where the master is down, the schedule is that after one more recovery, and the counts are
    /// those before it. `memory` says what becomes of the system's.
    pub fn finish(self, memory: Memory) -> Result<Finished, NoMemory>
        requires { self.stopped ≡ false }
        ensures { IfOk result (λ f. (s : Setting P.Value) (w : World P.Value)
            → StandsFor (P.meaning self.parts.program) s w self.parts → FinishesAs s w f) }
    {
        let fed = self.core.inputs.fed();
        let epoch = self.core.logger.epoch();
        let released = self.core.released.len() as u64;
        Ok(Finished {
            schedule: end(self.core, memory)?,
            fed,
            epoch,
            released,
        })
    }
}
