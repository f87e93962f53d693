ghost use Rattle.std.specs.Prelude.{◌≡◌, ◌⊎◌, [], IfOk, OnOk, OnErr, Err, true, false, drop};
ghost use Rattle.std.specs.Prelude.{length};
ghost use Rattle.plain_text.specs.declared.limit.Limit.{Limit as LimitKind};
ghost use Rattle.recovery_world.specs.World.{Setting};
ghost use Rattle.recovery_world.specs.Files.{packets_of};
ghost use Rattle.system_parts.specs.Performing.{Appends, packets_in};
ghost use Rattle.chain_world.specs.Chain.{Chained, behind};
ghost use Rattle.recovery_core.specs.Systems.{HasReleased, SystemStands, FinishesAs};
ghost use Rattle.chain_box.specs.Chains.{ChainStands, IsGoing, MovesBoth, HaltsBoth};
ghost use Rattle.chain_box.specs.Chains.{RepliesInChain, StopsInChain};

use crate::passing::perform;
use access_log::Outputs;
use box_program::Program;
use chain_world::ChainEvent;
use plain_text::NoMemory;
use recovery_core::{Finished, Memory, Reply, Stop, System};
use std::marker::Model;

/// Two recovering systems in a chain. The capture of the second is what the first has released.
///
/// It performs events of the one or the other. An event that does not end, since memory ran out or a limit would be
/// passed, stops the chain for good; what both released until then can still be taken.
#[derive(Drop)]
pub struct Chain<P: Program, Q: Program> {
    first: System<P>,
    second: System<Q>,
    stopped: bool,
}

impl<P: Program, Q: Program> Model for Chain<P, Q> {
    ghost use Rattle.std.specs.Prelude.{◌≡◌, false};
    ghost use Rattle.chain_box.specs.Chains.{TwoSystems, IsGoing};
    ghost use Rattle.chain_box.specs.Views.{chain_in};

    ghost Value = { TwoSystems P P.Value Q Q.Value };

    ghost view = { λ y. chain_in y };

    ghost invariant = { λ y. y.stopped ≡ false → IsGoing (P.meaning y.first.parts.program)
        (Q.meaning y.second.parts.program) y.first y.second };
}

/// What the systems of a chain released, each in order of release.
#[derive(Drop)]
pub struct Passed {
    /// What the first released. The second has it in its capture.
    pub middle: Outputs,
    /// What the second released.
    pub released: Outputs,
}

/// How the runs of both systems ended.
#[derive(Drop)]
pub struct ChainFinished {
    pub first: Finished,
    pub second: Finished,
}

impl<P: Program, Q: Program> Chain<P, Q> {
    /// A chain of two systems that can go on. Where the first has released nothing yet, as one that was just opened,
    /// the second was opened without packets.
    pub fn new(first: System<P>, second: System<Q>) -> Self
        requires going { IsGoing (P.meaning first.parts.program) (Q.meaning second.parts.program)
            first second }
        ensures first { result.first ≡ first }
        ensures second { result.second ≡ second }
        ensures runs { result.stopped ≡ false }
    {
        Chain {
            first,
            second,
            stopped: false,
        }
    }

    /// Performs one event of the first or the second system.
    ///
    /// After an error the chain is stopped. Of a limit, what the event released before the move that would pass it is
    /// there to be taken; where memory ran out, what was released before the event is.
    pub fn on(&mut self, event: &ChainEvent) -> Result<Reply, Stop>
        requires runs { self.old.stopped ≡ false }
        requires which { (event.now.which ≡ 1) ⊎ (event.now.which ≡ 2) }

        // For all worlds that the systems stood for, they stand for those of the event: what the first released is
        // behind the capture of the second. And the reply is that of the event.
        ensures on { IfOk result (λ reply. MovesBoth (P.meaning self.old.first.parts.program)
            (Q.meaning self.old.second.parts.program) (RepliesInChain event.now reply)
            self.old self.new) }
        ensures goes_on { OnOk result (self.new.stopped ≡ false) }

        // A limit stops it exactly where the event of the definitions stops.
        ensures limit { (limit : LimitKind) → result ≡ Err (Stop.Limit limit)
            → HaltsBoth (P.meaning self.old.first.parts.program)
            (Q.meaning self.old.second.parts.program) (StopsInChain event.now limit)
            self.old self.new }
        ensures stops { OnErr result (self.new.stopped ≡ true) }

        // What was not handed over yet stays.
        ensures middle { Appends self.old.first.fresh self.new.first.fresh }
        ensures released { Appends self.old.second.fresh self.new.second.fresh }
    {
        let done = perform(&mut self.first, &mut self.second, event);
        if done.is_err() {
            self.stopped = true;
        }
        done
    }

    /// Whether an event did not end, so that no other can be performed.
    pub fn stopped(&self) -> bool
        ensures { result ≡ self.now.stopped }
    {
        self.stopped
    }

    /// Hands over what each system released since the last such call, in order of release.
    pub fn take_released(&mut self) -> Passed
        ensures middle { result.middle ≡ self.old.first.fresh }
        ensures released { result.released ≡ self.old.second.fresh }
        ensures rest { (self.new.first.fresh ≡ []) × (self.new.second.fresh ≡ []) }
        ensures middle_packets { (c : Chained P.Value Q.Value) → HasReleased c.first self.old.first
            → (packets_in result.middle
            ≡ packets_of (drop self.old.first.handed c.first.released))
            × HasReleased c.first self.new.first
            × (self.new.first.handed ≡ length c.first.released) }
        ensures released_packets { (c : Chained P.Value Q.Value)
            → HasReleased c.second self.old.second
            → (packets_in result.released
            ≡ packets_of (drop self.old.second.handed c.second.released))
            × HasReleased c.second self.new.second
            × (self.new.second.handed ≡ length c.second.released) }
        ensures stands { (s : Setting P.Value) (r : Setting Q.Value) (c : Chained P.Value Q.Value)
            → ChainStands (P.meaning self.old.first.parts.program)
            (Q.meaning self.old.second.parts.program) s r c self.old.first self.old.second
            → ChainStands (P.meaning self.old.first.parts.program)
            (Q.meaning self.old.second.parts.program) s r c self.new.first self.new.second }
        ensures stopped { self.new.stopped ≡ self.old.stopped }
        ensures first_program { self.new.first.parts.program ≡ self.old.first.parts.program }
        ensures second_program { self.new.second.parts.program ≡ self.old.second.parts.program }
    {
        Passed {
            middle: self.first.take_released(),
            released: self.second.take_released(),
        }
    }

    /// Lets go of both systems. What they released and nobody took is lost.
    pub fn discard(self) {
        self.first.discard();
        self.second.discard();
    }

    /// The runs that the script amounts to for each of the systems, once its last event was performed. `memory` says what
    /// becomes of the systems'.
    pub fn finish(self, memory: Memory) -> Result<ChainFinished, NoMemory>
        requires { self.stopped ≡ false }
        ensures { IfOk result (λ f. (s : Setting P.Value) (r : Setting Q.Value)
            (c : Chained P.Value Q.Value) → ChainStands (P.meaning self.first.parts.program)
            (Q.meaning self.second.parts.program) s r c self.first self.second
            → FinishesAs s c.first f.first × FinishesAs (behind r c.first) c.second f.second) }
    {
        match self.first.finish(memory) {
            Ok(first) => Ok(ChainFinished {
                first,
                second: self.second.finish(memory)?,
            }),
            Err(no_memory) => {
                self.second.discard();
                Err(no_memory)
            }
        }
    }
}
