ghost use Rattle.std.specs.Prelude.{◌≡◌, ◌++◌, ◌∷◌, [], true, false, IfOk, IfErr, OnOk};
ghost use Rattle.std.specs.Prelude.{MatchOption, MatchResult};
ghost use Rattle.crossbeam_queue.specs.Passes.{view, IsPassOf};
ghost use Rattle.log_queues.specs.Lanes.{end, WasFull};

use crate::view::{End, Got, InOrder, Rest, Roles, Sent};
use crossbeam_queue::{Pass, RuledArrayQueue};
use plain_text::{NoMemory, Sequence};
use std::alloc::Global;
use std::marker::Model;
use std::sync::Wait;

/// How many items a lane has room for.
const ROOM: usize = 1024;

/// A queue from one thread to another, with room for 1,024 items. One sender puts, and one receiver takes.
#[derive(Drop)]
pub struct Lane<T> {
    queue: RuledArrayQueue<T, End<T>, InOrder, Global>,
}

/// The end of a lane that puts. It is seen as its lane and the items that it put, oldest first.
#[derive(Drop)]
pub struct LaneSender<T> {
    pass: Pass<T, End<T>>,
}

/// The end of a lane that takes. It is seen as its lane and the items that it took, oldest first.
#[derive(Drop)]
pub struct LaneReceiver<T> {
    pass: Pass<T, End<T>>,
}

impl<T> Model for Lane<T> {
    ghost use Rattle.std.specs.Prelude.{◌≡◌};
    ghost use Rattle.atomic_table.specs.Seated.{TableId};

    ghost Value = { TableId };

    ghost view = { λ l. l.queue.table.shared.table_id };

    ghost invariant = { λ l. l.queue.cap ≡ 1024 };
}

impl<T> Model for LaneSender<T> {
    ghost use Rattle.std.specs.Prelude.{◌≡◌, [], true, false};
    ghost use Rattle.log_queues.specs.Lanes.{Ended, end};

    ghost Value = { Ended T };

    ghost view = { λ s. record { lane = s.pass.table_id; items = s.pass.me.0.client.put } };

    ghost invariant = { λ s. (s.pass.me.1 ≡ []) × (s.pass.me.0.client ≡ end true false s.pass.me.0.client.put []) };
}

impl<T> Model for LaneReceiver<T> {
    ghost use Rattle.std.specs.Prelude.{◌≡◌, [], true, false};
    ghost use Rattle.log_queues.specs.Lanes.{Ended, end};

    ghost Value = { Ended T };

    ghost view = { λ s. record { lane = s.pass.table_id; items = s.pass.me.0.client.taken } };

    ghost invariant = { λ s. (s.pass.me.1 ≡ []) × (s.pass.me.0.client ≡ end false true [] s.pass.me.0.client.taken) };
}

impl<T> Lane<T> {
    /// An empty lane, with its two ends.
    pub fn new(alloc: Global) -> Result<(Self, LaneSender<T>, LaneReceiver<T>), NoMemory>
        ensures sender { IfOk result (λ l. (l.1.lane ≡ l.0) × (l.1.items ≡ [])) }
        ensures receiver { IfOk result (λ l. (l.2.lane ≡ l.0) × (l.2.items ≡ [])) }
    {
        let (queue, mut pass) = RuledArrayQueue::<T, End<T>, InOrder, Global>::ruled(alloc, ROOM)?;
        let receiver = queue.another::<Roles>(&mut pass);
        Ok((
            Lane { queue },
            LaneSender { pass },
            LaneReceiver { pass: receiver },
        ))
    }

    /// Puts an item behind the others. It comes back only where the lane was full at one moment of the call; the call
    /// never waits for room.
    pub fn put<R: Wait>(&self, rt: &R, sender: &mut LaneSender<T>, item: T) -> Result<(), T>
        requires of { sender.old.lane ≡ self.now }
        ensures lane { sender.new.lane ≡ sender.old.lane }
        ensures put { OnOk result (sender.new.items ≡ sender.old.items ++ item ∷ []) }
        ensures back { IfErr result (λ x. (x ≡ item) × (sender.new.items ≡ sender.old.items)) }
        ensures full { IfErr result (λ _. WasFull 1024 sender.old.items) }
    {
        self.queue.push_as::<Sent, R>(rt, &mut sender.pass, item)
    }

    /// Takes the oldest item. Where it gives none, nothing was taken; that the lane was empty then, no clause says.
    pub fn take<R: Wait>(&self, rt: &R, receiver: &mut LaneReceiver<T>) -> Option<T>
        requires of { receiver.old.lane ≡ self.now }
        ensures lane { receiver.new.lane ≡ receiver.old.lane }
        ensures taken { MatchOption result (receiver.new.items ≡ receiver.old.items)
            (λ x. receiver.new.items ≡ receiver.old.items ++ x ∷ []) }
    {
        self.queue.pop_as::<Got, R>(rt, &mut receiver.pass)
    }
}

impl<T: Drop> Lane<T> {
    /// What is left in the lane, oldest first, when both ends are given back: what was taken, followed by this, is what
    /// was put.
    pub fn finish<R: Wait>(
        self,
        rt: &R,
        alloc: Global,
        sender: LaneSender<T>,
        receiver: LaneReceiver<T>,
    ) -> Result<Sequence<T>, NoMemory>
        requires sender { sender.lane ≡ self }
        requires receiver { receiver.lane ≡ self }
        ensures left { IfOk result (λ left. sender.items ≡ receiver.items ++ left) }
    {
        let mut pass = sender.pass;
        self.queue.absorb::<Roles>(&mut pass, receiver.pass);
        let mut left = Sequence::new(alloc);
        for _ in rt.forever() {
            match self.queue.pop_as::<Rest, R>(rt, &mut pass) {
                Some(item) => left.push(item)?,
                None => return Ok(left),
            }
        }
        unreachable!()
    }
}
