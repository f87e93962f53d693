//! What was done with a system, as events, and the lines of the report that they came to.
ghost use Rattle.std.specs.Prelude.{◌≡◌, IsTrue, false};
ghost use Rattle.test_rounds.specs.Standing.{KeepsThreads};

use box_program::Program;
use event_replies::{Releases, Reply, put_line};
use frame_intake::FrameName;
use plain_text::{Kind, NoMemory};
use recovery_core::System;
use recovery_world::{Event, Outcome};
use round_join::Noted;
use std::alloc::Global;

/// What a thread was told in a round.
#[derive(Clone, Copy, Debug, PartialEq, Eq)]
pub struct Told {
    /// The number of the round, from 1.
    pub round: u32,
    pub thread: u32,
    /// Whether it is a random word, else a time.
    pub word: bool,
    pub value: u64,
}

/// Events with their lines, and what the threads were told in rounds.
#[derive(Drop)]
pub struct Record {
    pub events: Vec<Event>,
    pub report: String,
    pub rounds: u32,
    pub told: Vec<Told>,
}

impl Record {
    pub fn new(alloc: Global) -> Self {
        Record {
            events: Vec::new(alloc),
            report: String::new(alloc),
            rounds: 0,
            told: Vec::new(alloc),
        }
    }

    /// Appends what a step was told.
    fn add_told(&mut self, thread: u32, outcome: &Outcome) -> Result<(), NoMemory> {
        let (word, value) = match outcome {
            Outcome::ClockTold { value, .. } => (false, *value),
            Outcome::Drawn { value, .. } => (true, *value),
            _ => return Ok(()),
        };
        self.told.push(Told {
            round: self.rounds,
            thread,
            word,
            value,
        })?;
        Ok(())
    }

    /// Appends an event, and its line.
    fn add(&mut self, alloc: Global, event: &Event, reply: &Reply) -> Result<(), NoMemory> {
        self.events.push(*event)?;
        self.report
            .push_str(put_line(alloc, event, reply)?.as_str())?;
        Ok(())
    }

    /// Appends the step that a thread of a round made.
    fn add_step(&mut self, alloc: Global, step: Noted) -> Result<(), NoMemory> {
        self.add_told(step.thread, &step.outcome)?;
        let event = Event::Step {
            thread: u64::from(step.thread),
            answer: step.answer,
        };
        let reply = Reply {
            outcome: step.outcome,
            released: Releases::new(alloc),
        };
        self.add(alloc, &event, &reply)
    }

    /// Appends the steps of a round.
    pub fn add_steps(&mut self, alloc: Global, steps: Vec<Noted>) -> Result<(), NoMemory> {
        self.rounds = self.rounds.saturating_add(1);
        for step in steps {
            self.add_step(alloc, step)?;
        }
        Ok(())
    }
}

/// Performs an event, and appends it; whether it was performed, and came to nothing where `idle` says so.
#[tactic(auto, using(crate::proofs::Keeping::event_keeps))]
pub fn perform<P: Program>(
    alloc: Global,
    system: &mut System<P>,
    event: &Event,
    idle: bool,
    record: &mut Record,
) -> bool
    requires { system.old.stopped ≡ false }
    ensures runs { IsTrue result → system.new.stopped ≡ false }
    ensures keeps { IsTrue result → KeepsThreads P.meaning system.old system.new }
{
    let Ok(reply) = system.on(event) else {
        return false;
    };
    let added = record.add(alloc, event, &reply).is_ok();
    added && (!idle || matches!(reply.outcome, Outcome::Idle))
}

/// The event in which a frame arrives.
fn arrival(frame: &FrameName) -> Event {
    let (thread, number) = (frame.thread, frame.number);
    match frame.kind {
        Kind::Log => Event::Log { thread, number },
        Kind::Out => Event::Out { thread, number },
    }
}

/// Lets these frames arrive; whether they did.
pub fn arrive<P: Program>(
    alloc: Global,
    system: &mut System<P>,
    frames: &[FrameName],
    record: &mut Record,
) -> bool
    requires { system.old.stopped ≡ false }
    ensures runs { IsTrue result → system.new.stopped ≡ false }
    ensures keeps { IsTrue result → KeepsThreads P.meaning system.old system.new }
{
    match frames {
        [] => true,
        [frame, rest @ ..] => {
            perform(alloc, system, &arrival(frame), false, record)
                && arrive(alloc, system, rest, record)
        }
    }
}

/// Whether the next step of each of this number of threads comes to nothing.
pub fn are_idle<P: Program>(
    alloc: Global,
    system: &mut System<P>,
    threads: u32,
    record: &mut Record,
) -> bool
    requires { system.old.stopped ≡ false }
    ensures runs { IsTrue result → system.new.stopped ≡ false }
    ensures keeps { IsTrue result → KeepsThreads P.meaning system.old system.new }
{
    let Some(thread) = threads.checked_sub(1) else {
        return true;
    };
    let step = Event::Step {
        thread: u64::from(thread),
        answer: None,
    };
    perform(alloc, system, &step, true, record) && are_idle(alloc, system, thread, record)
}
