//! What a round is asked, and whether what it told is what it may be.
use frame_intake::{FrameName, RoundOrders};
use plain_text::{Kind, NoMemory};
use recovery_world::Outcome;
use round_join::Noted;
use std::alloc::Global;

/// What a round is asked of each of its threads.
#[derive(Clone, Copy)]
pub struct Asked {
    /// Thread t makes at most this number of moves, and 3 t more.
    pub limit: Option<u64>,
    /// Whether each has enough to do, so that it makes as many.
    pub exact: bool,
    /// Of thread t at most this number of frames are taken, and 5 t more.
    pub take: Option<u64>,
    /// This frame is lost.
    pub lost: Option<FrameName>,
    /// The time that it is told.
    pub time: u64,
}

/// Nothing is asked at the time 100 s.
pub const NOTHING: Asked = Asked {
    limit: None,
    exact: false,
    take: None,
    lost: None,
    time: 100_000_000,
};

impl Asked {
    fn limit_of(&self, thread: u64) -> Option<u64> {
        self.limit
            .map(|moves| moves.wrapping_add(thread.wrapping_mul(3)))
    }

    fn take_of(&self, thread: u64) -> Option<u64> {
        self.take
            .map(|frames| frames.wrapping_add(thread.wrapping_mul(5)))
    }

    /// The orders of the round.
    pub fn orders(&self, alloc: Global, threads: u32) -> Result<RoundOrders, NoMemory> {
        let mut orders = RoundOrders::none(alloc);
        for thread in 0..u64::from(threads) {
            if let Some(moves) = self.limit_of(thread) {
                orders.limit(thread, moves);
            }
            if let Some(frames) = self.take_of(thread) {
                orders.take(thread, frames);
            }
        }
        if let Some(frame) = self.lost {
            orders.lose(frame)?;
        }
        Ok(orders)
    }
}

/// The frame that a step sent.
fn frame_of(step: &Noted) -> Option<FrameName> {
    let (kind, number) = match step.outcome {
        Outcome::Touched { entry, .. }
        | Outcome::Looked { entry, .. }
        | Outcome::ClockTold { entry, .. }
        | Outcome::Drawn { entry, .. } => (Kind::Log, entry),
        Outcome::Emitted(number) => (Kind::Out, number),
        _ => return None,
    };
    Some(FrameName {
        kind,
        thread: u64::from(step.thread),
        number,
    })
}

/// The frames of a thread that are to arrive, in order: the first ones that it sent, but the lost one.
fn wanted_of(
    alloc: Global,
    asked: &Asked,
    thread: u64,
    steps: &[Noted],
) -> Result<Vec<FrameName>, NoMemory> {
    let mut wanted = Vec::new(alloc);
    let mut left = asked.take_of(thread).unwrap_or(u64::MAX);
    for step in steps {
        let Some(frame) = frame_of(step) else {
            continue;
        };
        if frame.thread == thread && left > 0 {
            left -= 1;
            if asked.lost != Some(frame) {
                wanted.push(frame)?;
            }
        }
    }
    Ok(wanted)
}

/// The frames of a thread among these.
fn frames_of(alloc: Global, thread: u64, frames: &[FrameName]) -> Result<Vec<FrameName>, NoMemory> {
    let mut of_thread = Vec::new(alloc);
    for frame in frames {
        if frame.thread == thread {
            of_thread.push(*frame)?;
        }
    }
    Ok(of_thread)
}

/// Whether exactly those frames of a thread arrive that are to arrive.
fn arrive_of(
    alloc: Global,
    asked: &Asked,
    thread: u64,
    steps: &[Noted],
    arriving: &[FrameName],
) -> Result<bool, NoMemory> {
    let wanted = wanted_of(alloc, asked, thread, steps)?;
    let found = frames_of(alloc, thread, arriving)?;
    Ok(wanted.as_slice() == found.as_slice())
}

/// How many moves a thread made.
fn moves_of(thread: u64, steps: &[Noted]) -> u64 {
    let mut moves = 0u64;
    for step in steps {
        if u64::from(step.thread) == thread {
            moves = moves.saturating_add(1);
        }
    }
    moves
}

/// Whether a thread made as many moves as are asked, and the right ones of its frames arrive.
fn is_kept_of(
    alloc: Global,
    asked: &Asked,
    thread: u64,
    steps: &[Noted],
    arriving: &[FrameName],
) -> Result<bool, NoMemory> {
    let made = moves_of(thread, steps);
    let most = asked.limit_of(thread).unwrap_or(u64::MAX);
    let right = made == most || (made < most && !asked.exact);
    Ok(right && arrive_of(alloc, asked, thread, steps, arriving)?)
}

/// Whether a round did what was asked of its threads, and no other thread made a move or sent a frame.
pub fn is_kept(
    alloc: Global,
    asked: &Asked,
    threads: u32,
    steps: &[Noted],
    arriving: &[FrameName],
) -> Result<bool, NoMemory> {
    let threads = u64::from(threads);
    for thread in 0..threads {
        if !is_kept_of(alloc, asked, thread, steps, arriving)? {
            return Ok(false);
        }
    }
    Ok(
        steps.iter().all(|step| u64::from(step.thread) < threads)
            && arriving.iter().all(|frame| frame.thread < threads),
    )
}
