//! What is asked of a round.
ghost use Rattle.std.specs.Prelude.{◌≡◌, ◌↔◌, ◌+◌, ◌^◌, ◌<◌, ◌≤◌, ◌∷◌, ℕ, IfOk, IsTrue, OnErr};
ghost use Rattle.std.specs.Prelude.{OnOk, slice_index, slice_set};
ghost use Rattle.plan_script.specs.Orders.{but, no_orders};
ghost use Rattle.frame_intake.specs.Orders.{orders_of, AreSome, Arrive, TakesOneMore};

use crate::frames::FrameName;
use crate::lost::LostFrames;
use plain_text::NoMemory;
use std::alloc::Global;
use std::marker::Model;

/// The most threads that a job may have.
const THREADS: usize = 16;

/// What is asked of the next round: of a thread, how many moves it makes at most, and how many of its frames are taken;
/// and which frames are lost.
#[derive(Drop)]
pub struct RoundOrders {
    moves: [Option<u64>; THREADS],
    frames: [Option<u64>; THREADS],
    /// The oldest first.
    lost: Vec<FrameName>,
}

impl Model for RoundOrders {
    ghost use Rattle.std.specs.Prelude.{reverse};
    ghost use Rattle.frame_intake.specs.Orders.{InMemory};

    ghost Value = { InMemory };

    ghost view = { λ o. record {
      most_moves = o.moves;
      most_frames = o.frames;
      lost_frames = reverse o.lost.items;
    } };
}

/// Counts a frame of this thread; how many came before.
fn count(counts: &mut [u64; THREADS], thread: u64) -> u64
    requires room { slice_index counts.old thread + 1 < 2 ^ 64 }
    ensures counted { counts.new ≡ slice_set counts.old thread (slice_index counts.old thread + 1) }
    ensures before { result ≡ slice_index counts.old thread }
{
    if thread >= THREADS as u64 {
        return 0;
    }
    let before = counts[thread as usize];
    counts[thread as usize] = before + 1;
    before
}

impl RoundOrders {
    /// None. It takes no memory.
    pub fn none(alloc: Global) -> Self
        ensures moves { (t : ℕ) → (orders_of result).moves t ≡ no_orders.moves t }
        ensures frames { (t : ℕ) → (orders_of result).frames t ≡ no_orders.frames t }
        ensures lost { (orders_of result).lost ≡ no_orders.lost }
    {
        RoundOrders {
            moves: [None; THREADS],
            frames: [None; THREADS],
            lost: Vec::new(alloc),
        }
    }

    /// A thread makes at most this number of moves. An order for a thread that there is none of has no effect.
    pub fn limit(&mut self, thread: u64, moves: u64)
        ensures moves { (t : ℕ) → t < 16 → (orders_of self.new).moves t
            ≡ but thread moves (orders_of self.old).moves t }
        ensures frames { (t : ℕ) → (orders_of self.new).frames t ≡ (orders_of self.old).frames t }
        ensures lost { (orders_of self.new).lost ≡ (orders_of self.old).lost }
    {
        if thread < THREADS as u64 {
            self.moves[thread as usize] = Some(moves);
        }
    }

    /// At most this number of the thread's frames are taken: the first ones that it sends.
    pub fn take(&mut self, thread: u64, frames: u64)
        ensures frames { (t : ℕ) → t < 16 → (orders_of self.new).frames t
            ≡ but thread frames (orders_of self.old).frames t }
        ensures moves { (t : ℕ) → (orders_of self.new).moves t ≡ (orders_of self.old).moves t }
        ensures lost { (orders_of self.new).lost ≡ (orders_of self.old).lost }
    {
        if thread < THREADS as u64 {
            self.frames[thread as usize] = Some(frames);
        }
    }

    /// This frame is lost after it was taken.
    pub fn lose(&mut self, frame: FrameName) -> Result<(), NoMemory>
        ensures lost { OnOk result ((orders_of self.new).lost
            ≡ frame ∷ (orders_of self.old).lost) }
        ensures same { OnErr result ((orders_of self.new).lost ≡ (orders_of self.old).lost) }
        ensures moves { (t : ℕ) → (orders_of self.new).moves t ≡ (orders_of self.old).moves t }
        ensures frames { (t : ℕ) → (orders_of self.new).frames t ≡ (orders_of self.old).frames t }
    {
        self.lost.push(frame)?;
        Ok(())
    }

    /// How many moves the thread makes at most, where there is such an order.
    pub fn most_moves(&self, thread: u32) -> Option<u64>
        ensures { result ≡ (orders_of self.now).moves thread }
    {
        match self.moves.get(thread as usize) {
            Some(moves) => *moves,
            None => None,
        }
    }

    /// How many of the thread's frames are taken at most, where there is such an order.
    fn most_frames(&self, thread: u64) -> Option<u64>
        ensures most { result ≡ (orders_of self.now).frames thread }
        ensures beyond { 16 ≤ thread → result ≡ None }
    {
        match self.frames.get(thread as usize) {
            Some(frames) => *frames,
            None => None,
        }
    }

    /// Whether one more frame of the thread is taken, where so many came before.
    fn takes(&self, thread: u64, before: u64) -> bool
        ensures takes { IsTrue result ↔ TakesOneMore ((orders_of self.now).frames thread) before }
        ensures beyond { 16 ≤ thread → (orders_of self.now).frames thread ≡ None }
    {
        match self.most_frames(thread) {
            Some(most) => before < most,
            None => true,
        }
    }

    /// Which of the frames that were sent arrive, in their order.
    pub fn arriving(&self, alloc: Global, sent: &[FrameName]) -> Result<Vec<FrameName>, NoMemory>
        ensures arrive { IfOk result
            (λ arriving. Arrive (orders_of self.now) sent.now arriving.items) }
        ensures in_order { IfOk result (λ arriving. AreSome sent.now arriving.items) }
    {
        let lost = LostFrames::new(alloc, self.lost.as_slice())?;
        let mut counts = [0u64; THREADS];
        let mut arriving = Vec::new(alloc);
        for frame in sent {
            let before = count(&mut counts, frame.thread);
            if self.takes(frame.thread, before) && !lost.contains(*frame) {
                arriving.push(*frame)?;
            }
        }
        Ok(arriving)
    }
}
