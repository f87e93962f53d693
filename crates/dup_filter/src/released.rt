ghost use Rattle.std.specs.Prelude.{◌≡◌, ℕ, ◌+◌, ◌<◌, ◌≤◌, ◌↔◌, ◌≢◌, IsTrue, IfOk, OnOk, OnErr};
ghost use Rattle.std.specs.Prelude.{length};
ghost use Rattle.std.specs.Prelude.{replicate};
ghost use Rattle.dup_filter.specs.Numbers.{no_numbers, numbers, WasMarked, IsAwaited, AreApart};
ghost use Rattle.dup_filter.specs.Numbers.{IsGreatest, Marks, KeepsRoom, GivesUpRooms};

use crate::numbers::Numbers;
use plain_text::NoMemory;
use std::alloc::Global;
use std::marker::Model;

/// The numbers that were marked, of each thread. They are kept as the number up to which all are marked, and the few
/// above it.
///
/// Room may be kept for a number, so that it can be marked without taking memory. It is not marked by that.
#[derive(Debug, Drop)]
pub struct Released {
    threads: Vec<Numbers>,
}

impl Model for Released {
    ghost use Rattle.std.specs.Prelude.{List};
    ghost use Rattle.dup_filter.specs.Numbers.{Numbers};

    ghost Value = { List Numbers };

    ghost use Rattle.dup_filter.specs.Numbers.{AreApart};

    ghost view = { λ r. r.threads.items };

    ghost invariant = { λ r. AreApart r.threads.items };
}

impl Released {
    /// Nothing marked, for 1 to 16 threads.
    pub fn new(alloc: Global, threads: u32) -> Result<Self, NoMemory>
        requires some { 1 ≤ threads }
        requires few { threads ≤ 16 }
        ensures { IfOk result (λ released. released ≡ replicate threads no_numbers) }
    {
        let mut each = Vec::with_capacity(alloc, threads as usize)?;
        for _ in 0..threads {
            each.push(Numbers::new(alloc))?;
        }
        Ok(Released { threads: each })
    }

    /// No number that room is kept for was marked. It does nothing: a caller has it by the call.
    pub fn is_apart(&self)
        ensures { AreApart self.now }
    {
        let _threads = &self.threads;
    }

    /// Whether the number of the thread was marked. It takes no memory.
    pub fn seen(&self, thread: u32, number: u64) -> bool
        ensures { IsTrue result ↔ WasMarked self.now thread number }
    {
        match self.threads.get(thread as usize) {
            Some(numbers) => numbers.is_marked(number),
            None => false,
        }
    }

    /// The greatest number of the thread that was marked; 0 where none was. It takes no memory.
    pub fn greatest(&self, thread: u32) -> u64
        ensures { IsGreatest (numbers self.now thread) result }
    {
        match self.threads.get(thread as usize) {
            Some(numbers) => numbers.greatest(),
            None => 0,
        }
    }

    /// The number up to which all numbers of the thread were marked: the one behind it was not. It takes no memory.
    pub fn floor(&self, thread: u32) -> u64
        ensures value { result ≡ (numbers self.now thread).floor }
        ensures all { (n : ℕ) → 1 ≤ n → n ≤ result → WasMarked self.now thread n }
        ensures behind { WasMarked self.now thread (result + 1) → ⊥ }
    {
        match self.threads.get(thread as usize) {
            Some(numbers) => numbers.floor(),
            None => 0,
        }
    }

    /// Marks a number of a thread that was not marked before.
    pub fn mark(&mut self, thread: u32, number: u64) -> Result<(), NoMemory>
        requires thread_in { thread < length self.old }
        requires numbered { 1 ≤ number }
        requires fresh { WasMarked self.old thread number → ⊥ }
        ensures ok { OnOk result (Marks (numbers self.old thread)
            (numbers self.new thread) number) }
        ensures others { (t : ℕ) → t ≢ thread → numbers self.new t ≡ numbers self.old t }
        ensures err { OnErr result (self.new ≡ self.old) }
        ensures threads { length self.new ≡ length self.old }
    {
        let numbers = &mut self.threads[thread as usize];
        numbers.mark(number)
    }

    /// Whether room is kept for the number of the thread. It takes no memory.
    pub fn has_room(&self, thread: u32, number: u64) -> bool
        ensures { IsTrue result ↔ IsAwaited self.now thread number }
    {
        match self.threads.get(thread as usize) {
            Some(numbers) => numbers.has_room(number),
            None => false,
        }
    }

    /// Keeps room for a number of a thread that was not marked.
    pub fn keep_room(&mut self, thread: u32, number: u64) -> Result<(), NoMemory>
        requires thread_in { thread < length self.old }
        requires numbered { 1 ≤ number }
        requires fresh { WasMarked self.old thread number → ⊥ }
        ensures ok { OnOk result (KeepsRoom (numbers self.old thread)
            (numbers self.new thread) number) }
        ensures others { (t : ℕ) → t ≢ thread → numbers self.new t ≡ numbers self.old t }
        ensures err { OnErr result (self.new ≡ self.old) }
        ensures threads { length self.new ≡ length self.old }
    {
        let numbers = &mut self.threads[thread as usize];
        numbers.keep_room(number)
    }

    /// Marks a number that room is kept for, which was not marked before. It takes no memory.
    pub fn mark_in_room(&mut self, thread: u32, number: u64)
        requires thread_in { thread < length self.old }
        requires room { IsAwaited self.old thread number }
        ensures marks { Marks (numbers self.old thread) (numbers self.new thread) number }
        ensures fresh { WasMarked self.old thread number → ⊥ }
        ensures others { (t : ℕ) → t ≢ thread → numbers self.new t ≡ numbers self.old t }
        ensures threads { length self.new ≡ length self.old }
    {
        let numbers = &mut self.threads[thread as usize];
        numbers.mark_in_room(number);
    }

    /// Keeps no room any more; what was marked stays marked. It takes no memory.
    pub fn give_up_rooms(&mut self)
        ensures each { (t : ℕ) → GivesUpRooms (numbers self.old t) (numbers self.new t) }
        ensures threads { length self.new ≡ length self.old }
    {
        give_up_each(&mut self.threads);
    }
}

/// Keeps no room of any thread.
fn give_up_each(threads: &mut [Numbers])
    ensures { (t : ℕ) → GivesUpRooms (numbers threads.old t) (numbers threads.new t) }
{
    for i in 0..threads.len() {
        let numbers = &mut threads[i];
        numbers.give_up_rooms();
    }
}
