ghost use Rattle.std.specs.Prelude.{◌≡◌, ◌≢◌, ℕ, ◌+◌, ◌-◌, ◌^◌, ◌<◌, ◌≤◌, ◌↔◌, [], ◌∷◌, ◌++◌, Some};
ghost use Rattle.std.specs.Prelude.{Ok, IsTrue, IsSome, IfOk, OnOk, OnErr, length, replicate};
ghost use Rattle.std.specs.Prelude.{slice_index, vec_len, vec_capacity};
ghost use Rattle.access_log.specs.declared.entry.Output.{Output};
ghost use Rattle.access_log.specs.declared.entry.StampedEntry.{StampedEntry};
ghost use Rattle.access_log.specs.Held.{lane, entry_at, fresh_lane, IsKnown, IsWithin};
ghost use Rattle.access_log.specs.Held.{IsFirstMissing, held_count};
ghost use Rattle.access_log.specs.Lanes.{PutsEntry, CoversUpTo};
ghost use Rattle.access_log.specs.Members.{IsMember, IsDropped, IsMemberAbove, IsNumberOf};
ghost use Rattle.dup_filter.specs.Numbers.{no_numbers};
ghost use Rattle.output_logger.specs.Logger.{IsDue, HasArrived, Parts, appended, ReleasesOnce};
ghost use Rattle.output_logger.specs.Logger.{ReleasesDue, IsLogger};
ghost use Rattle.output_logger.specs.Kept.{arrived, IsIndexed, IsReady, IsDueBy};

use crate::reach::{frontiers, frontiers_over, frontiers_with};
use crate::waiting::Waiting;
use crate::{EntryTook, OutputTook};
use access_log::{Held, Kept, Output, Outputs, StampedEntry};
use dup_filter::Released;
use plain_text::NoMemory;
use std::alloc::Global;
use std::collections::BTreeSet;
use std::marker::Model;
use std::mem;
use thread_clock::EntryCounts;

/// Holds log entries, and releases each output once, as soon as no log entry that it depends on is missing. Until then
/// it waits.
///
/// It outlives the master. Each master has an epoch, from 1; what a master of an earlier epoch sent has no effect.
#[derive(Drop)]
pub struct OutputLogger {
    alloc: Global,
    threads: u32,
    epoch: u32,
    held: Held,
    released: Released,
    waiting: Waiting,
}

impl Model for OutputLogger {
    ghost use Rattle.std.specs.Map.{values_of};
    ghost use Rattle.output_logger.specs.Logger.{Logger};

    ghost Value = { Logger };

    ghost use Rattle.output_logger.specs.Kept.{AreKept};

    ghost view = { λ l. record {
      epoch = l.epoch;
      held = l.held;
      released = l.released;
      waiting = values_of l.waiting.outputs.entries;
    } };

    ghost invariant = { λ l.
        AreKept l.threads l.held l.released l.waiting.outputs.entries l.waiting.index.keys };
}

/// Takes the outputs out of their list, which is empty until they are put back.
fn take_items(alloc: Global, out: &mut Outputs) -> Vec<Output>
    ensures { result.items ≡ out.old }
{
    mem::replace(out, Outputs::new(alloc)).into_vec()
}

/// Finds those that will be due once the frontiers rise from the first to the second, and makes room for them.
fn prepare(
    waiting: &Waiting,
    alloc: Global,
    from: &EntryCounts,
    reached: &EntryCounts,
    out: &mut Vec<Output>,
) -> Result<BTreeSet<u64>, NoMemory>
    requires small { (a : ℕ) → IsSome (arrived waiting.now.outputs.entries a) → a < 2 ^ 64 - 1 }
    requires indexed { (a u : ℕ) (o : Output) → arrived waiting.now.outputs.entries a ≡ Some o
        → slice_index from.now u < slice_index o.stamp u
        → IsIndexed waiting.now.index.keys u (slice_index o.stamp u) a }
    requires waits { (a : ℕ) → IsDueBy waiting.now.outputs.entries from.now a → ⊥ }
    ensures due { IfOk result (λ ready. (a : ℕ) → IsReady ready.keys a
        ↔ IsDueBy waiting.now.outputs.entries reached.now a) }
    ensures room { IfOk result (λ ready.
        vec_len out.new + length ready.keys ≤ vec_capacity out.new) }
    ensures items { out.new.items ≡ out.old.items }
{
    let ready = waiting.due(alloc, from, reached)?;
    out.reserve(ready.len())?;
    Ok(ready)
}

impl OutputLogger {
    /// A logger for 1 to 16 threads, at epoch 1: nothing is held, nothing was released, and nothing waits.
    pub fn new(alloc: Global, threads: u32) -> Result<Self, NoMemory>
        requires some { 1 ≤ threads }
        requires few { threads ≤ 16 }
        ensures { IfOk result (λ logger. logger ≡ record {
          epoch = 1;
          held = replicate threads fresh_lane;
          released = replicate threads no_numbers;
          waiting = [];
        }) }
    {
        Ok(OutputLogger {
            alloc,
            threads,
            epoch: 1,
            held: Held::new(alloc, threads)?,
            released: Released::new(alloc, threads)?,
            waiting: Waiting::new(alloc),
        })
    }

    /// What is true of every output logger. It does nothing: a caller has it by the call.
    pub fn is_logger(&self)
        ensures { IsLogger self.now }
    {
        self.held.is_held_set();
        self.released.is_apart();
    }

    /// Takes a log entry that a master of this epoch sent. The waiting outputs that are due then are released, in the
    /// order in which they arrived: they are appended to the list.
    pub fn entry(
        &mut self,
        epoch: u32,
        entry: StampedEntry,
        out: &mut Outputs,
    ) -> Result<EntryTook, NoMemory>
        requires thread_in { entry.thread < length self.old.held }
        requires numbered { 1 ≤ entry.number }
        requires sent { epoch ≤ self.old.epoch }
        ensures old { (result ≡ Ok EntryTook.OldEpoch) ↔ (epoch < self.old.epoch) }
        ensures known { (result ≡ Ok EntryTook.Known)
            ↔ ((epoch ≡ self.old.epoch) × IsKnown (lane self.old.held entry.thread) entry.number) }
        ensures same { result ≢ Ok EntryTook.New → self.new ≡ self.old }
        ensures none { result ≢ Ok EntryTook.New → out.new ≡ out.old }
        ensures new { result ≡ Ok EntryTook.New
            → PutsEntry (lane self.old.held entry.thread)
            (lane self.new.held entry.thread) entry.number entry }
        ensures others { (t : ℕ) → t ≢ entry.thread → lane self.new.held t ≡ lane self.old.held t }
        ensures counted { result ≡ Ok EntryTook.New
            → held_count self.new.held ≡ held_count self.old.held + 1 }
        ensures released { result ≡ Ok EntryTook.New → Parts (IsDue self.new.held)
            self.old.waiting (appended out.old out.new) self.new.waiting }
        ensures appends { out.new ≡ out.old ++ appended out.old out.new }
        ensures once { ReleasesOnce self.old.released self.new.released (appended out.old out.new) }
        ensures epoch { self.new.epoch ≡ self.old.epoch }
        ensures threads { length self.new.held ≡ length self.old.held }
    {
        if epoch < self.epoch {
            return Ok(EntryTook::OldEpoch);
        }
        if self.held.is_known(entry.thread, entry.number) {
            return Ok(EntryTook::Known);
        }
        if self.waiting.outputs.is_empty() {
            self.hold_alone(entry)?;
            return Ok(EntryTook::New);
        }
        let mut items = take_items(self.alloc, out);
        let held = self.hold(entry, &mut items);
        *out = Outputs::from_vec(items);
        held?;
        Ok(EntryTook::New)
    }

    /// Holds one more entry. No output waits, so none is due then.
    fn hold_alone(&mut self, entry: StampedEntry) -> Result<(), NoMemory>
        requires thread_in { entry.thread < length self.old.held }
        requires numbered { 1 ≤ entry.number }
        requires unknown { IsKnown (lane self.old.held entry.thread) entry.number → ⊥ }
        requires none { self.old.waiting ≡ [] }
        ensures err { OnErr result (self.new ≡ self.old) }
        ensures puts { OnOk result (PutsEntry (lane self.old.held entry.thread)
            (lane self.new.held entry.thread) entry.number entry) }
        ensures others { (t : ℕ) → t ≢ entry.thread → lane self.new.held t ≡ lane self.old.held t }
        ensures counted { OnOk result (held_count self.new.held ≡ held_count self.old.held + 1) }
        ensures waiting { self.new.waiting ≡ [] }
        ensures released { self.new.released ≡ self.old.released }
        ensures epoch { self.new.epoch ≡ self.old.epoch }
        ensures threads { length self.new.held ≡ length self.old.held }
    {
        let _added = self.held.add(entry)?;
        Ok(())
    }

    /// Holds one more entry, and releases the outputs that are due then.
    fn hold(&mut self, entry: StampedEntry, out: &mut Vec<Output>) -> Result<(), NoMemory>
        requires thread_in { entry.thread < length self.old.held }
        requires numbered { 1 ≤ entry.number }
        requires unknown { IsKnown (lane self.old.held entry.thread) entry.number → ⊥ }
        ensures err { OnErr result ((self.new ≡ self.old) × (out.new.items ≡ out.old.items)) }
        ensures puts { OnOk result (PutsEntry (lane self.old.held entry.thread)
            (lane self.new.held entry.thread) entry.number entry) }
        ensures others { (t : ℕ) → t ≢ entry.thread → lane self.new.held t ≡ lane self.old.held t }
        ensures counted { OnOk result (held_count self.new.held ≡ held_count self.old.held + 1) }
        ensures released { OnOk result
            (ReleasesDue self.old self.new (appended out.old.items out.new.items)) }
        ensures appends { OnOk result
            (out.new.items ≡ out.old.items ++ appended out.old.items out.new.items) }
        ensures threads { length self.new.held ≡ length self.old.held }
    {
        let from = frontiers(&self.held);
        let reached = frontiers_with(&self.held, entry.thread, entry.number)?;
        let ready = prepare(&self.waiting, self.alloc, &from, &reached, out)?;
        let _added = self.held.add(entry)?;
        self.waiting.release(&mut self.released, &ready, out);
        Ok(())
    }

    /// Takes note that a snapshot is stored: each thread's entries up to its count are covered. The waiting outputs
    /// that are due then are released, in the order in which they arrived.
    pub fn covered(&mut self, counts: &EntryCounts, out: &mut Outputs) -> Result<(), NoMemory>
        requires { (t : ℕ) → t < length self.old.held
            → (lane self.old.held t).covered ≤ slice_index counts.now t }
        ensures covers { OnOk result ((t : ℕ) → t < length self.old.held
            → CoversUpTo (lane self.old.held t) (lane self.new.held t) (slice_index counts.now t)) }
        ensures counted { OnOk result
            (IsNumberOf (IsMemberAbove self.old.held counts.now) (held_count self.new.held)) }
        ensures released { OnOk result (Parts (IsDue self.new.held)
            self.old.waiting (appended out.old out.new) self.new.waiting) }
        ensures same { OnErr result (self.new ≡ self.old) }
        ensures none { OnErr result (out.new ≡ out.old) }
        ensures appends { out.new ≡ out.old ++ appended out.old out.new }
        ensures once { ReleasesOnce self.old.released self.new.released (appended out.old out.new) }
        ensures epoch { self.new.epoch ≡ self.old.epoch }
        ensures threads { length self.new.held ≡ length self.old.held }
    {
        let mut items = take_items(self.alloc, out);
        let covered = self.cover(counts, &mut items);
        *out = Outputs::from_vec(items);
        covered
    }

    /// Covers the entries, and releases the outputs that are due then.
    fn cover(&mut self, counts: &EntryCounts, out: &mut Vec<Output>) -> Result<(), NoMemory>
        requires { (t : ℕ) → t < length self.old.held
            → (lane self.old.held t).covered ≤ slice_index counts.now t }
        ensures err { OnErr result ((self.new ≡ self.old) × (out.new.items ≡ out.old.items)) }
        ensures covers { OnOk result ((t : ℕ) → t < length self.old.held
            → CoversUpTo (lane self.old.held t) (lane self.new.held t) (slice_index counts.now t)) }
        ensures counted { OnOk result
            (IsNumberOf (IsMemberAbove self.old.held counts.now) (held_count self.new.held)) }
        ensures released { OnOk result
            (ReleasesDue self.old self.new (appended out.old.items out.new.items)) }
        ensures appends { OnOk result
            (out.new.items ≡ out.old.items ++ appended out.old.items out.new.items) }
        ensures threads { length self.new.held ≡ length self.old.held }
    {
        let from = frontiers(&self.held);
        let reached = frontiers_over(&self.held, self.threads, counts)?;
        let ready = prepare(&self.waiting, self.alloc, &from, &reached, out)?;
        self.held.cover(counts);
        self.waiting.release(&mut self.released, &ready, out);
        Ok(())
    }

    /// Takes an output that a master of this epoch sent. It is released, and appended to the list, if no log entry that
    /// it depends on is missing; else it waits.
    pub fn output(
        &mut self,
        epoch: u32,
        output: Output,
        out: &mut Outputs,
    ) -> Result<OutputTook, NoMemory>
        requires thread_in { output.thread < length self.old.held }
        requires numbered { 1 ≤ output.number }
        requires sent { epoch ≤ self.old.epoch }
        ensures old { (result ≡ Ok OutputTook.OldEpoch) ↔ (epoch < self.old.epoch) }
        ensures again { (result ≡ Ok OutputTook.Again)
            ↔ ((epoch ≡ self.old.epoch) × HasArrived self.old output.thread output.number) }
        ensures due { result ≡ Ok OutputTook.Release → IsDue self.old.held output }
        ensures missing { (thread number : ℕ) → result ≡ Ok (OutputTook.Wait thread number)
            → IsFirstMissing self.old.held output.stamp thread number }
        ensures released { result ≡ Ok OutputTook.Release → out.new ≡ out.old ++ output ∷ [] }
        ensures none { result ≢ Ok OutputTook.Release → out.new ≡ out.old }
        ensures waits { (thread number : ℕ) → result ≡ Ok (OutputTook.Wait thread number)
            → self.new.waiting ≡ self.old.waiting ++ output ∷ [] }
        ensures waiting { result ≡ Ok OutputTook.Release → self.new.waiting ≡ self.old.waiting }
        ensures same { result ≢ Ok OutputTook.Release
            → ((thread number : ℕ) → result ≢ Ok (OutputTook.Wait thread number))
            → self.new ≡ self.old }
        ensures appends { out.new ≡ out.old ++ appended out.old out.new }
        ensures once { ReleasesOnce self.old.released self.new.released (appended out.old out.new) }
        ensures held { self.new.held ≡ self.old.held }
        ensures epoch { self.new.epoch ≡ self.old.epoch }
    {
        if epoch < self.epoch {
            return Ok(OutputTook::OldEpoch);
        }
        if self.has_arrived(output.thread, output.number) {
            return Ok(OutputTook::Again);
        }
        match self.held.missing(&output.stamp) {
            None => {
                self.send(output, out)?;
                Ok(OutputTook::Release)
            }
            Some((thread, number)) => {
                let _frontier = self.held.frontier(thread);
                self.wait(output)?;
                Ok(OutputTook::Wait { thread, number })
            }
        }
    }

    /// Whether this output of the thread was released or waits.
    pub fn has_arrived(&self, thread: u32, number: u64) -> bool
        ensures { IsTrue result ↔ HasArrived self.now thread number }
    {
        let _waiting = &self.waiting;
        self.released.seen(thread, number) || self.released.has_room(thread, number)
    }

    /// Releases an output of this epoch that is due as it arrives, and appends it to the list.
    pub fn send(&mut self, output: Output, out: &mut Outputs) -> Result<(), NoMemory>
        requires thread_in { output.thread < length self.old.held }
        requires numbered { 1 ≤ output.number }
        requires fresh { HasArrived self.old output.thread output.number → ⊥ }
        requires due { IsDue self.old.held output }
        ensures released { OnOk result (out.new ≡ out.old ++ output ∷ []) }
        ensures err { OnErr result ((self.new ≡ self.old) × (out.new ≡ out.old)) }
        ensures appends { out.new ≡ out.old ++ appended out.old out.new }
        ensures once { ReleasesOnce self.old.released self.new.released (appended out.old out.new) }
        ensures waiting { self.new.waiting ≡ self.old.waiting }
        ensures held { self.new.held ≡ self.old.held }
        ensures epoch { self.new.epoch ≡ self.old.epoch }
    {
        let thread = output.thread;
        let number = output.number;
        let sent = out.len();
        out.push(output)?;
        let marked = self.released.mark(thread, number);
        if marked.is_err() {
            out.truncate(sent);
        }
        marked
    }

    /// Lets an output that is not due wait.
    fn wait(&mut self, output: Output) -> Result<(), NoMemory>
        requires thread_in { output.thread < length self.old.held }
        requires numbered { 1 ≤ output.number }
        requires fresh { HasArrived self.old output.thread output.number → ⊥ }
        requires early { IsDue self.old.held output → ⊥ }
        ensures waits { OnOk result (self.new.waiting ≡ self.old.waiting ++ output ∷ []) }
        ensures err { OnErr result (self.new ≡ self.old) }
        ensures once { ReleasesOnce self.old.released self.new.released [] }
        ensures held { self.new.held ≡ self.old.held }
        ensures epoch { self.new.epoch ≡ self.old.epoch }
    {
        let thread = output.thread;
        let number = output.number;
        let frontiers = frontiers(&self.held);
        self.waiting.push(&frontiers, output)?;
        let kept = self.released.keep_room(thread, number);
        if kept.is_err() {
            self.waiting.take_back();
        }
        kept
    }

    /// Ends the epoch: keeps the closed part of what is held, discards the outputs that wait, and raises the epoch by
    /// 1. What was released stays so. It answers how many held entries stay, and how many it dropped. It takes no
    /// memory.
    pub fn fence(&mut self) -> Kept
        requires { self.old.epoch < 2 ^ 32 - 1 }
        ensures epoch { self.new.epoch ≡ self.old.epoch + 1 }
        ensures waiting { self.new.waiting ≡ [] }
        ensures once { ReleasesOnce self.old.released self.new.released [] }
        ensures closed { (t n : ℕ) (e : StampedEntry)
            → (entry_at (lane self.new.held t) n ≡ Some e)
            ↔ ((entry_at (lane self.old.held t) n ≡ Some e) × IsWithin self.old.held e.stamp) }
        ensures covered { (t : ℕ)
            → (lane self.new.held t).covered ≡ (lane self.old.held t).covered }
        ensures threads { length self.new.held ≡ length self.old.held }
        ensures kept { IsNumberOf (IsMember self.new.held) result.kept }
        ensures dropped { IsNumberOf (IsDropped self.old.held self.new.held) result.dropped }
        ensures counted { result.kept ≡ held_count self.new.held }
        ensures summed { result.kept + result.dropped ≡ held_count self.old.held }
    {
        let kept = self.held.closed_part();
        self.waiting.clear();
        self.released.give_up_rooms();
        self.epoch += 1;
        kept
    }

    /// The log entries that are held or covered.
    pub fn held(&self) -> &Held
        ensures { result.now ≡ self.now.held }
    {
        &self.held
    }

    /// The numbers of the outputs that were released.
    pub fn released(&self) -> &Released
        ensures { result.now ≡ self.now.released }
    {
        &self.released
    }

    /// The epoch of the master from which it takes messages, from 1.
    pub fn epoch(&self) -> u32
        ensures { result ≡ self.now.epoch }
    {
        self.epoch
    }

    /// How many outputs arrived and wait for a missing log entry.
    pub fn waiting(&self) -> usize
        ensures { result ≡ length self.now.waiting }
    {
        self.waiting.outputs.len()
    }
}
