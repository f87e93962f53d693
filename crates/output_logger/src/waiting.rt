//! The outputs that wait, and which of them a log entry releases.
ghost use Rattle.std.specs.Prelude.{◌≡◌, ◌≢◌, ℕ, ◌+◌, ◌-◌, ◌^◌, ◌<◌, ◌≤◌, ◌↔◌, ◌⊎◌, List, [], ◌∷◌};
ghost use Rattle.std.specs.Prelude.{◌++◌, Some, None, IsSome, IfOk, OnOk, OnErr, cond, length};
ghost use Rattle.std.specs.Prelude.{slice_index, vec_len, vec_capacity};
ghost use Rattle.std.specs.Ordering.{nat_cmp};
ghost use Rattle.std.specs.BTreeMap.{is_at};
ghost use Rattle.std.specs.List.Sorted.{IsStrictlySortedBy};
ghost use Rattle.std.specs.Map.{remove_entry, keys_of};
ghost use Rattle.access_log.specs.declared.entry.Output.{Output};
ghost use Rattle.dup_filter.specs.Numbers.{IsAwaited};
ghost use Rattle.output_logger.specs.Logger.{appended};
ghost use Rattle.output_logger.specs.Kept.{arrived, IsWaiting, IsIndexed, IndexesOnly, IsReady};
ghost use Rattle.output_logger.specs.Kept.{IsDueBy};
ghost use Rattle.output_logger.specs.Kept.{HaveNames, Arrives, IsNoted, Gone};

use access_log::Output;
use dup_filter::Released;
use plain_text::NoMemory;
use std::alloc::Global;
use std::collections::{BTreeMap, BTreeSet};
use thread_clock::{EntryCounts, Stamp};

/// The waiting outputs by the order in which they arrived. An index has each under every log entry that it waits for,
/// by thread, number and arrival; and maybe under others of its stamp.
#[derive(Debug, Drop)]
pub struct Waiting {
    /// By the number of its arrival, from 0.
    pub outputs: BTreeMap<u64, Output>,
    /// Thread and number of a log entry, and the arrival of an output that names it.
    pub index: BTreeSet<(u32, u64, u64)>,
}

/// The arrival number of the next output. It answers that memory ran out where there are no more such numbers.
fn next_arrival(outputs: &BTreeMap<u64, Output>) -> Result<u64, NoMemory>
    ensures last { IfOk result (λ a. (b : ℕ) → IsSome (arrived outputs.now.entries b) → b < a) }
    ensures small { IfOk result (λ a. a < 2 ^ 64 - 1) }
{
    match outputs.last_key_value() {
        Some((last, _)) => {
            if *last >= u64::MAX - 2 {
                return Err(NoMemory);
            }
            Ok(*last + 1)
        }
        None => Ok(0),
    }
}

/// Puts an output into the index, under each log entry above these frontiers that its stamp names.
fn enter(
    index: &mut BTreeSet<(u32, u64, u64)>,
    frontiers: &EntryCounts,
    stamp: &Stamp,
    arrival: u64,
) -> Result<(), NoMemory>
    ensures keeps { (u n a : ℕ) → IsIndexed index.old.keys u n a → IsIndexed index.new.keys u n a }
    ensures enters { OnOk result ((u : ℕ) → slice_index frontiers.now u < slice_index stamp.now u
        → IsIndexed index.new.keys u (slice_index stamp.now u) arrival) }
    ensures only { (u n a : ℕ) → IsIndexed index.new.keys u n a → IsIndexed index.old.keys u n a
        ⊎ ((u < 16) × (n ≡ slice_index stamp.now u) × (a ≡ arrival)) }
{
    let _few = frontiers.components();
    let _same = stamp.components();
    for thread in 0..16 {
        let component = stamp.get(thread);
        if component > frontiers.get(thread) {
            index.insert((thread, component, arrival))?;
        }
    }
    Ok(())
}

/// Takes an output out of the index.
fn leave(index: &mut BTreeSet<(u32, u64, u64)>, stamp: &Stamp, arrival: u64)
    ensures keeps { (u n a : ℕ) → a ≢ arrival → IsIndexed index.old.keys u n a
        → IsIndexed index.new.keys u n a }
    ensures only { (u n a : ℕ) → IsIndexed index.new.keys u n a → IsIndexed index.old.keys u n a }
    ensures gone { (u : ℕ) → u < 16
        → IsIndexed index.new.keys u (slice_index stamp.now u) arrival → ⊥ }
{
    for thread in 0..16 {
        index.remove(&(thread, stamp.get(thread), arrival));
    }
}

/// Adds to the ready ones those that wait for an entry of the thread after the first number, up to the second, and are
/// due by these frontiers.
fn find_due(
    waiting: &Waiting,
    thread: u32,
    from: u64,
    reached: &EntryCounts,
    ready: &mut BTreeSet<u64>,
) -> Result<(), NoMemory>
    requires thread_in { thread < 16 }
    requires small { (a : ℕ) → IsSome (arrived waiting.now.outputs.entries a) → a < 2 ^ 64 - 1 }
    ensures kept { (a : ℕ) → IsReady ready.old.keys a → IsReady ready.new.keys a }
    ensures due { (a : ℕ) → IsReady ready.new.keys a → IsReady ready.old.keys a
        ⊎ IsDueBy waiting.now.outputs.entries reached.now a }
    ensures found { OnOk result ((a n : ℕ) → IsIndexed waiting.now.index.keys thread n a → from < n
        → IsDueBy waiting.now.outputs.entries reached.now a → n ≤ slice_index reached.now thread
        → IsReady ready.new.keys a) }
{
    let to = reached.get(thread);
    if from >= to {
        return Ok(());
    }
    for (_, _, arrival) in waiting
        .index
        .range((thread, from, u64::MAX)..(thread, to, u64::MAX))
    {
        if let Some(output) = waiting.outputs.get(arrival)
            && output.stamp.at_most(reached)
        {
            ready.insert(*arrival)?;
        }
    }
    Ok(())
}

/// Releases the output with this arrival number.
fn release_one(waiting: &mut Waiting, released: &mut Released, arrival: u64, out: &mut Vec<Output>)
    requires there { IsSome (arrived waiting.old.outputs.entries arrival) }
    requires awaited { (o : Output) → arrived waiting.old.outputs.entries arrival ≡ Some o
        → IsAwaited released.old o.thread o.number }
    requires room { vec_len out.old < vec_capacity out.old }
    ensures goes { (o : Output) → arrived waiting.old.outputs.entries arrival ≡ Some o
        → (out.new.items ≡ out.old.items ++ o ∷ []) × IsNoted released.old released.new o }
    ensures entries { waiting.new.outputs.entries
        ≡ remove_entry (is_at (nat_cmp arrival)) waiting.old.outputs.entries }
    ensures found { (q : ℕ) → arrived waiting.new.outputs.entries q
        ≡ cond (is_at (nat_cmp arrival) q) None (arrived waiting.old.outputs.entries q) }
    ensures sorted { IsStrictlySortedBy nat_cmp (keys_of waiting.new.outputs.entries) }
    ensures index { (u n a : ℕ) → a ≢ arrival → IsIndexed waiting.old.index.keys u n a
        → IsIndexed waiting.new.index.keys u n a }
    ensures only { IndexesOnly waiting.old.index.keys waiting.old.outputs.entries
        → IndexesOnly waiting.new.index.keys waiting.new.outputs.entries }
    ensures threads { length released.new ≡ length released.old }
    ensures len { vec_len out.new ≡ vec_len out.old + 1 }
    ensures capacity { vec_capacity out.new ≡ vec_capacity out.old }
{
    if let Some(output) = waiting.outputs.remove(&arrival) {
        leave(&mut waiting.index, &output.stamp, arrival);
        released.mark_in_room(output.thread, output.number);
        out.push_reserved(output);
    }
}

impl Waiting {
    /// No outputs. It takes no memory.
    pub fn new(alloc: Global) -> Self
        ensures outputs { result.outputs.entries ≡ [] }
        ensures index { result.index.keys ≡ [] }
    {
        Waiting {
            outputs: BTreeMap::new(alloc),
            index: BTreeSet::new(alloc),
        }
    }

    /// Lets an output wait behind the others.
    pub fn push(&mut self, frontiers: &EntryCounts, output: Output) -> Result<u64, NoMemory>
        ensures arrives { IfOk result (λ a.
            Arrives self.old.outputs.entries self.new.outputs.entries a output) }
        ensures enters { IfOk result (λ a.
            (u : ℕ) → slice_index frontiers.now u < slice_index output.stamp u
            → IsIndexed self.new.index.keys u (slice_index output.stamp u) a) }
        ensures keeps { (u n a : ℕ) → IsSome (arrived self.old.outputs.entries a)
            → IsIndexed self.old.index.keys u n a → IsIndexed self.new.index.keys u n a }
        ensures only { IndexesOnly self.old.index.keys self.old.outputs.entries
            → IndexesOnly self.new.index.keys self.new.outputs.entries }
        ensures err { OnErr result (self.new.outputs.entries ≡ self.old.outputs.entries) }
    {
        let arrival = next_arrival(&self.outputs)?;
        let stamp = output.stamp;
        if enter(&mut self.index, frontiers, &stamp, arrival).is_err()
            || self.outputs.insert(arrival, output).is_err()
        {
            leave(&mut self.index, &stamp, arrival);
            return Err(NoMemory);
        }
        Ok(arrival)
    }

    /// Takes the last output back. It takes no memory.
    pub fn take_back(&mut self)
        ensures outputs { (outputs : List (ℕ × Output)) (last : ℕ × Output)
            → self.old.outputs.entries ≡ outputs ++ last ∷ [] → self.new.outputs.entries ≡ outputs }
        ensures keeps { (u n a : ℕ) → IsSome (arrived self.new.outputs.entries a)
            → IsIndexed self.old.index.keys u n a → IsIndexed self.new.index.keys u n a }
        ensures only { IndexesOnly self.old.index.keys self.old.outputs.entries
            → IndexesOnly self.new.index.keys self.new.outputs.entries }
    {
        if let Some((arrival, output)) = self.outputs.pop_last() {
            leave(&mut self.index, &output.stamp, arrival);
        }
    }

    /// Lets no output wait any more. It takes no memory.
    pub fn clear(&mut self)
        ensures outputs { self.new.outputs.entries ≡ [] }
        ensures index { self.new.index.keys ≡ [] }
        ensures sorted { IsStrictlySortedBy nat_cmp (keys_of self.new.outputs.entries) }
    {
        self.outputs.clear();
        self.index.clear();
    }

    /// The arrival numbers of those that will be due once the frontiers rise from the first to the second.
    pub fn due(
        &self,
        alloc: Global,
        from: &EntryCounts,
        reached: &EntryCounts,
    ) -> Result<BTreeSet<u64>, NoMemory>
        requires small { (a : ℕ) → IsSome (arrived self.now.outputs.entries a) → a < 2 ^ 64 - 1 }
        requires indexed { (a u : ℕ) (o : Output) → arrived self.now.outputs.entries a ≡ Some o
            → slice_index from.now u < slice_index o.stamp u
            → IsIndexed self.now.index.keys u (slice_index o.stamp u) a }
        requires waits { (a : ℕ) → IsDueBy self.now.outputs.entries from.now a → ⊥ }
        ensures due { IfOk result (λ ready. (a : ℕ) → IsReady ready.keys a
            ↔ IsDueBy self.now.outputs.entries reached.now a) }
    {
        let _few = reached.components();
        let mut ready = BTreeSet::new(alloc);
        for thread in 0..16 {
            find_due(self, thread, from.get(thread), reached, &mut ready)?;
        }
        Ok(ready)
    }

    /// Releases the outputs with these arrival numbers, in their order. There is room for them.
    pub fn release(&mut self, released: &mut Released, ready: &BTreeSet<u64>, out: &mut Vec<Output>)
        requires there { (a : ℕ) → IsReady ready.now.keys a
            → IsSome (arrived self.old.outputs.entries a) }
        requires sorted { IsStrictlySortedBy nat_cmp (keys_of self.old.outputs.entries) }
        requires awaited { (t n : ℕ) → IsAwaited released.old t n
            ↔ IsWaiting self.old.outputs.entries t n }
        requires apart { HaveNames self.old.outputs.entries }
        requires room { vec_len out.old + length ready.now.keys ≤ vec_capacity out.old }
        ensures gone { Gone self.old.outputs.entries self.new.outputs.entries
            released.old released.new
            ready.now.keys (appended out.old.items out.new.items) }
        ensures appends { out.new.items ≡ out.old.items ++ appended out.old.items out.new.items }
        ensures keeps { (u n a : ℕ) → IsSome (arrived self.new.outputs.entries a)
            → IsIndexed self.old.index.keys u n a → IsIndexed self.new.index.keys u n a }
        ensures only { IndexesOnly self.old.index.keys self.old.outputs.entries
            → IndexesOnly self.new.index.keys self.new.outputs.entries }
    {
        for arrival in ready {
            release_one(self, released, *arrival, out);
        }
    }
}
