ghost use Rattle.std.specs.Prelude.{◌≡◌, ◌↔◌, ℕ, ◌≤◌, [], length, IsTrue, IsSome, IfOk, OnOk};
ghost use Rattle.std.specs.Prelude.{OnErr, None};
ghost use Rattle.std.specs.Option.{ForSome};
ghost use Rattle.master_core.specs.FromBoxProgram.{FitsProgram};
ghost use Rattle.master_core.specs.Mastered.{value_of};
ghost use Rattle.master_core.specs.MasterStanding.{Stands};
ghost use Rattle.master_core.specs.Deltas.{delta_of, HasCounts};
ghost use Rattle.snapshot_store.specs.Stored.{HasTaken};

use master_core::{Delta, Master, Program};
use plain_text::NoMemory;
use std::alloc::Global;
use std::marker::Model;
use thread_clock::EntryCounts;

/// What a recovery starts from: a master as it was stored, and how many moves it had made.
#[derive(Drop)]
pub struct Restored<P: Program> {
    /// A master of its own, which moves apart from the stored one.
    pub master: Master<P>,
    /// How many moves it had made.
    pub moves: u64,
}

/// A snapshot under way: what changed in the master since the stored one.
#[derive(Drop)]
struct Taken<P: Program> {
    delta: Delta<P>,
    moves: u64,
}

/// The last snapshot of a master that was stored, and perhaps one that is under way to the store.
///
/// Of the snapshot under way it keeps what changed since the stored one: the values of the variables that were touched,
/// and no other values. Of the packets that the master sent out it keeps how many they are alone: those that were not
/// released are on the links, where a recovery finds them.
#[derive(Drop)]
pub struct Store<P: Program> {
    master: Master<P>,
    moves: u64,
    taken: Option<Taken<P>>,
}

impl<P: Program> Model for Store<P> {
    ghost use Rattle.std.specs.Prelude.{◌≡◌, length};
    ghost use Rattle.std.specs.Option.{option_map, ForSome};
    ghost use Rattle.master_core.specs.Deltas.{applied};
    ghost use Rattle.snapshot_store.specs.Stored.{Snapshots};

    ghost Value = { Snapshots P.Value };

    ghost view = { λ s. record {
      stored = record { master = s.master; moves = s.moves };
      copy = option_map (λ t. record {
        master = applied s.master t.delta;
        moves = t.moves;
      }) s.taken;
    } };

    ghost invariant = { λ s. ForSome s.taken (λ t. length t.delta.vars ≡ length s.master.vars) };
}

impl<P: Program> Store<P> {
    /// A store that holds a fresh master of 1 to 16 threads, which made no move.
    pub fn new(alloc: Global, program: &P, threads: u32) -> Result<Self, NoMemory>
        requires some { 1 ≤ threads }
        requires few { threads ≤ 16 }
        ensures fresh { IfOk result (λ store.
            Stands (P.meaning program.now) threads [] store.stored.master) }
        ensures fits { IfOk result (λ store. FitsProgram (P.meaning program.now)
            (P.fits program.now) value_of store.stored.master.vars) }
        ensures moves { IfOk result (λ store. store.stored.moves ≡ 0) }
        ensures no_copy { IfOk result (λ store. store.copy ≡ None) }
    {
        Ok(Store {
            master: Master::fresh(alloc, program, threads)?,
            moves: 0,
            taken: None,
        })
    }

    /// Takes a snapshot of a master, which made this number of moves. It replaces one that was under way. The stored
    /// snapshot is to be one of an earlier moment of the master.
    ///
    /// After `NoMemory` the store is unchanged.
    pub fn take(
        &mut self,
        alloc: Global,
        program: &P,
        master: &Master<P>,
        moves: u64,
    ) -> Result<(), NoMemory>
        requires master { FitsProgram (P.meaning program.now) (P.fits program.now)
            value_of master.now.vars }
        requires stored { FitsProgram (P.meaning program.now) (P.fits program.now)
            value_of self.old.stored.master.vars }
        ensures taken { OnOk result (HasTaken (P.meaning program.now)
            self.old.stored master.now moves self.new.copy) }
        ensures fits { OnOk result (ForSome self.new.copy (λ copy.
            FitsProgram (P.meaning program.now) (P.fits program.now) value_of copy.master.vars)) }
        ensures stored { self.new.stored ≡ self.old.stored }
        ensures unchanged { OnErr result (self.new ≡ self.old) }
    {
        let taken = taken_since(alloc, program, &self.master, master, moves)?;
        self.taken = Some(taken);
        Ok(())
    }

    /// Whether a snapshot is under way.
    pub fn has_copy(&self) -> bool
        ensures { IsTrue result ↔ IsSome self.now.copy }
    {
        self.taken.is_some()
    }

    /// Stores the snapshot that is under way, in the place of the stored one, and gives the number of its entries for
    /// each thread; `None` exactly where none is under way. It takes no memory.
    pub fn store(&mut self) -> Option<EntryCounts>
        ensures none { (result ≡ None) ↔ (self.old.copy ≡ None) }
        ensures counts { ForSome self.old.copy (λ copy. ForSome result (λ counts.
            HasCounts copy.master.threads counts)) }
        ensures stored { ForSome self.old.copy (λ copy. self.new.stored ≡ copy) }
        ensures unchanged { self.old.copy ≡ None → self.new ≡ self.old }
        ensures no_copy { self.new.copy ≡ None }
    {
        let taken = self.taken.take()?;
        self.master.apply(taken.delta);
        self.moves = taken.moves;
        Some(self.master.entry_counts())
    }

    /// Forgets the snapshot that is under way. It takes no memory.
    pub fn lose(&mut self)
        ensures no_copy { self.new.copy ≡ None }
        ensures stored { self.new.stored ≡ self.old.stored }
    {
        self.taken = None;
    }

    /// A copy of the stored snapshot.
    pub fn restore(&self, alloc: Global, program: &P) -> Result<Restored<P>, NoMemory>
        requires { FitsProgram (P.meaning program.now) (P.fits program.now)
            value_of self.now.stored.master.vars }
        ensures master { IfOk result (λ restored. restored.master ≡ self.now.stored.master) }
        ensures moves { IfOk result (λ restored. restored.moves ≡ self.now.stored.moves) }
    {
        Ok(Restored {
            master: self.master.copy(alloc, program)?,
            moves: self.moves,
        })
    }

    /// How many moves the master of the stored snapshot had made.
    pub fn moves(&self) -> u64
        ensures { result ≡ self.now.stored.moves }
    {
        self.moves
    }

    /// How many entries each thread has in the stored snapshot.
    pub fn entry_counts(&self) -> EntryCounts
        ensures { HasCounts self.now.stored.master.threads result }
    {
        self.master.entry_counts()
    }
}

/// A snapshot of a master, as what changed since it was as `stored` is.
fn taken_since<P: Program>(
    alloc: Global,
    program: &P,
    stored: &Master<P>,
    master: &Master<P>,
    moves: u64,
) -> Result<Taken<P>, NoMemory>
    requires program { FitsProgram (P.meaning program.now) (P.fits program.now)
        value_of master.now.vars }
    requires stored { length stored.now.vars ≡ length master.now.vars }
    ensures delta { IfOk result (λ taken. taken.delta ≡ delta_of stored.now master.now) }
    ensures moves { IfOk result (λ taken. taken.moves ≡ moves) }
{
    Ok(Taken {
        delta: master.delta(alloc, program, stored)?,
        moves,
    })
}
