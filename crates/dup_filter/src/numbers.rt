ghost use Rattle.std.specs.Prelude.{◌≡◌, ℕ, ◌<◌, ◌≤◌, ◌↔◌, IsTrue, IsSome, OnOk, OnErr};
ghost use Rattle.std.specs.BTreeMap.{get};
ghost use Rattle.std.specs.Ordering.{nat_cmp};
ghost use Rattle.dup_filter.specs.Numbers.{no_numbers, above_at, IsMarked, HasRoom, IsTight};
ghost use Rattle.dup_filter.specs.Numbers.{IsGreatest};
ghost use Rattle.dup_filter.specs.Numbers.{Marks, KeepsRoom, GivesUpRooms};

use plain_text::NoMemory;
use std::alloc::Global;
use std::collections::BTreeMap;
use std::marker::Model;

/// The numbers of one thread: all are marked up to the floor, and few stand above it.
#[derive(Debug, Drop)]
pub struct Numbers {
    floor: u64,
    greatest: u64,
    above: BTreeMap<u64, bool>,
}

impl Model for Numbers {
    ghost use Rattle.dup_filter.specs.Numbers.{Numbers, AreNumbers};

    ghost Value = { Numbers };

    ghost view = { λ s. record { floor = s.floor; above = s.above.entries } };

    ghost invariant = { λ s. AreNumbers (record {
      floor = s.floor;
      above = s.above.entries;
    }) s.greatest };
}

/// Raises the floor past the marked numbers that follow it, and answers it.
fn raise(from: u64, above: &mut BTreeMap<u64, bool>) -> u64
    requires { (n : ℕ) → IsSome (get nat_cmp above.old n) → from < n }
    ensures past { (n : ℕ) → IsSome (get nat_cmp above.new n) → result < n }
    ensures tight { IsTight (record { floor = result; above = above.new.entries }) }
    ensures marked { (n : ℕ) → IsMarked (record { floor = result; above = above.new.entries }) n
        ↔ IsMarked (record { floor = from; above = above.old.entries }) n }
    ensures room { (n : ℕ) → HasRoom (record { floor = result; above = above.new.entries }) n
        ↔ HasRoom (record { floor = from; above = above.old.entries }) n }
{
    let mut floor = from;
    while let Some((number, marked)) = above.first_key_value() {
        if !*marked || *number - 1 != floor {
            break;
        }
        above.pop_first();
        floor += 1;
    }
    floor
}

impl Numbers {
    /// No numbers. It takes no memory.
    pub fn new(alloc: Global) -> Self
        ensures { result ≡ no_numbers }
    {
        Numbers {
            floor: 0,
            greatest: 0,
            above: BTreeMap::new(alloc),
        }
    }

    /// Whether the number was marked.
    pub fn is_marked(&self, number: u64) -> bool
        ensures { IsTrue result ↔ IsMarked self.now number }
    {
        match self.above.get(&number) {
            Some(marked) => *marked,
            None => 1 <= number && number <= self.floor,
        }
    }

    /// The number up to which all are marked.
    pub fn floor(&self) -> u64
        ensures value { result ≡ self.now.floor }
        ensures tight { IsTight self.now }
    {
        self.floor
    }

    /// Whether room is kept for the number.
    pub fn has_room(&self, number: u64) -> bool
        ensures { IsTrue result ↔ HasRoom self.now number }
    {
        match self.above.get(&number) {
            Some(marked) => !*marked,
            None => false,
        }
    }

    /// The greatest number that was marked; 0 where none was.
    pub fn greatest(&self) -> u64
        ensures { IsGreatest self.now result }
    {
        self.greatest
    }

    /// Marks a number.
    pub fn mark(&mut self, number: u64) -> Result<(), NoMemory>
        requires numbered { 1 ≤ number }
        requires fresh { IsMarked self.old number → ⊥ }
        ensures ok { OnOk result (Marks self.old self.new number) }
        ensures err { OnErr result (self.new ≡ self.old) }
    {
        if self.above.is_empty() && number - 1 == self.floor {
            self.floor = number;
            self.greatest = self.greatest.max(number);
            return Ok(());
        }
        self.above.insert(number, true)?;
        self.floor = raise(self.floor, &mut self.above);
        self.greatest = self.greatest.max(number);
        Ok(())
    }

    /// Marks a number that room is kept for. It takes no memory.
    pub fn mark_in_room(&mut self, number: u64)
        requires { HasRoom self.old number }
        ensures marks { Marks self.old self.new number }
        ensures fresh { IsMarked self.old number → ⊥ }
    {
        let _old = self.above.insert(number, true);
        self.floor = raise(self.floor, &mut self.above);
        self.greatest = self.greatest.max(number);
    }

    /// Keeps room for a number.
    pub fn keep_room(&mut self, number: u64) -> Result<(), NoMemory>
        requires numbered { 1 ≤ number }
        requires fresh { IsMarked self.old number → ⊥ }
        ensures ok { OnOk result (KeepsRoom self.old self.new number) }
        ensures err { OnErr result (self.new ≡ self.old) }
    {
        self.above.insert(number, false)?;
        Ok(())
    }

    /// Keeps no room any more. It takes no memory.
    pub fn give_up_rooms(&mut self)
        ensures { GivesUpRooms self.old self.new }
    {
        self.above.retain(|_, marked| *marked);
    }
}
