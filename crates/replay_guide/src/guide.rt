ghost use Rattle.std.specs.Prelude.{◌≡◌, ℕ, ◌+◌, ◌↔◌, [], IfOk, IfSome, IfNone, IsSome, IsTrue};
ghost use Rattle.std.specs.Prelude.{false, map, option_copied};
ghost use Rattle.std.specs.List.Sorted.{IsStrictlySortedBy};
ghost use Rattle.entry_order.specs.declared.what.What.TheVariants as what_of;
ghost use Rattle.access_log.specs.declared.entry.Turn.TheVariants as turn_of;
ghost use Rattle.access_log.specs.Held.{lane, entry_at};
ghost use Rattle.access_log.specs.Lanes.{IsHeldSet};
ghost use Rattle.replay_guide.specs.Following.{Follows, CanBeFollowed, recorded};
ghost use Rattle.replay_guide.specs.Turns.{WaitsFor, IsFollowed, IsFree, IsFirstPending};
ghost use Rattle.replay_guide.specs.Turns.{NoneIsPending};
ghost use Rattle.replay_guide.specs.Walks.{IsTurn, weighed_cmp};
ghost use Rattle.replay_guide.specs.Orders.{IsNamed, IsInOrder};

use crate::index::Index;
use crate::lane::FollowedLane;
use access_log::{Held, StampedEntry, Turn, What};
use plain_text::{NoMemory, Sequence};
use std::alloc::Global;
use std::collections::BTreeSet;
use std::marker::Model;
use thread_clock::Stamp;

/// Log entries by thread and number, the one that can be made first first.
pub type Order = Sequence<(u32, u64)>;

/// The log entries that a master must make as they are recorded, of at most 16 threads. Contracts see a guide as the
/// list of its lanes, as they do the held set whose entries it follows.
#[derive(Debug, Drop)]
pub struct Guide {
    lanes: Vec<FollowedLane>,
    index: Index,
}

impl Model for Guide {
    ghost use Rattle.std.specs.Prelude.{List};
    ghost use Rattle.access_log.specs.Held.{Lane};

    ghost Value = { List Lane };

    ghost use Rattle.replay_guide.specs.Walks.{IsGuide};

    ghost view = { λ g. g.lanes.items };

    ghost invariant = { λ g. IsGuide g.lanes.items g.index.touches.entries g.index.reads.keys };
}

/// The threads and numbers of weighed entries, in their order.
fn names_of(alloc: Global, weighed: &BTreeSet<(u64, u32, u64)>) -> Result<Order, NoMemory>
    ensures names { IfOk result (λ order. order ≡ map (λ k. (k.1, k.2)) weighed.now.keys) }
    ensures sorted { IsStrictlySortedBy weighed_cmp weighed.now.keys }
{
    let _sorted = weighed.len();
    let mut order = Order::new(alloc);
    for (_, thread, number) in weighed {
        order.push((*thread, *number))?;
    }
    Ok(order)
}

impl Guide {
    /// A guide that follows nothing. It takes no memory.
    pub fn none(alloc: Global) -> Self
        ensures { result ≡ [] }
    {
        Guide {
            lanes: Vec::new(alloc),
            index: Index::new(alloc),
        }
    }

    /// A guide that follows the entries that are held and not covered.
    pub fn of(alloc: Global, followed: &Held) -> Result<Self, NoMemory>
        requires { CanBeFollowed followed.now }
        ensures { IfOk result (λ guide. (t : ℕ) → lane guide t ≡ lane followed.now t) }
    {
        let mut lanes = Vec::with_capacity(alloc, 16)?;
        let mut index = Index::new(alloc);
        for thread in 0..16 {
            lanes.push(FollowedLane::of(alloc, followed, thread, &mut index)?)?;
        }
        followed.is_held_set();
        Ok(Guide { lanes, index })
    }

    /// What is true of every guide. It does nothing: a caller has it by the call.
    pub fn is_held_set(&self)
        ensures { IsHeldSet self.now }
    {
        let _lanes = &self.lanes;
    }

    /// The followed entry of this thread and number, if there is one.
    pub fn get(&self, thread: u32, number: u64) -> Option<&StampedEntry>
        ensures value { option_copied result ≡ entry_at (lane self.now thread) number }
        ensures named { IfSome result (λ e. (e.now.thread ≡ thread) × (e.now.number ≡ number)) }
    {
        self.lanes.get(thread as usize)?.get(number)
    }

    /// Whether a thread may make the touch that it wants, or the read, as its entry of this number.
    ///
    /// `places` is how often the variable was touched, and `readers` the join of the stamps of its reads since. A
    /// followed read at its place goes ahead. Else a touch waits for the followed reads of the variable as it is now
    /// that are not made yet, the one of the least thread and number first; and both wait for the followed touch that
    /// is next, unless it is their own.
    ///
    /// It takes no memory. Where all that is followed of the variable stands at lesser places, one look tells. Else its
    /// time grows with the number of threads, and with the logarithm of the number of followed entries.
    pub fn turn(
        &self,
        thread: u32,
        number: u64,
        var: u32,
        read: bool,
        places: u64,
        readers: &Stamp,
    ) -> Turn
        ensures wait { (u m : ℕ) → (result ≡ turn_of.Wait u m)
            ↔ WaitsFor self.now thread number var read places readers.now u m }
        ensures follow { (result ≡ turn_of.Follow)
            ↔ IsFollowed self.now thread number var read places readers.now }
        ensures free { (result ≡ turn_of.Free)
            ↔ IsFree self.now thread number var read places readers.now }
    {
        let _lanes = &self.lanes;
        self.find_turn(thread, number, var, read, places, readers)
    }

    /// The turn, by the first rule that applies.
    fn find_turn(
        &self,
        thread: u32,
        number: u64,
        var: u32,
        read: bool,
        places: u64,
        readers: &Stamp,
    ) -> Turn
        ensures { IsTurn self.now thread number var read places readers.now result }
    {
        // Most moves are past all that is followed of their variable.
        if self.index.is_past(var, places) {
            return Turn::Free;
        }
        if self.follows_read(thread, number, var, places) {
            return Turn::Follow;
        }
        if let Some((thread, number)) = self.first_pending(var, read, places, readers) {
            return Turn::Wait { thread, number };
        }
        let Some(next) = self.next_touch(var, places) else {
            return Turn::Free;
        };
        if next == (thread, number) {
            return Turn::Follow;
        }
        Turn::Wait {
            thread: next.0,
            number: next.1,
        }
    }

    /// Whether the followed entry is a read of the variable after this number of touches.
    fn follows_read(&self, thread: u32, number: u64, var: u32, places: u64) -> bool
        ensures { IsTrue result ↔ Follows self.now thread number (what_of.Read var places) }
    {
        match self.get(thread, number) {
            Some(entry) => entry.what == What::Read { var, after: places },
            None => false,
        }
    }

    /// The first of the followed reads that the move waits for.
    fn first_pending(
        &self,
        var: u32,
        read: bool,
        places: u64,
        readers: &Stamp,
    ) -> Option<(u32, u64)>
        ensures some { IfSome result (λ x. (read ≡ false)
            × IsFirstPending self.now var places readers.now x.0 x.1) }
        ensures none { IfNone result (NoneIsPending self.now var read places readers.now) }
    {
        if read {
            return None;
        }
        self.index.first_read_past(var, places, readers)
    }

    /// The followed touch that is next on the variable.
    fn next_touch(&self, var: u32, places: u64) -> Option<(u32, u64)>
        ensures some { IfSome result (λ x.
            Follows self.now x.0 x.1 (what_of.Access var (places + 1))) }
        ensures none { IfNone result ((u m : ℕ)
            → Follows self.now u m (what_of.Access var (places + 1)) → ⊥) }
    {
        self.index.touch_after(var, places)
    }

    /// The clock or the random word that the followed entry was told; `None` exactly where the entry is not followed,
    /// or is a touch or a read.
    pub fn answer(&self, thread: u32, number: u64) -> Option<u64>
        ensures { result ≡ recorded (entry_at (lane self.now thread) number) }
    {
        match self.get(thread, number)?.what {
            What::Clock(answer) | What::Draw(answer) => Some(answer),
            What::Access { .. } | What::Read { .. } => None,
        }
    }

    /// The followed entries in an order in which they can all be made: by weight, which is the sum of the stamp, then
    /// by thread, then by number.
    pub fn order(&self, alloc: Global) -> Result<Order, NoMemory>
        ensures each { IfOk result (λ order. (t n : ℕ) → IsNamed t n order
            ↔ IsSome (entry_at (lane self.now t) n)) }
        ensures in_order { IfOk result (λ order. IsInOrder self.now order) }
    {
        let mut weighed = BTreeSet::new(alloc);
        for i in 0..self.lanes.len() {
            self.lanes[i].weigh(&mut weighed)?;
        }
        names_of(alloc, &weighed)
    }
}
