//! The laws of entries and their order, over every log. Each is proved, and does nothing: a caller has them by the
//! call.
ghost use Rattle.std.specs.Prelude.{◌≡◌, ℕ, ◌+◌, ◌≤◌, ◌<◌, ◌⊎◌, ◌↔◌, List, ◌∷◌, ◌++◌, length, sum};
ghost use Rattle.std.specs.Prelude.{slice_index, IsTrue};
ghost use Rattle.entry_order.specs.declared.what.What.TheVariants.{Access, Read};
ghost use Rattle.entry_order.specs.Log.{Entry, entries, places, IsLog, IsIn, StandsBefore, IsNext};
ghost use Rattle.entry_order.specs.Log.{Precedes, PrecedesOrIs, PrecedesOutput, IsClosed};
ghost use Rattle.entry_order.specs.Stamps.{IsStamp, IsComponent, IsOutputStamp, IsWeight};
ghost use Rattle.entry_order.specs.Stamps.{sum_below, shares, IsJoinBefore, bumped, stamp};
ghost use Rattle.entry_order.specs.Closed.{IsClosedOver, IsClosedPart, IsMissing, IsFirstMissing};
ghost use Rattle.entry_order.specs.Closed.{IsDue, IsFrontier};

/// The entries of each thread have the numbers from 1 to their count, each once, and the touches of each variable the
/// places from 1 to theirs; a read stands after at most all touches of its variable.
pub fn entries_are_numbered()
    ensures within { (log : List Entry) (e : Entry) → IsLog log → IsIn e log
        → (1 ≤ e.number) × (e.number ≤ entries e.thread log) }
    ensures there { (log : List Entry) (t n : ℕ) → IsLog log → 1 ≤ n → n ≤ entries t log
        → (e : Entry) × IsIn e log × (e.thread ≡ t) × (e.number ≡ n) }
    ensures once { (log : List Entry) (e f : Entry) → IsLog log → IsIn e log → IsIn f log
        → e.thread ≡ f.thread → e.number ≡ f.number → e ≡ f }
    ensures place_within { (log : List Entry) (e : Entry) (v s : ℕ) → IsLog log → IsIn e log
        → e.what ≡ Access v s → (1 ≤ s) × (s ≤ places v log) }
    ensures place_there { (log : List Entry) (v s : ℕ) → IsLog log → 1 ≤ s → s ≤ places v log
        → (e : Entry) × IsIn e log × (e.what ≡ Access v s) }
    ensures place_once { (log : List Entry) (e f : Entry) (v s : ℕ) → IsLog log → IsIn e log
        → IsIn f log → e.what ≡ Access v s → f.what ≡ Access v s → e ≡ f }
    ensures read_within { (log : List Entry) (e : Entry) (v s : ℕ) → IsLog log → IsIn e log
        → e.what ≡ Read v s → s ≤ places v log }
{}

/// An entry stands after all that precedes it, and precedes is an order. Of two different entries of one thread one
/// precedes the other, and so of two on one variable, of which at least one is a touch: the one that stands before.
pub fn entries_are_in_order()
    ensures after { (log : List Entry) (e f : Entry) → IsLog log → Precedes log e f
        → StandsBefore log e f }
    ensures chains { (log : List Entry) (e g f : Entry)
        → Precedes log e g → Precedes log g f → Precedes log e f }
    ensures strict { (log : List Entry) (e : Entry) → IsLog log → Precedes log e e → ⊥ }
    ensures of_thread { (log : List Entry) (e f : Entry) → IsLog log → IsIn e log → IsIn f log
        → e.thread ≡ f.thread → (e ≡ f) ⊎ (Precedes log e f ⊎ Precedes log f e) }
    ensures on_variable { (log : List Entry) (e f : Entry) → IsLog log → IsIn e log → IsIn f log
        → IsTrue (shares e.what f.what) → (e ≡ f) ⊎ (Precedes log e f ⊎ Precedes log f e) }
    ensures earlier_of_thread { (log : List Entry) (e f : Entry) → IsLog log → StandsBefore log e f
        → e.thread ≡ f.thread → Precedes log e f }
    ensures earlier_on_variable { (log : List Entry) (e f : Entry) → IsLog log
        → StandsBefore log e f → IsTrue (shares e.what f.what) → Precedes log e f }
{}

/// The same order, told by numbers and places.
pub fn numbers_tell_order()
    ensures of_thread { (log : List Entry) (e f : Entry) → IsLog log → IsIn e log → IsIn f log
        → e.thread ≡ f.thread → e.number < f.number → Precedes log e f }
    ensures of_touches { (log : List Entry) (e f : Entry) (v s r : ℕ) → IsLog log → IsIn e log
        → IsIn f log → e.what ≡ Access v s → f.what ≡ Access v r → s < r → Precedes log e f }
    ensures touch_then_read { (log : List Entry) (e f : Entry) (v s r : ℕ) → IsLog log → IsIn e log
        → IsIn f log → e.what ≡ Access v s → f.what ≡ Read v r → s ≤ r → Precedes log e f }
    ensures read_then_touch { (log : List Entry) (e f : Entry) (v s r : ℕ) → IsLog log → IsIn e log
        → IsIn f log → e.what ≡ Access v s → f.what ≡ Read v r → r < s → Precedes log f e }
{}

/// A closed set that has an entry has all that precedes it: every earlier entry of its thread and, where it is on a
/// variable, every earlier touch of it, and for a touch every earlier read.
pub fn closed_sets_go_back()
    ensures predecessors { (log set : List Entry) (e f : Entry) → IsClosed log set
        → Precedes log e f → IsIn f set → IsIn e set }
    ensures of_thread { (log set : List Entry) (e f : Entry) → IsLog log → IsClosed log set
        → IsIn f set → StandsBefore log e f → e.thread ≡ f.thread → IsIn e set }
    ensures on_variable { (log set : List Entry) (e f : Entry) → IsLog log → IsClosed log set
        → IsIn f set → StandsBefore log e f → IsTrue (shares e.what f.what) → IsIn e set }
{}

/// Each entry has one stamp, which stays its stamp as the log grows, and which covers exactly what precedes it. It is
/// made by joins: the join of the stamps of its immediate predecessors, or of all earlier entries of its thread or on
/// its variable, with its own number in the place of its thread.
pub fn stamps_are_joins()
    ensures there { (log : List Entry) (e : Entry) → IsLog log → IsIn e log
        → (s : ℕ → ℕ) × IsStamp log e s }
    ensures one { (log : List Entry) (e : Entry) (s r : ℕ → ℕ) → IsStamp log e s → IsStamp log e r
        → (u : ℕ) → s u ≡ r u }
    ensures components { (log : List Entry) (e : Entry) (s : ℕ → ℕ)
        → IsStamp log e s ↔ ((u : ℕ) → IsComponent log e u (s u)) }
    ensures covers { (log : List Entry) (e f : Entry) (s : ℕ → ℕ) → IsLog log → IsStamp log e s
        → IsIn f log → (f.number ≤ s f.thread) ↔ PrecedesOrIs log f e }
    ensures stays { (x : Entry) (log : List Entry) (e : Entry) (s : ℕ → ℕ) → IsLog (x ∷ log)
        → IsIn e log → IsStamp log e s → IsStamp (x ∷ log) e s }
    ensures joined { (e : Entry) (earlier : List Entry) (join : ℕ → ℕ) → IsLog (e ∷ earlier)
        → IsJoinBefore earlier e join → IsStamp (e ∷ earlier) e (bumped e join) }
    ensures joined_all { (e : Entry) (earlier : List Entry) → IsLog (e ∷ earlier)
        → IsStamp (e ∷ earlier) e (stamp e earlier) }
    ensures within { (log : List Entry) (e : Entry) (s : ℕ → ℕ) (u : ℕ) → IsLog log
        → IsStamp log e s → s u ≤ entries u log }
{}

/// The weight of an entry is the sum of the components of its stamp, and precedes lowers it.
pub fn weights_are_sums()
    ensures summed { (log : List Entry) (threads : ℕ) (e : Entry) (s : ℕ → ℕ) → IsLog log
        → ((f : Entry) → IsIn f log → f.thread < threads)
        → IsStamp log e s → IsWeight log e (sum_below threads s) }
    ensures one { (log : List Entry) (e : Entry) (n k : ℕ) → IsWeight log e n → IsWeight log e k
        → n ≡ k }
    ensures of_list { (xs : List ℕ) → sum_below (length xs) (λ u. slice_index xs u) ≡ sum xs }
    ensures falls { (log : List Entry) (e f : Entry) (n k : ℕ) → IsLog log → Precedes log e f
        → IsWeight log e n → IsWeight log f k → n < k }
{}

/// The stamp of what a thread sends out after its first n entries is that of entry n, and zero before its first entry.
pub fn outputs_have_stamps()
    ensures last { (log : List Entry) (last : Entry) (s : ℕ → ℕ) → IsLog log → IsIn last log
        → IsOutputStamp log last.thread last.number s ↔ IsStamp log last s }
    ensures none { (log : List Entry) (t : ℕ) (s : ℕ → ℕ) → IsLog log
        → IsOutputStamp log t 0 s ↔ ((u : ℕ) → s u ≡ 0) }
    ensures stays { (x : Entry) (log : List Entry) (t n : ℕ) (e : Entry) → IsLog (x ∷ log)
        → n ≤ entries t log → PrecedesOutput (x ∷ log) t n e ↔ PrecedesOutput log t n e }
{}

/// What is missing, by stamps and frontiers: nothing, exactly where no component of the stamp is above the frontier of
/// its thread; else the named entry is the next one after the frontier, of the least thread whose component is above.
pub fn missing_is_past_frontiers()
    ensures due { (log stored held : List Entry) (t n : ℕ) (s frontier : ℕ → ℕ)
        → IsLog log → IsOutputStamp log t n s → IsFrontier log stored held frontier
        → IsDue log stored held t n ↔ ((u : ℕ) → s u ≤ frontier u) }
    ensures named { (log stored held : List Entry) (t n : ℕ) (s frontier : ℕ → ℕ) (u : ℕ)
        → IsLog log → IsOutputStamp log t n s → IsFrontier log stored held frontier
        → frontier u < s u → ((w : ℕ) → w < u → s w ≤ frontier w)
        → (e : Entry) × IsFirstMissing log stored held t n e × (e.thread ≡ u)
        × (e.number ≡ frontier u + 1) }
    ensures one { (log stored held : List Entry) (t n : ℕ) (e f : Entry) → IsLog log
        → IsFirstMissing log stored held t n e → IsFirstMissing log stored held t n f → e ≡ f }
{}

/// The closed part of the held entries, by stamps and frontiers: those that are stored, or of whose stamp no component
/// is above the frontier. There is one, and it is one set.
pub fn closed_part_is_within_frontiers()
    ensures part { (log stored held part : List Entry) (stamps : Entry → ℕ → ℕ) (frontier : ℕ → ℕ)
        → IsLog log → ((e : Entry) → IsIn e held → IsIn e log)
        → IsClosed log stored → ((e : Entry) → IsIn e stored → IsIn e log)
        → ((e : Entry) → IsIn e log → IsStamp log e (stamps e))
        → IsFrontier log stored held frontier
        → ((e : Entry) → IsIn e part
        → IsIn e held × (IsIn e stored ⊎ ((u : ℕ) → stamps e u ≤ frontier u)))
        → ((e : Entry) → IsIn e held
        → IsIn e stored ⊎ ((u : ℕ) → stamps e u ≤ frontier u) → IsIn e part)
        → IsClosedPart log stored held part }
    ensures there { (log stored held : List Entry)
        → (part : List Entry) × IsClosedPart log stored held part }
    ensures one { (log stored held part other : List Entry)
        → IsClosedPart log stored held part → IsClosedPart log stored held other
        → (e : Entry) → IsIn e part ↔ IsIn e other }
{}

/// The later entries of a log that are in a set which is closed over the past are, in some order, a log after that
/// past.
pub fn closed_sets_go_on()
    ensures { (later past set : List Entry) → IsLog (later ++ past)
        → IsClosedOver (later ++ past) past set
        → (more : List Entry) × IsLog (more ++ past)
        × ((e : Entry) → IsIn e more ↔ (IsIn e later × IsIn e set)) }
{}
