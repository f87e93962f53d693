//! The laws of a held set in a run, for every program and every legal list of moves. Each is proved, and does nothing:
//! a caller has them by the call.
ghost use Rattle.std.specs.Prelude.{◌≡◌, ◌≢◌, ℕ, ◌≤◌, ◌<◌, ◌↔◌, ◌⊎◌, List, [], ◌∷◌, Some, length};
ghost use Rattle.std.specs.Prelude.{replicate, slice_index};
ghost use Rattle.plain_text.specs.declared.packet.Packet.{Packet};
ghost use Rattle.entry_order.specs.Log.{Entry, entries, IsIn};
ghost use Rattle.entry_order.specs.Stamps.{IsStamp, IsOutputStamp};
ghost use Rattle.entry_order.specs.Closed.{IsClosedPart, IsDue, IsFirstMissing as IsFirstMissingOf};
ghost use Rattle.plain_machine.specs.Program.{Meaning};
ghost use Rattle.plain_machine.specs.History.{Step, log_of, IsHistory};
ghost use Rattle.plain_machine.specs.Agree.{IsEarlier};
ghost use Rattle.access_log.specs.declared.entry.StampedEntry.{StampedEntry};
ghost use Rattle.access_log.specs.Held.{Lane, lane, entry_at, fresh_lane, IsKnown, IsWithin};
ghost use Rattle.access_log.specs.Held.{IsFirstMissing};
ghost use Rattle.access_log.specs.Lanes.{PutsEntry, CoversUpTo};
ghost use Rattle.master_core.specs.Holding.{held_entries, HoldsOf};
ghost use Rattle.master_core.specs.Stepping.{plain_entry};

/// The held entries are those that some lane holds under some number. In a held set of a log these are the lane of the
/// entry's thread and the entry's own number.
pub fn held_entries_are_looked_up()
    ensures looked_up { (held : List Lane) (e : Entry) → IsIn e (held_entries held)
        ↔ ((t n : ℕ) × (s : StampedEntry) × (entry_at (lane held t) n ≡ Some s)
        × (plain_entry s ≡ e)) }
    ensures of_log { (log stored : List Entry) (held : List Lane) (e : Entry)
        → HoldsOf log stored held
        → IsIn e (held_entries held)
        ↔ ((s : StampedEntry) × (entry_at (lane held e.thread) e.number ≡ Some s)
        × (plain_entry s ≡ e)) }
{}

/// Fresh lanes are a held set of any log while nothing is stored, and hold no entry.
pub fn fresh_lanes_hold_nothing()
    ensures holds { (log : List Entry) (threads : ℕ)
        → HoldsOf log [] (replicate threads fresh_lane) }
    ensures none { (threads : ℕ) (e : Entry)
        → IsIn e (held_entries (replicate threads fresh_lane)) → ⊥ }
{}

/// An entry of the log is known to its lane exactly where it is held or stored.
pub fn known_is_held_or_stored<X>()
    ensures { (m : Meaning X) (inputs : ℕ
        → List Packet) (threads : ℕ) (steps earlier : List (Step X))
        (held : List Lane) (e : Entry)
        → IsHistory m inputs threads steps → IsEarlier earlier steps
        → HoldsOf (log_of steps) (log_of earlier) held → IsIn e (log_of steps)
        → IsKnown (lane held e.thread) e.number ↔ (IsIn e (held_entries held)
        ⊎ IsIn e (log_of earlier)) }
{}

/// Nothing is missing, by the order of the log, for what a thread sends out after its first n entries, exactly where
/// its stamp is within the held set: no component is above the frontier of its thread. Where one is, the thread and
/// number that the held set names are those of the first missing entry.
pub fn missing_is_defined<X>()
    ensures due { (m : Meaning X) (inputs : ℕ
        → List Packet) (threads : ℕ) (steps earlier : List (Step X))
        (held : List Lane) (t n : ℕ) (stamp : List ℕ)
        → IsHistory m inputs threads steps → IsEarlier earlier steps
        → HoldsOf (log_of steps) (log_of earlier) held
        → IsOutputStamp (log_of steps) t n (λ u. slice_index stamp u)
        → IsWithin held stamp ↔ IsDue (log_of steps) (log_of earlier) (held_entries held) t n }
    ensures named { (m : Meaning X) (inputs : ℕ
        → List Packet) (threads : ℕ) (steps earlier : List (Step X))
        (held : List Lane) (t n : ℕ) (stamp : List ℕ) (u k : ℕ)
        → IsHistory m inputs threads steps → IsEarlier earlier steps
        → HoldsOf (log_of steps) (log_of earlier) held
        → IsOutputStamp (log_of steps) t n (λ u. slice_index stamp u)
        → IsFirstMissing held stamp u k
        → (e : Entry) × IsFirstMissingOf (log_of steps) (log_of earlier) (held_entries held) t n e
        × (e.thread ≡ u) × (e.number ≡ k) }
{}

/// The held entries whose stamps are within the held set are its closed part, by the order of the log. With the same
/// entries covered they are a held set of that log.
pub fn closed_part_is_defined<X>()
    ensures part { (m : Meaning X) (inputs : ℕ
        → List Packet) (threads : ℕ) (steps earlier : List (Step X))
        (held new : List Lane)
        → IsHistory m inputs threads steps → IsEarlier earlier steps
        → HoldsOf (log_of steps) (log_of earlier) held
        → ((t n : ℕ) (e : StampedEntry) → (entry_at (lane new t) n ≡ Some e)
        ↔ ((entry_at (lane held t) n ≡ Some e) × IsWithin held e.stamp))
        → IsClosedPart (log_of steps) (log_of earlier) (held_entries held) (held_entries new) }
    ensures holds { (log stored : List Entry) (held new : List Lane) → HoldsOf log stored held
        → ((t n : ℕ) (e : StampedEntry) → (entry_at (lane new t) n ≡ Some e)
        ↔ ((entry_at (lane held t) n ≡ Some e) × IsWithin held e.stamp))
        → ((t : ℕ) → (lane new t).covered ≡ (lane held t).covered)
        → HoldsOf log stored new }
{}

/// Once each lane covers as many entries as its thread has at a later stored moment, the held set is one over that
/// moment, and holds what it held except what is stored then. It is enough to cover the lanes that there are, where
/// each thread has one; the counts never fall.
pub fn covering_a_later_moment<X>()
    ensures holds { (log stored later : List Entry) (held new : List Lane) → HoldsOf log stored held
        → ((t : ℕ) → CoversUpTo (lane held t) (lane new t) (entries t later))
        → HoldsOf log later new }
    ensures each_lane { (m : Meaning X) (inputs : ℕ
        → List Packet) (threads : ℕ) (later : List (Step X))
        (held new : List Lane) (counts : List ℕ)
        → IsHistory m inputs threads later → threads ≤ length held → length new ≡ length held
        → ((t : ℕ) → t < length held → slice_index counts t ≡ entries t (log_of later))
        → ((t : ℕ) → t < length held → CoversUpTo (lane held t) (lane new t) (slice_index counts t))
        → (t : ℕ) → CoversUpTo (lane held t) (lane new t) (entries t (log_of later)) }
    ensures rising { (log : List Entry) (later earlier : List (Step X)) (held : List Lane) (t : ℕ)
        → IsEarlier earlier later → HoldsOf log (log_of earlier) held
        → (lane held t).covered ≤ entries t (log_of later) }
    ensures still_held { (m : Meaning X) (inputs : ℕ
        → List Packet) (threads : ℕ) (steps later : List (Step X))
        (stored : List Entry) (held new : List Lane) (e : Entry)
        → IsHistory m inputs threads steps → IsEarlier later steps
        → HoldsOf (log_of steps) stored held
        → ((t : ℕ) → CoversUpTo (lane held t) (lane new t) (entries t (log_of later)))
        → IsIn e (held_entries new) ↔ (IsIn e (held_entries held) × (IsIn e (log_of later) → ⊥)) }
{}

/// With one more entry of the log, put into the lane of its thread with its stamp, the held set is one of the same log,
/// and holds that entry and what it held. A held set of a log is one of the log as it grows, by a step or by many.
pub fn holding_one_more<X>()
    ensures holds { (log stored : List Entry) (held new : List Lane) (e : StampedEntry)
        → HoldsOf log stored held
        → IsIn (plain_entry e) log → IsStamp log (plain_entry e) (λ u. slice_index e.stamp u)
        → PutsEntry (lane held e.thread) (lane new e.thread) e.number e
        → ((t : ℕ) → t ≢ e.thread → lane new t ≡ lane held t)
        → HoldsOf log stored new }
    ensures now_held { (m : Meaning X) (inputs : ℕ
        → List Packet) (threads : ℕ) (steps : List (Step X))
        (stored : List Entry) (held new : List Lane) (e : StampedEntry) (f : Entry)
        → IsHistory m inputs threads steps → HoldsOf (log_of steps) stored held
        → IsIn (plain_entry e) (log_of steps)
        → PutsEntry (lane held e.thread) (lane new e.thread) e.number e
        → ((t : ℕ) → t ≢ e.thread → lane new t ≡ lane held t)
        → IsIn f (held_entries new) ↔ ((plain_entry e ≡ f) ⊎ IsIn f (held_entries held)) }
    ensures grows_by_step { (m : Meaning X) (inputs : ℕ → List Packet) (threads : ℕ) (x : Step X)
        (steps : List (Step X)) (stored : List Entry) (held : List Lane)
        → IsHistory m inputs threads (x ∷ steps) → HoldsOf (log_of steps) stored held
        → HoldsOf (log_of (x ∷ steps)) stored held }
    ensures grows { (m : Meaning X) (inputs : ℕ
        → List Packet) (threads : ℕ) (now steps : List (Step X))
        (stored : List Entry) (held : List Lane)
        → IsHistory m inputs threads steps → IsEarlier now steps → HoldsOf (log_of now) stored held
        → HoldsOf (log_of steps) stored held }
{}
