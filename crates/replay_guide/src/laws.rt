//! The laws of a guide in a world. Each is proved, and does nothing: a caller has it by the call.
ghost use Rattle.std.specs.Prelude.{◌≡◌, ℕ, ◌+◌, ◌<◌, ◌⊎◌, ◌↔◌, true, false, List, Option, Some};
ghost use Rattle.std.specs.Prelude.{None, IsSome, slice_index};
ghost use Rattle.entry_order.specs.Log.{Entry, entries, places, IsLog, IsIn};
ghost use Rattle.entry_order.specs.Closed.{IsClosedOver};
ghost use Rattle.plain_machine.specs.declared.local.Move.TheVariants as move;
ghost use Rattle.plain_machine.specs.Machine.{Hand};
ghost use Rattle.plain_machine.specs.History.{log_of, thread_after};
ghost use Rattle.recovery_laws.specs.FromPlainMachine.{IsByWeight};
ghost use Rattle.access_log.specs.Held.{Lane, lane, entry_at};
ghost use Rattle.master_core.specs.Holding.{held_entries, HoldsOf};
ghost use Rattle.master_core.specs.Stamped.{IsReadersStamp};
ghost use Rattle.recovery_laws.specs.FromRecoveryWorld.{Setting, World};
ghost use Rattle.recovery_laws.specs.FromRecoveryWorld.{Awaits, HasTurn, TellsClock, TellsDraw};
ghost use Rattle.recovery_laws.specs.Sound.{Sound};
ghost use Rattle.replay_guide.specs.Following.{CanBeFollowed, recorded};
ghost use Rattle.replay_guide.specs.Turns.{WaitsFor};
ghost use Rattle.replay_guide.specs.Orders.{IsNamed, IsInOrder};
ghost use Rattle.replay_guide.specs.Worlds.{Guides, entries_named};

/// A held set of a log can be followed where its entries are closed over the stored ones.
pub fn closed_parts_can_be_followed()
    ensures { (log stored : List Entry) (held : List Lane) → IsLog log → IsLog stored
        → HoldsOf log stored held → IsClosedOver log stored (held_entries held)
        → CanBeFollowed held }
{}

/// A new master begins at the stored snapshot. There the guide that follows what is held follows exactly what the
/// master must follow, of what the past does not have, if the held entries are those that it must follow and are not
/// stored. It stays so as the past grows.
pub fn guides_follow_the_world()
    ensures begins { (log stored followed : List Entry) (held guide : List Lane)
        → HoldsOf log stored held → ((t : ℕ) → lane guide t ≡ lane held t)
        → ((e : Entry) → (IsIn e stored → ⊥) → IsIn e followed ↔ IsIn e (held_entries held))
        → Guides followed stored guide }
    ensures goes_on { (followed past next : List Entry) (guide : List Lane)
        → Guides followed past guide → ((e : Entry) → IsIn e past → IsIn e next)
        → Guides followed next guide }
{}

/// The turn is that of the world: with the places and the readers' stamp of the past, the guide says to wait exactly
/// for the entry that the thread awaits there, and else the thread has its turn.
pub fn turns_are_those_of_the_world<X>()
    ensures touch { (s : Setting X) (w : World X) (guide : List Lane) (t v : ℕ) (readers : List ℕ)
        (u m : ℕ) → Sound s w → Guides w.followed (log_of w.past) guide
        → IsReadersStamp (log_of w.past) v (λ x. slice_index readers x)
        → WaitsFor guide t (entries t (log_of w.past) + 1) v false
        (places v (log_of w.past)) readers u m
        ↔ ((e : Entry) × Awaits w.followed (log_of w.past) t (move.Access v) e
        × (e.thread ≡ u) × (e.number ≡ m)) }
    ensures read { (s : Setting X) (w : World X) (guide : List Lane) (t v : ℕ) (readers : List ℕ)
        (u m : ℕ) → Sound s w → Guides w.followed (log_of w.past) guide
        → IsReadersStamp (log_of w.past) v (λ x. slice_index readers x)
        → WaitsFor guide t (entries t (log_of w.past) + 1) v true
        (places v (log_of w.past)) readers u m
        ↔ ((e : Entry) × Awaits w.followed (log_of w.past) t (move.Read v) e
        × (e.thread ≡ u) × (e.number ≡ m)) }
    ensures touch_goes { (s : Setting X) (w : World X) (guide : List Lane) (t v : ℕ)
        (readers : List ℕ) → Sound s w → Guides w.followed (log_of w.past) guide
        → IsReadersStamp (log_of w.past) v (λ x. slice_index readers x)
        → ((u m : ℕ) → WaitsFor guide t (entries t (log_of w.past) + 1) v false
        (places v (log_of w.past)) readers u m → ⊥)
        → HasTurn w.followed (log_of w.past) t (move.Access v) }
    ensures read_goes { (s : Setting X) (w : World X) (guide : List Lane) (t v : ℕ)
        (readers : List ℕ) → Sound s w → Guides w.followed (log_of w.past) guide
        → IsReadersStamp (log_of w.past) v (λ x. slice_index readers x)
        → ((u m : ℕ) → WaitsFor guide t (entries t (log_of w.past) + 1) v true
        (places v (log_of w.past)) readers u m → ⊥)
        → HasTurn w.followed (log_of w.past) t (move.Read v) }
{}

/// What the guide answers is what the world tells: where the thread asks for a clock or a draw next, the recorded
/// value; and where nothing is recorded, a free one.
pub fn answers_are_those_of_the_world<X>()
    ensures clock { (s : Setting X) (w : World X) (guide : List Lane) (t a : ℕ) (h : Hand)
        (given : Option ℕ) (clock : ℕ) → Sound s w → Guides w.followed (log_of w.past) guide
        → (thread_after w.past t).hand ≡ Some h → s.meaning.next h.place ≡ move.Clock
        → recorded (entry_at (lane guide t) (entries t (log_of w.past) + 1)) ≡ Some a
        → TellsClock w.followed (log_of w.past) t given clock a }
    ensures draw { (s : Setting X) (w : World X) (guide : List Lane) (t a : ℕ) (h : Hand)
        (given : Option ℕ) (words : ℕ → ℕ) (drawn : ℕ) → Sound s w
        → Guides w.followed (log_of w.past) guide
        → (thread_after w.past t).hand ≡ Some h → s.meaning.next h.place ≡ move.Draw
        → recorded (entry_at (lane guide t) (entries t (log_of w.past) + 1)) ≡ Some a
        → TellsDraw w.followed (log_of w.past) t given words drawn a drawn }
    ensures free_clock { (s : Setting X) (w : World X) (guide : List Lane) (t a : ℕ)
        (given : Option ℕ) (clock : ℕ) → Sound s w → Guides w.followed (log_of w.past) guide
        → recorded (entry_at (lane guide t) (entries t (log_of w.past) + 1)) ≡ None
        → (given ≡ Some a) ⊎ ((given ≡ None) × (a ≡ clock))
        → TellsClock w.followed (log_of w.past) t given clock a }
    ensures free_draw { (s : Setting X) (w : World X) (guide : List Lane) (t a : ℕ)
        (given : Option ℕ) (words : ℕ → ℕ) (drawn now : ℕ) → Sound s w
        → Guides w.followed (log_of w.past) guide
        → recorded (entry_at (lane guide t) (entries t (log_of w.past) + 1)) ≡ None
        → ((given ≡ Some a) × (now ≡ drawn))
        ⊎ ((given ≡ None) × (a ≡ words drawn) × (now ≡ drawn + 1))
        → TellsDraw w.followed (log_of w.past) t given words drawn a now }
{}

/// The entries of an order, or of some names in its order, stand by weight, then thread, in the log that they are of.
/// The names of all followed entries name exactly these.
pub fn orders_are_by_weight()
    ensures by_weight { (log stored : List Entry) (guide : List Lane) (names : List (ℕ × ℕ))
        → IsLog log → ((e : Entry) → IsIn e log → e.thread < 16) → HoldsOf log stored guide
        → IsInOrder guide names → IsByWeight log (entries_named guide names) }
    ensures all { (guide : List Lane) (names : List (ℕ × ℕ)) (e : Entry)
        → ((t n : ℕ) → IsNamed t n names ↔ IsSome (entry_at (lane guide t) n))
        → IsIn e (entries_named guide names) ↔ IsIn e (held_entries guide) }
{}
