//! While threads move, log entries may arrive as soon as they are made. The law is proved, and does nothing: a caller
//! has it by the call.
#![tactic(auto)]

ghost use Rattle.std.specs.Prelude.{ℕ, List};
ghost use Rattle.entry_order.specs.Log.{Entry, IsIn};
ghost use Rattle.plain_machine.specs.History.{log_of};
ghost use Rattle.plain_text.specs.declared.limit.Limit.{Limit};
ghost use Rattle.recovery_world.specs.declared.event.Event.{Event};
ghost use Rattle.recovery_world.specs.declared.event.Event.TheVariants.{Log};
ghost use Rattle.recovery_world.specs.declared.event.Outcome.{Outcome};
ghost use Rattle.recovery_world.specs.World.{Setting, Sent, World};
ghost use Rattle.recovery_world.specs.Events.{IsKnown};
ghost use Rattle.recovery_world.specs.Limits.{OnWithin, Passes};
ghost use Rattle.recovery_laws.specs.Sound.{Sound};
ghost use Rattle.early_arrivals.specs.Early.{IsEarly, IsSameSet, IsMoving, MayArrive};
ghost use Rattle.early_arrivals.specs.Early.{GoesBehind, LogsBehind};

/// While threads move and packets come in, entries may arrive as soon as they are made. A world
/// where some did goes on just as the one where none did, stops at the same limits, and releases the
/// same outputs when the entries arrive at last. Once each entry of the past is known, the two
/// differ in the order of the held set alone.
pub fn entries_may_arrive_at_once<X>()
    ensures begins { (w : World X) → IsEarly w w }
    ensures moves { (s : Setting X) (w early next new : World X) (ev : Event) (to : Outcome)
        (freed : List Sent) → Sound s w → Sound s early → IsEarly w early → IsMoving ev
        → OnWithin s early ev to freed next → MayArrive s early next new
        → GoesBehind s w ev to freed new }
    ensures stops { (s : Setting X) (w early : World X) (ev : Event) (limit : Limit) → Sound s w
        → IsEarly w early → IsMoving ev → Passes s early ev limit → Passes s w ev limit }
    ensures arrives { (s : Setting X) (w early new : World X) (t n : ℕ) (to : Outcome)
        (freed : List Sent) → Sound s w → Sound s early → IsEarly w early
        → OnWithin s early (Log t n) to freed new → LogsBehind s w t n freed new }
    ensures ends { (w early : World X) → IsEarly w early
        → ((e : Entry) → IsIn e (log_of w.past) → IsKnown w e) → IsSameSet w early }
{}
