//! The law of the number of members. It is proved, and does nothing: a caller has it by the call.
ghost use Rattle.std.specs.Prelude.{◌≡◌, ◌↔◌, List};
ghost use Rattle.access_log.specs.declared.entry.StampedEntry.{StampedEntry};
ghost use Rattle.access_log.specs.Held.{Lane, held_count};
ghost use Rattle.access_log.specs.Lanes.{IsHeldSet};
ghost use Rattle.access_log.specs.Members.{IsMember, IsNumberOf};

/// The count of a held set is the number of its members, so two held sets with the same members have the same count.
pub fn held_sets_are_counted()
    ensures counted { (held : List Lane) → IsHeldSet held
        → IsNumberOf (IsMember held) (held_count held) }
    ensures same_members { (held other : List Lane) → IsHeldSet held → IsHeldSet other
        → ((e : StampedEntry) → IsMember held e ↔ IsMember other e)
        → held_count held ≡ held_count other }
{}
