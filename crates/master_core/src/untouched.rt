//! The law of what stays where no touch is made. It is proved, and does nothing: a caller has it by the call.
ghost use Rattle.std.specs.Prelude.{◌≡◌, ℕ, List, slice_index};
ghost use Rattle.plain_text.specs.declared.packet.Packet.{Packet};
ghost use Rattle.entry_order.specs.Log.{places};
ghost use Rattle.plain_machine.specs.Program.{Meaning};
ghost use Rattle.plain_machine.specs.History.{Step, log_of, value_after, IsHistory};
ghost use Rattle.plain_machine.specs.Agree.{IsEarlier};
ghost use Rattle.master_core.specs.Stamped.{IsTouchStamp};

/// Only a touch changes a value: a variable that was touched no more often at a later moment has the same value, and
/// the same stamp of its last touch.
pub fn untouched_variables_stay<X>()
    ensures value { (m : Meaning X) (v : ℕ) (earlier later : List (Step X))
        → IsEarlier earlier later → places v (log_of earlier) ≡ places v (log_of later)
        → value_after m earlier v ≡ value_after m later v }
    ensures stamp { (m : Meaning X) (inputs : ℕ → List Packet) (threads v : ℕ)
        (earlier later : List (Step X)) (s r : ℕ → ℕ)
        → IsHistory m inputs threads later → IsEarlier earlier later
        → places v (log_of earlier) ≡ places v (log_of later)
        → IsTouchStamp (log_of earlier) v s → IsTouchStamp (log_of later) v r
        → (u : ℕ) → s u ≡ r u }
{}
