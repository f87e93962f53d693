//! The law of the numbers of entries that a master counts. It is proved, and does nothing: a caller has it by the call.
ghost use Rattle.std.specs.Prelude.{◌≡◌, ℕ, ◌≤◌, List, length, sum, slice_index};
ghost use Rattle.plain_text.specs.declared.packet.Packet.{Packet};
ghost use Rattle.entry_order.specs.Log.{entries};
ghost use Rattle.plain_machine.specs.Program.{Meaning};
ghost use Rattle.plain_machine.specs.History.{Step, log_of, IsHistory};
ghost use Rattle.master_core.specs.Mastered.{Mastered};
ghost use Rattle.master_core.specs.MasterStanding.{Stands};
ghost use Rattle.master_core.specs.Deltas.{HasCounts};

/// The counts of entries of a master are those of the log that it stands for, and add up to its length.
pub fn entries_are_counted<X>()
    ensures each { (m : Meaning X) (inputs : ℕ → List Packet) (threads : ℕ) (steps : List (Step X))
        (p : Mastered X) (counts : List ℕ)
        → IsHistory m inputs threads steps → Stands m threads steps p → HasCounts p.threads counts
        → (t : ℕ) → slice_index counts t ≡ entries t (log_of steps) }
    ensures added { (m : Meaning X) (inputs : ℕ → List Packet) (threads : ℕ) (steps : List (Step X))
        (p : Mastered X) (counts : List ℕ)
        → IsHistory m inputs threads steps → Stands m threads steps p → HasCounts p.threads counts
        → threads ≤ length counts → sum counts ≡ length (log_of steps) }
{}
