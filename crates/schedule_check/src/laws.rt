//! The law of matching. It is proved, and does nothing: a caller has it by the call.
ghost use Rattle.std.specs.Prelude.{◌≡◌, ◌⊎◌, ℕ, List};
ghost use Rattle.plain_text.specs.declared.packet.Packet.{Packet};
ghost use Rattle.plain_text.specs.declared.packet.Unit.{Unit as FractionUnit};
ghost use Rattle.plain_machine.specs.declared.emission.Emission.{Emission};
ghost use Rattle.schedule_check.specs.Unmatched.{FirstUnmatched};
ghost use Rattle.recovery_world.specs.Matching.{IsMatched};

/// Packets are matched by emissions, or one packet is the first unmatched: exactly one of the two.
pub fn packets_are_matched_or_one_is_the_first_unmatched()
    ensures either { (u v : FractionUnit) (packets : List Packet) (sent : List Emission)
        → IsMatched u packets v sent ⊎ ((i : ℕ) × FirstUnmatched u packets v sent i) }
    ensures not_both { (u v : FractionUnit) (packets : List Packet) (sent : List Emission) (i : ℕ)
        → IsMatched u packets v sent → FirstUnmatched u packets v sent i → ⊥ }
    ensures one { (u v : FractionUnit) (packets : List Packet) (sent : List Emission) (i j : ℕ)
        → FirstUnmatched u packets v sent i → FirstUnmatched u packets v sent j → i ≡ j }
{}
