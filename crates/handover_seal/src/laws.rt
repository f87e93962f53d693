//! The laws of seals. Each is proved, and does nothing: a caller has it by the call.
ghost use Rattle.std.specs.Prelude.{◌≡◌, ◌↔◌, ◌++◌, ◌∷◌, ℕ, List, All, Option, None, Some};
ghost use Rattle.plain_text.specs.declared.packet.Packet.{Packet};
ghost use Rattle.plain_text.specs.declared.packet.Unit.{Unit as TimeUnit};
ghost use Rattle.handover_seal.specs.declared.seal.Seal.{Seal};
ghost use Rattle.handover_seal.specs.Packets.{FitsText, packets_text};
ghost use Rattle.handover_seal.specs.Seals.{IsOfSeal, seal_fault, seal_line, unsealed};

/// What is hashed of packets is that of no others.
pub fn packets_are_told_apart()
    ensures { (a b : TimeUnit) (packets others : List Packet) → All FitsText packets
        → All FitsText others → packets_text a packets ≡ packets_text b others
        → (a ≡ b) × (packets ≡ others) }
{}

/// A sealed text opens to its text, after an empty line.
pub fn sealed_texts_open()
    ensures { (seal : Seal) (text : List ℕ) → unsealed (seal_line seal ++ text) ≡ 10 ∷ text }
{}

/// A text has no fault exactly where it is one of the seal, or neither is sealed.
pub fn texts_are_of_one_seal()
    ensures { (seal : Option Seal) (text : List ℕ)
        → (seal_fault seal text ≡ None) ↔ IsOfSeal seal text }
{}
