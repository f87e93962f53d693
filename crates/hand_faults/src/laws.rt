//! The law of faults of texts. It is proved, and does nothing: a caller has it by the call.
ghost use Rattle.std.specs.Prelude.{◌≡◌, ◌⊎◌, ℕ, List};
ghost use Rattle.recovery_world.specs.World.{Setting};
ghost use Rattle.handover.specs.declared.image.Image.{Image};
ghost use Rattle.handover.specs.Images.{IsImage};
ghost use Rattle.handover_world.specs.Faults.{HasNoFault};
ghost use Rattle.hand_faults.specs.declared.fault.HandFault.{HandFault};
ghost use Rattle.hand_faults.specs.HandFaults.{IsHandFault};

/// A text of a handover is that of an image without a fault, or it has a fault: exactly one of the two, and one fault
/// alone.
pub fn a_text_has_one_hand_fault<X>()
    ensures either { (s : Setting X) (text : List ℕ)
        → ((image : Image) × IsImage text image × HasNoFault s image)
        ⊎ ((fault : HandFault) × IsHandFault s text fault) }
    ensures one { (s : Setting X) (text : List ℕ) (a b : HandFault) → IsHandFault s text a
        → IsHandFault s text b → a ≡ b }
    ensures none { (s : Setting X) (text : List ℕ) (image : Image) (fault : HandFault)
        → IsImage text image → HasNoFault s image → IsHandFault s text fault → ⊥ }
{}
