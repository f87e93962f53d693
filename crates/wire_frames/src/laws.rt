//! The laws of frames. Each is proved, and does nothing.
ghost use Rattle.std.specs.Prelude.{◌≡◌, ℕ, ◌/◌, ◌%◌, ◌^◌, ◌<◌, ◌==◌, if◌then◌else◌, List, ◌++◌};
ghost use Rattle.std.specs.Prelude.{length, take, slice_index, None};
ghost use Rattle.plain_text.specs.Octets.{AreBytes};
ghost use Rattle.wire_frames.specs.declared.version.Version.TheVariants.{Two};
ghost use Rattle.wire_frames.specs.declared.frame.Frame.{Frame};
ghost use Rattle.wire_frames.specs.Faults.{frame_fault};
ghost use Rattle.wire_frames.specs.Layout.{mask_of, written, IsOfRange, IsFrame, BeginsWith};

/// In the mask of a stamp the bit of value 2^u is set exactly where component u is not 0.
pub fn the_mask_names_what_is_not_0()
    ensures { (stamp : List ℕ) (u : ℕ)
        → mask_of stamp / 2 ^ u % 2 ≡ (if slice_index stamp u == 0 then 0 else 1) }
{}

/// Bytes begin with at most one frame.
pub fn one_frame()
    ensures { (bytes : List ℕ) (f g : Frame) (n m : ℕ)
        → BeginsWith bytes f n → BeginsWith bytes g m → (f ≡ g) × (n ≡ m) }
{}

/// No frame begins another: what begins a frame and is shorter is no frame.
pub fn no_frame_begins_another()
    ensures { (bytes : List ℕ) (f g : Frame) (n : ℕ)
        → IsFrame bytes f → n < length bytes → IsFrame (take n bytes) g → ⊥ }
{}

/// Every test passes exactly where bytes begin with a frame.
pub fn the_tests_are_those_of_frames()
    ensures none { (bytes : List ℕ) (f : Frame) (n : ℕ)
        → BeginsWith bytes f n → frame_fault bytes ≡ None }
    ensures frame { (bytes : List ℕ) → AreBytes bytes → frame_fault bytes ≡ None
        → (f : Frame) × (n : ℕ) × BeginsWith bytes f n }
{}

/// What is written of a value that is in range is a frame of it, whatever follows.
pub fn what_is_written_is_a_frame()
    ensures whole { (f : Frame) → IsOfRange Two f → IsFrame (written f) f }
    ensures front { (f : Frame) (rest : List ℕ) → IsOfRange Two f
        → BeginsWith (written f ++ rest) f (length (written f)) }
{}
