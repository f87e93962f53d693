//! The laws of a box that looks through tags. Each is proved, and does nothing: a caller has them by the call.
ghost use Rattle.std.specs.Prelude.{◌≡◌, ℕ, ◌+◌, Bool, false, List, take, Some, slice_get};
ghost use Rattle.plain_text.specs.declared.packet.Packet.{Packet};
ghost use Rattle.packet_headers.specs.Fields.{AreBytes};
ghost use Rattle.tagged_frames.specs.Tags.{tag_length, behind_tag};
ghost use Rattle.plain_machine.specs.declared.local.Local.{Local};
ghost use Rattle.plain_machine.specs.declared.plain_move.PlainMove.{PlainMove};
ghost use Rattle.plain_machine.specs.Program.{Meaning, IsLawful};
ghost use Rattle.plain_machine.specs.History.{Step, log_of, sent_of, value_after, play, IsHistory};
ghost use Rattle.tagged_box.specs.Tagged.{tagged_meaning};
ghost use Rattle.tagged_box.specs.Tags.{inputs_behind, steps_behind, played_behind, KeepTags};

use box_program::Program;

/// A run that looks through tags is, step by step, the run of the box itself on what stands behind them (IEEE 802.1Q).
///
/// The same list of moves gives both runs, or the same fault in both (`plays`). Behind the tags each run that looks
/// through them is one of the box itself (`behind`), and each run of the box on the inputs behind their tags is that
/// of exactly one that looks through them (`in_front`, `only_one`). Both have the same log (`log`), and leave the same
/// values (`values`).
pub fn runs_look_through_tags<X>()
    ensures plays { (m : Meaning X) (tags : Bool) (inputs : ℕ → List Packet) (threads : ℕ)
        (moves : List PlainMove)
        → play m (inputs_behind tags inputs) threads moves
        ≡ played_behind tags (play (tagged_meaning tags m) inputs threads moves) }
    ensures behind { (m : Meaning X) (tags : Bool) (inputs : ℕ → List Packet) (threads : ℕ)
        (steps : List (Step X)) → IsHistory (tagged_meaning tags m) inputs threads steps
        → IsHistory m (inputs_behind tags inputs) threads (steps_behind tags steps) }
    ensures in_front { (m : Meaning X) (tags : Bool) (inputs : ℕ → List Packet) (threads : ℕ)
        (others : List (Step X)) → IsHistory m (inputs_behind tags inputs) threads others
        → (steps : List (Step X)) × IsHistory (tagged_meaning tags m) inputs threads steps
        × (steps_behind tags steps ≡ others) }
    ensures only_one { (m : Meaning X) (tags : Bool) (inputs : ℕ → List Packet) (threads : ℕ)
        (steps others : List (Step X)) → IsHistory (tagged_meaning tags m) inputs threads steps
        → IsHistory (tagged_meaning tags m) inputs threads others
        → steps_behind tags steps ≡ steps_behind tags others → steps ≡ others }
    ensures log { (tags : Bool) (steps : List (Step X))
        → log_of (steps_behind tags steps) ≡ log_of steps }
    ensures values { (m : Meaning X) (tags : Bool) (steps : List (Step X)) (v : ℕ)
        → value_after m (steps_behind tags steps) v
        ≡ value_after (tagged_meaning tags m) steps v }
{}

/// Each packet that goes out in such a run has the first four bytes of its input, where this has a tag, and then the
/// bytes that go out in the run of the box itself; it has its input's times and original length.
pub fn emissions_keep_their_tags<X>()
    ensures { (m : Meaning X) (tags : Bool) (inputs : ℕ → List Packet) (threads : ℕ)
        (steps : List (Step X)) → IsHistory (tagged_meaning tags m) inputs threads steps
        → KeepTags tags inputs (sent_of steps) (sent_of (steps_behind tags steps)) }
{}

/// The first bytes that a box leaves as it sees them stay as they were in the frame, with those in front of them. So
/// the addresses and the tag stay where the box leaves the first twelve bytes that it sees.
pub fn first_bytes_stay<X>()
    ensures { (m : Meaning X) (tags : Bool) (n : ℕ) (p : Packet) (l : Local)
        → take n (m.out (behind_tag tags p) l) ≡ take n (behind_tag tags p).bytes
        → take (tag_length tags p.bytes + n) ((tagged_meaning tags m).out p l)
        ≡ take (tag_length tags p.bytes + n) p.bytes }
{}

/// The inputs behind their tags are of bytes where the inputs are, as the laws of some boxes ask.
pub fn bytes_stand_behind_tags()
    ensures { (tags : Bool) (inputs : ℕ → List Packet)
        → ((t k : ℕ) (p : Packet) → slice_get (inputs t) k ≡ Some p → AreBytes p.bytes)
        → (t k : ℕ) (p : Packet) → slice_get (inputs_behind tags inputs t) k ≡ Some p
        → AreBytes p.bytes }
{}

/// Where tags are not looked through, the box is as without this.
pub fn nothing_is_looked_through<X>()
    ensures { (m : Meaning X) → tagged_meaning false m ≡ m }
{}

/// The laws of programs hold of a box that looks through tags, whose variables may have the same values.
pub fn tagged_boxes_are_lawful<P: Program>()
    ensures { (p : P) (tags : Bool) → IsLawful (tagged_meaning tags (P.meaning p)) (P.fits p) }
{}
