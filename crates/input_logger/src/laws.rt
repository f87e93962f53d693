//! The laws of steering. Each is proved, and does nothing: a caller has it by the call.
ghost use Rattle.std.specs.Prelude.{◌≡◌, ℕ, Bool, false, List, map, Ok};
ghost use Rattle.tagged_frames.specs.FromPlainText.{Packet};
ghost use Rattle.tagged_frames.specs.FromPacketHeaders.{Flow};
ghost use Rattle.tagged_frames.specs.FromPacketHeaders.{AreBothDirections};
ghost use Rattle.input_logger.specs.Inputs.{thread_of, view_of, inputs_of};
ghost use Rattle.tagged_frames.specs.Tags.{behind_tag};

/// Packets of the two directions of a flow have one thread, also behind tags where these are looked through.
pub fn both_directions_have_one_thread()
    ensures { (tags : Bool) (p q : Packet) (there back : Flow) (threads : ℕ)
        → view_of tags p ≡ Ok there → view_of tags q ≡ Ok back
        → AreBothDirections there back → thread_of tags p threads ≡ thread_of tags q threads }
{}

/// The inputs of each thread behind their tags are the inputs of the packets behind their tags, where no further tag is
/// looked through.
pub fn inputs_stand_behind_tags()
    ensures { (threads : ℕ) (tags : Bool) (thread : ℕ) (packets : List Packet)
        → map (behind_tag tags)
        (inputs_of (record { threads = threads; tags = tags; packets = packets }) thread)
        ≡ inputs_of (record {
          threads = threads;
          tags = false;
          packets = map (behind_tag tags) packets;
        }) thread }
{}
