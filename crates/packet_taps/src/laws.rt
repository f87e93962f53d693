//! The laws of windows. Each is proved, and does nothing: a caller has it by the call.
ghost use Rattle.std.specs.Prelude.{◌≡◌, ◌++◌, ℕ, List, length};
ghost use Rattle.plain_text.specs.declared.packet.Packet.{Packet};
ghost use Rattle.packet_taps.specs.declared.place.LostPacket.{LostPacket};
ghost use Rattle.packet_taps.specs.declared.place.Taken.{Taken};
ghost use Rattle.packet_taps.specs.Places.{IsLost, Stays};
ghost use Rattle.packet_taps.specs.Windows.{quota_behind, skip_behind, window};

use crate::PacketTap;

/// Behind a first part of the packets, the numbers left give the rest of the window.
pub fn window_goes_on()
    ensures { (skip quota : ℕ) (first rest : List Packet) → window skip quota (first ++ rest)
        ≡ window skip quota first
        ++ window (skip_behind skip (length first)) (quota_behind skip quota (length first)) rest }
{}

/// So a tap that was taken out, and seated again with the numbers that it came with, sees what it would have seen in
/// its seat.
pub fn seating_again_goes_on<T: PacketTap>()
    ensures stays { (first rest : List Packet) (old mid new : Taken T)
        → Stays T.saw T.missed T.fault_count T.lack_count first old mid
        → Stays T.saw T.missed T.fault_count T.lack_count rest mid new
        → Stays T.saw T.missed T.fault_count T.lack_count (first ++ rest) old new }
    ensures lost { (first rest : List Packet) (old mid : Taken T) (lost : LostPacket T)
        → Stays T.saw T.missed T.fault_count T.lack_count first old mid
        → IsLost T.saw T.missed T.fault_count T.lack_count rest mid lost
        → IsLost T.saw T.missed T.fault_count T.lack_count (first ++ rest) old lost }
{}
