//! What a settling comes to with the counting box and with the monitor. The law is proved, and does
//! nothing: a caller has it by the call.
#![tactic(auto)]

ghost use Rattle.std.specs.Prelude.{◌≡◌, ◌≤◌, ℕ, All, List, [], ◌∷◌, ◌++◌, map};
ghost use Rattle.plain_text.specs.Octets.{IsOfBytes};
ghost use Rattle.plain_text.specs.declared.packet.Packet.{Packet};
ghost use Rattle.tagged_frames.specs.Tags.{behind_tag};
ghost use Rattle.plain_machine.specs.declared.plain_move.PlainMove.{PlainMove};
ghost use Rattle.plain_machine.specs.History.{value_after};
ghost use Rattle.box_program.specs.Count.{count_meaning};
ghost use Rattle.monitor_box.specs.declared.value.MonitorValue.{MonitorValue};
ghost use Rattle.monitor_box.specs.Monitor.{monitor_meaning};
ghost use Rattle.tagged_box.specs.Tagged.{tagged_meaning};
ghost use Rattle.recovery_world.specs.declared.event.Event.{Event};
ghost use Rattle.recovery_world.specs.declared.event.Event.TheVariants.{Settle};
ghost use Rattle.recovery_world.specs.World.{Setting};
ghost use Rattle.recovery_world.specs.Files.{Leaves};
ghost use Rattle.settled_boxes.specs.EachOnce.{ReleasesEachOnce, IsNumbered, IsUnchanged};
ghost use Rattle.settled_boxes.specs.EachOnce.{SentBehind};
ghost use Rattle.settled_boxes.specs.Counted.{CountsCapture};

/// A script that ends in a settling, whatever came before it: the counting box and the monitor have
/// released each packet of the capture exactly once, the monitor unchanged. And in the run in which
/// its world ends, the monitor's tables and totals count exactly the packets of the capture, where
/// these are of bytes.
///
/// The last three clauses are of a box that looks through one VLAN tag where the setting does. The
/// number then stands behind the tag, and the bytes that were not seen go out in front of it. The
/// monitor has counted each packet as it is seen behind its tag.
pub fn settlings_release_each_packet_once()
    ensures count { (s : Setting ℕ) (events : List Event) (report : List ℕ)
        (released : List Packet) (schedule : List PlainMove) → s.meaning ≡ count_meaning
        → (l : Leaves s (events ++ Settle ∷ []) report released schedule)
        → ReleasesEachOnce s l.world IsNumbered }
    ensures monitor { (tables : ℕ) (s : Setting MonitorValue) (events : List Event)
        (report : List ℕ) (released : List Packet) (schedule : List PlainMove)
        → s.meaning ≡ monitor_meaning tables
        → (l : Leaves s (events ++ Settle ∷ []) report released schedule)
        → ReleasesEachOnce s l.world IsUnchanged }
    ensures counts { (tables : ℕ) (s : Setting MonitorValue) (events : List Event)
        (report : List ℕ) (released : List Packet) (schedule : List PlainMove)
        → s.meaning ≡ monitor_meaning tables → 1 ≤ tables → tables ≤ 64 → 1 ≤ s.threads
        → All IsOfBytes s.packets
        → (l : Leaves s (events ++ Settle ∷ []) report released schedule)
        → CountsCapture tables s.packets (value_after (monitor_meaning tables) l.steps) }
    ensures tagged_count { (s : Setting ℕ) (events : List Event) (report : List ℕ)
        (released : List Packet) (schedule : List PlainMove)
        → s.meaning ≡ tagged_meaning s.tags count_meaning
        → (l : Leaves s (events ++ Settle ∷ []) report released schedule)
        → ReleasesEachOnce s l.world (SentBehind s.tags IsNumbered) }
    ensures tagged_monitor { (tables : ℕ) (s : Setting MonitorValue) (events : List Event)
        (report : List ℕ) (released : List Packet) (schedule : List PlainMove)
        → s.meaning ≡ tagged_meaning s.tags (monitor_meaning tables)
        → (l : Leaves s (events ++ Settle ∷ []) report released schedule)
        → ReleasesEachOnce s l.world IsUnchanged }
    ensures tagged_counts { (tables : ℕ) (s : Setting MonitorValue) (events : List Event)
        (report : List ℕ) (released : List Packet) (schedule : List PlainMove)
        → s.meaning ≡ tagged_meaning s.tags (monitor_meaning tables) → 1 ≤ tables
        → tables ≤ 64 → 1 ≤ s.threads → All IsOfBytes s.packets
        → (l : Leaves s (events ++ Settle ∷ []) report released schedule)
        → CountsCapture tables (map (behind_tag s.tags) s.packets)
        (value_after (tagged_meaning s.tags (monitor_meaning tables)) l.steps) }
{}
