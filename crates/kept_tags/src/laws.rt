ghost use Rattle.std.specs.Prelude.{◌≡◌, ℕ, ◌-◌, Bool, true, false, take, drop};
ghost use Rattle.plain_text.specs.declared.packet.Packet.{Packet};
ghost use Rattle.plain_machine.specs.declared.local.Local.{Local};
ghost use Rattle.packet_headers.specs.Fields.{AreBytes};
ghost use Rattle.tagged_frames.specs.Tags.{is_tagged, behind_tag, with_behind};
ghost use Rattle.tagged_box.specs.Tagged.{tagged_meaning};
ghost use Rattle.box_program.specs.Count.{count_meaning};
ghost use Rattle.nat_box.specs.declared.nat.NatBox.{NatBox};
ghost use Rattle.nat_box.specs.Boxes as nat;
ghost use Rattle.balancer_box.specs.declared.balancer.BalancerBox.{BalancerBox};
ghost use Rattle.balancer_box.specs.Boxes as balancer;
ghost use Rattle.monitor_box.specs.declared.monitor.MonitorBox.{MonitorBox};
ghost use Rattle.monitor_box.specs.Boxes as monitor;
ghost use Rattle.kept_tags.specs.Tag.{tag_of, HasTag};

/// The tag of a frame goes out as it came in (IEEE 802.1Q, 9.3): its type and its control information, in the place
/// where they stood. The NAT, the balancer and the monitor leave the addresses of the frame, too.
pub fn tags_go_out_as_they_came()
    ensures nat { (b : NatBox) (p : Packet) (l : Local) → is_tagged p.bytes ≡ true
        → take 16 ((tagged_meaning true (nat.box_meaning b)).out p l) ≡ take 16 p.bytes }
    ensures balancer { (b : BalancerBox) (p : Packet) (l : Local) → is_tagged p.bytes ≡ true
        → take 16 ((tagged_meaning true (balancer.box_meaning b)).out p l) ≡ take 16 p.bytes }
    ensures monitor { (b : MonitorBox) (p : Packet) (l : Local) → is_tagged p.bytes ≡ true
        → take 16 ((tagged_meaning true (monitor.box_meaning b)).out p l) ≡ take 16 p.bytes }
    ensures count { (p : Packet) (l : Local) → is_tagged p.bytes ≡ true
        → tag_of ((tagged_meaning true count_meaning).out p l) ≡ tag_of p.bytes }
{}

/// Where tags are looked through, a packet is seen without its first four bytes exactly where its frame has a tag: the
/// type in bytes 12 and 13 is 0x8100 (IEEE 802.1Q, 9.5). So bytes 16 and on, after the tag, are seen as bytes 12 and
/// on, where a frame without a tag has its type. Every other packet is seen as it is, and so is each one where tags are
/// not looked through. What was not seen goes out in front again: a frame that is left as it is seen goes out as it
/// came.
pub fn tags_alone_are_looked_through()
    ensures untagged { (p : Packet) → AreBytes p.bytes → (HasTag p.bytes → ⊥)
        → behind_tag true p ≡ p }
    ensures tagged { (p : Packet) → HasTag p.bytes
        → behind_tag true p ≡ record p { bytes = drop 4 p.bytes; original = p.original - 4 } }
    ensures unasked { (p : Packet) → behind_tag false p ≡ p }
    ensures put_back { (tags : Bool) (p : Packet)
        → with_behind tags p (behind_tag tags p).bytes ≡ p }
{}
