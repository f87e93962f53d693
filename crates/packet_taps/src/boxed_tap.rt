use crate::PacketTap;
use plain_text::Packet;
use release_taps::Shown;

/// A boxed packet tap is a packet tap, so that one deck can seat taps of several types.
impl PacketTap for Box<dyn PacketTap> {
    ghost saw = { λ b. (PacketTap-box b).saw b.value };

    ghost missed = { λ b. (PacketTap-box b).missed b.value };

    ghost fault_count = { λ b. (PacketTap-box b).fault_count b.value };

    ghost lack_count = { λ b. (PacketTap-box b).lack_count b.value };

    fn show(&mut self, packet: &Packet) -> Shown {
        (**self).show(packet)
    }

    fn faults(&self) -> u64 {
        (**self).faults()
    }

    fn lacks(&self) -> u64 {
        (**self).lacks()
    }
}
