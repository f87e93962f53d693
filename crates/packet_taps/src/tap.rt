ghost use Rattle.std.specs.Prelude.{◌≡◌, ◌≤◌, ◌++◌, ◌∷◌, [], List, ℕ};
ghost use Rattle.plain_text.specs.declared.packet.Packet.{Packet};
ghost use Rattle.world_io.specs.Stream.{Rose};

use plain_text::Packet;
use release_taps::Shown;

/// Something that is shown packets, one at a time, and may fail.
///
/// What it says of the packets that it was shown is its own: that it has them, or that their lines were printed.
pub trait PacketTap: Drop {
    /// That it took these packets, in order, and no other.
    ghost saw: { Self → List Packet → Type 0 };

    /// That it took these packets but for the last, in order, and then failed at the last.
    ghost missed: { Self → List Packet → Type 0 };

    /// How often it failed. A count at 2^64 - 1 stays there.
    ghost fault_count: { Self → ℕ };

    /// How often it found no memory. A count at 2^64 - 1 stays there.
    ghost lack_count: { Self → ℕ };

    /// Shows it the next packet: it takes the whole, or nothing.
    fn show(&mut self, packet: &Packet) -> Shown
        ensures took { result ≡ Shown.Took → (before : List Packet) → saw self.old before
            → saw self.new (before ++ packet.now ∷ []) }
        ensures misses { ¬ (result ≡ Shown.Took) → (before : List Packet) → saw self.old before
            → missed self.new (before ++ packet.now ∷ []) }
        ensures failed { result ≡ Shown.Failed
            → Rose (fault_count self.old) (fault_count self.new) }
        ensures lacked { result ≡ Shown.NoMemory
            → Rose (lack_count self.old) (lack_count self.new) }
        ensures more_faults { fault_count self.old ≤ fault_count self.new }
        ensures more_lacks { lack_count self.old ≤ lack_count self.new };

    /// How often it failed.
    fn faults(&self) -> u64
        ensures { result ≡ fault_count self.now };

    /// How often it found no memory.
    fn lacks(&self) -> u64
        ensures { result ≡ lack_count self.now };
}
