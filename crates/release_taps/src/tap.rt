ghost use Rattle.std.specs.Prelude.{◌≡◌, ◌≤◌, ◌++◌, List, ℕ};
ghost use Rattle.release_taps.specs.Tap.{shown_bytes};
ghost use Rattle.world_io.specs.Stream.{Rose};

/// What a tap makes of a piece.
#[derive(Clone, Copy, PartialEq, Eq)]
pub enum Shown {
    /// All bytes of the piece were taken.
    Took,
    /// It failed, took nothing, and its count of faults rose.
    Failed,
    /// It found no memory, took nothing, and its count of lacks rose.
    NoMemory,
}

/// Something that is shown bytes piece by piece, and may fail.
///
/// A tap may tell which bytes it was shown. One that writes them to a real file can't.
pub trait Tap: Drop {
    /// That the bytes which it was shown are known.
    ghost tells: { Self → Type 0 };

    /// The bytes that it was shown, in order, where it tells.
    ghost seen: { Self → List ℕ };

    /// How often it failed. A count at 2^64 - 1 stays there.
    ghost fault_count: { Self → ℕ };

    /// How often it found no memory. A count at 2^64 - 1 stays there.
    ghost lack_count: { Self → ℕ };

    /// What it is called, as the name of the file that it writes to. It stays the same.
    ghost label: { Self → List ℕ };

    /// Shows it the next bytes: it takes all of them, or none.
    fn show(&mut self, piece: &[u8]) -> Shown
        ensures told { tells self.new → tells self.old }
        ensures seen { tells self.new
            → seen self.new ≡ seen self.old ++ shown_bytes result piece.now }
        ensures failed { result ≡ Shown.Failed
            → Rose (fault_count self.old) (fault_count self.new) }
        ensures lacked { result ≡ Shown.NoMemory
            → Rose (lack_count self.old) (lack_count self.new) }
        ensures more_faults { fault_count self.old ≤ fault_count self.new }
        ensures more_lacks { lack_count self.old ≤ lack_count self.new }
        ensures same_label { label self.new ≡ label self.old };

    /// How often it failed.
    fn faults(&self) -> u64
        ensures { result ≡ fault_count self.now };

    /// How often it found no memory.
    fn lacks(&self) -> u64
        ensures { result ≡ lack_count self.now };
}
