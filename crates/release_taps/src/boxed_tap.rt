use crate::{Shown, Tap};

/// A boxed tap is a tap, so that one world can have taps of several types.
impl Tap for Box<dyn Tap> {
    ghost tells = { λ b. (Tap-box b).tells b.value };

    ghost seen = { λ b. (Tap-box b).seen b.value };

    ghost fault_count = { λ b. (Tap-box b).fault_count b.value };

    ghost lack_count = { λ b. (Tap-box b).lack_count b.value };

    ghost label = { λ b. (Tap-box b).label b.value };

    fn show(&mut self, piece: &[u8]) -> Shown {
        (**self).show(piece)
    }

    fn faults(&self) -> u64 {
        (**self).faults()
    }

    fn lacks(&self) -> u64 {
        (**self).lacks()
    }
}
