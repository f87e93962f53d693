use thread_clock::{EntryCounts, Stamp};

/// The components of the stamps of two touches, by thread 1 and then by thread 0.
const OF_FIRST: [u32; 16] = [0, 1, 0, 0, 0, 0, 0, 0, 0, 0, 0, 0, 0, 0, 0, 0];

const OF_SECOND: [u32; 16] = [1, 1, 0, 0, 0, 0, 0, 0, 0, 0, 0, 0, 0, 0, 0, 0];

/// Components of which the last is one more than a stamp's may be.
const TOO_WIDE: [u64; 16] = [1, 1, 0, 0, 0, 0, 0, 0, 0, 0, 0, 0, 0, 0, 0, 1 << 32];

/// The numbers of entries that a stamp names.
fn counts_of(stamp: &Stamp) -> EntryCounts {
    let mut components = [0; 16];
    for thread in 0..16 {
        components[thread as usize] = stamp.get(thread);
    }
    EntryCounts::new(components)
}

/// Two threads count: thread 1 makes its touch, then thread 0. The stamps of both.
fn count_by_two_threads() -> (Stamp, Stamp) {
    let mut first = Stamp::zero();
    first.bump(1);
    let mut second = Stamp::zero();
    second.join(&first);
    second.bump(0);
    (first, second)
}

#[test]
fn two_threads_count(rt: HostRuntime) {
    let (first, second) = count_by_two_threads();
    assert!(rt; first.components() == &OF_FIRST && second.components() == &OF_SECOND);
    assert!(rt; Stamp::new(OF_SECOND) == second);
    assert!(rt; second.weight() == 2 && second.get(2) == 0);
    assert!(rt; first.at_most(&counts_of(&second)) && !second.at_most(&counts_of(&first)));
    assert!(rt; counts_of(&second).narrowed() == Some(second));
    assert!(rt; EntryCounts::new(TOO_WIDE).narrowed() == None);
}
