ghost use Rattle.std.specs.Prelude.{◌≡◌, ◌+◌, ◌*◌, ◌^◌, ◌<◌, ◌≤◌, ◌==◌, ◌&&◌, ◌||◌, not, ℕ, IsTrue};
ghost use Rattle.std.specs.Prelude.{length, drop, slice_index};
ghost use Rattle.wire_frames.specs.Layout.{mask_of, nonzero};
ghost use Rattle.wire_frames.specs.Places.{bits_set, component_at, components};

use crate::bytes::u64_at;
use thread_clock::{EntryCounts, Stamp, THREADS};

/// Which components are not 0: bit u is set where component u is. Only those of this many threads are looked at.
pub(crate) fn mask_of(stamp: &Stamp, threads: usize) -> u16
    requires few { threads ≤ 16 }
    requires none { (u : ℕ) → threads ≤ u → slice_index stamp.now u ≡ 0 }
    ensures { result ≡ mask_of stamp.now }
{
    let components = stamp.components();
    let mut mask = 0;
    for behind in 0..threads {
        let bit = u16::from(components[threads - 1 - behind] != 0);
        mask = bit + 2 * mask;
    }
    mask
}

/// How many components are not 0.
pub(crate) fn count_nonzero(stamp: &Stamp) -> usize
    ensures value { result ≡ length (nonzero stamp.now) }
    ensures most { result ≤ 16 }
    ensures all { length stamp.now ≡ 16 }
{
    let mut count = 0;
    for component in stamp.components() {
        if *component != 0 {
            count += 1;
        }
    }
    count
}

/// How many bits of a mask are set.
pub(crate) fn bits_set(mask: u32) -> usize
    requires { mask < 2 ^ 16 }
    ensures value { result ≡ bits_set 16 mask }
    ensures most { result ≤ 16 }
{
    let mut rest = mask;
    let mut count = 0;
    for _ in 0..THREADS {
        if rest == 0 {
            break;
        }
        count += (rest % 2) as usize;
        rest /= 2;
    }
    count
}

/// The stamp whose components stand one after the other, where they are those of the threads in the mask; and whether
/// one of these is 0, so that the mask is not that of the stamp.
pub(crate) fn read_stamp(mask: u32, bytes: &[u8]) -> (EntryCounts, bool)
    requires room { 8 * bits_set 16 mask ≤ length bytes.now }
    requires fits { mask < 2 ^ 16 }
    ensures stamp { result.0 ≡ components 16 mask bytes.now }
    ensures zero { result.1 ≡ not (mask_of (components 16 mask bytes.now) == mask) }
{
    let mut components = [0; THREADS];
    let mut has_zero = false;
    let mut rest = mask;
    let mut place = 0;
    for thread in 0..THREADS {
        if rest == 0 {
            break;
        }
        let there = rest % 2 == 1;
        let component = read_component(there, bytes, place);
        has_zero = has_named_zero(has_zero, there, component);
        components[thread] = component;
        place += 8 * (rest % 2) as usize;
        rest /= 2;
    }
    (EntryCounts::new(components), has_zero)
}

/// Whether an earlier component that the mask names is 0, or this one.
fn has_named_zero(earlier: bool, there: bool, component: u64) -> bool
    ensures { result ≡ earlier || (there && component == 0) }
{
    earlier || (there && component == 0)
}

/// The component at a place, or 0 where there is none.
fn read_component(there: bool, bytes: &[u8], place: usize) -> u64
    requires { IsTrue there → place + 8 ≤ length bytes.now }
    ensures { result ≡ component_at there (drop place bytes.now) }
{
    if there { u64_at(bytes, place) } else { 0 }
}
