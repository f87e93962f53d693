ghost use Rattle.std.specs.Prelude.{◌≡◌, map, IfOk};
ghost use Rattle.release_taps.specs.Seats.{AreShown, labels_of, seated};

use crate::{Shown, Tap};
use plain_text::NoMemory;
use std::alloc::Global;

/// A tap in its seat, which it keeps when it is lost.
#[derive(Drop)]
pub struct Seat<T> {
    pub tap: T,
    /// The answer that the tap gave last. It is there as long as it took all, and else it is lost.
    pub last: Shown,
}

impl<T: Tap> Seat<T> {
    ghost use Rattle.release_taps.specs.Seats.{IsShown};

    /// Shows the tap these bytes, if it is there.
    pub(crate) fn show(&mut self, piece: &[u8])
        ensures same_label { T.label self.new.tap ≡ T.label self.old.tap }
        ensures shown { IsShown T.tells T.seen T.fault_count T.lack_count piece.now
            self.old self.new }
    {
        if let Shown::Took = self.last {
            self.last = self.tap.show(piece);
        }
    }
}

/// Shows these bytes to each tap that is there, in order.
pub(crate) fn show_each<T: Tap>(seats: &mut [Seat<T>], piece: &[u8])
    ensures same_labels { labels_of T.label seats.new ≡ labels_of T.label seats.old }
    ensures shown { AreShown T.tells T.seen T.fault_count T.lack_count piece.now seats.old
        seats.new }
{
    for seat in seats.iter_mut() {
        seat.show(piece);
    }
}

/// Gives each tap a seat.
pub(crate) fn seat_all<T: Tap>(alloc: Global, taps: Vec<T>) -> Result<Vec<Seat<T>>, NoMemory>
    ensures { IfOk result (λ seats. seats.items ≡ map seated taps.items) }
{
    let mut seats = Vec::with_capacity(alloc, taps.len())?;
    for tap in taps {
        seats.push(Seat {
            tap,
            last: Shown::Took,
        })?;
    }
    Ok(seats)
}
