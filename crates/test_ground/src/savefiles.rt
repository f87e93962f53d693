ghost use Rattle.std.specs.Prelude.{◌≡◌, ◌≤◌, ◌<◌, false, [], List, ℕ, length};

use pcap_io::{Captured, Next, Reader, Started, read_capture};
use plain_text::Unit;
use sample_frames::TWO_PACKETS;
use std::alloc::Global;
use world_io::{Filled, SliceSource, Source};

/// The bytes of a slice, at most `most` at a call; one call may fail.
#[derive(Drop)]
struct Pieces<'a> {
    rest: SliceSource<'a>,
    most: usize,
    before_fault: u32,
    faults: u64,
    ghost some: { 0 < most },
}

impl<'a> Source for Pieces<'a> {
    ghost use Rattle.std.specs.Prelude.{[]};

    ghost honest = { λ _ _. ⊥ };

    ghost remains = { λ _ _. [] };

    ghost faults = { λ s. s.faults };

    ghost healthy = { λ _. ⊥ };

    ghost reads = { λ _ _ _. Unit {0} };

    ghost reads_nothing = { λ _. tt };

    ghost reads_more = { λ _ _ _ _ _ _ _. tt };

    ghost reads_before = { λ _ _ _ _ never _. never };

    ghost reads_shown = { λ _ _ _ _ never _. absurd never };

    fn fill(&mut self, piece: &mut [u8]) -> Filled {
        if self.before_fault == 0 {
            self.faults = self.faults.saturating_add(1);
            return Filled::Failed;
        }
        self.before_fault -= 1;
        let count = piece.len().min(self.most);
        self.rest.fill(&mut piece[..count])
    }
}

/// Whether a reader is begun in this unit and gives one packet, and then fails to read.
fn fails_in_the_second(alloc: Global, reader: &mut Reader, source: &mut Pieces<'_>) -> bool {
    reader.unit() == Unit::Micro
        && matches!(&reader.next_packet(alloc, source), Next::Packet(_))
        && matches!(&reader.next_packet(alloc, source), Next::ReadFault)
        && source.faults == 1
}

/// Whether a reader that failed is over, though reading would go well now.
fn is_over(alloc: Global, reader: &mut Reader, source: &mut Pieces<'_>) -> bool {
    source.before_fault = 1000;
    matches!(&reader.next_packet(alloc, source), Next::Over)
}

/// Reading fails in the second record's bytes: the header and two parts of the first record go before.
#[test]
fn a_reader_is_over_after_anything_but_a_packet(rt: HostRuntime) {
    let mut source = Pieces {
        rest: SliceSource::of(TWO_PACKETS),
        most: 100,
        before_fault: 4,
        faults: 0,
    };
    let Started::Reader(mut reader) = Reader::start(&mut source) else {
        panic!(rt; "the header is whole");
    };
    assert!(rt; fails_in_the_second(rt.alloc(), &mut reader, &mut source));
    assert!(rt; is_over(rt.alloc(), &mut reader, &mut source));
}

/// Whether these bytes are read as a whole capture of two packets.
fn are_two_packets(alloc: Global, bytes: &[u8]) -> bool {
    match read_capture(alloc, &mut SliceSource::of(bytes)) {
        Captured::Capture { packets, .. } => packets.len() == 2,
        _ => false,
    }
}

#[test]
fn a_whole_savefile_is_read(rt: HostRuntime) {
    assert!(rt; are_two_packets(rt.alloc(), TWO_PACKETS));
}
