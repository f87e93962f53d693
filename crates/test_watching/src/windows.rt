ghost use Rattle.std.specs.Prelude.{◌≡◌, [], length, IfOk};

use crate::recorder::Recorder;
use packet_taps::{Deck, PacketTap, Printed, Watched, print_watched, watch};
use plain_text::{Bytes, NoMemory, Packet, Text};
use std::alloc::Global;
use world_io::MemoryWorld;

/// A capture of three packets of one byte each: `a`, `b` and `c`.
const CAPTURE: &[u8] = b"\xd4\xc3\xb2\xa1\x02\0\x04\0\0\0\0\0\0\0\0\0\xff\xff\0\0\x01\0\0\0\
    \x01\0\0\0\x05\0\0\0\x01\0\0\0\x01\0\0\0a\
    \x02\0\0\0\x06\0\0\0\x01\0\0\0\x01\0\0\0b\
    \x03\0\0\0\x07\0\0\0\x01\0\0\0\x01\0\0\0c";

/// The words that ask for all three packets.
fn words(alloc: Global) -> Result<Vec<Text>, NoMemory> {
    let mut words = Vec::new(alloc);
    for word in ["watch", "capture", "0", "3"] {
        words.push(Text::of(alloc, word)?)?;
    }
    Ok(words)
}

/// A world of the capture alone.
fn world(alloc: Global) -> Result<MemoryWorld, NoMemory>
    ensures { IfOk result (λ world. length world.files ≡ 0) }
{
    let mut world = MemoryWorld::new(alloc)?;
    let name = Text::of(alloc, "capture")?;
    world.add(&name, Bytes::of(alloc, CAPTURE)?)?;
    Ok(world)
}

/// Whether the capture was shown to the deck, and has three packets.
fn shows_three<T: PacketTap>(alloc: Global, deck: &mut Deck<T>) -> Result<bool, NoMemory> {
    let words = words(alloc)?;
    let mut world = world(alloc)?;
    Ok(watch(alloc, words.as_slice(), &mut world, deck) == Watched::Done(3))
}

/// Whether these are packets of these bytes, one each.
fn are(alloc: Global, packets: &[Packet], bytes: &[u8]) -> Result<bool, NoMemory> {
    let mut all = Bytes::new(alloc);
    for packet in packets {
        all.extend(packet.bytes.as_slice())?;
    }
    Ok(all.as_slice() == bytes)
}

/// Whether a tap with the window 1, 1 saw the second packet alone, and can be taken out once.
fn sees_the_second(alloc: Global) -> Result<bool, NoMemory> {
    let mut deck = Deck::new(alloc)?;
    let Ok(0) = deck.seat(Recorder::new(alloc, 9), 1, 1) else {
        return Ok(false);
    };
    if !shows_three(alloc, &mut deck)? {
        return Ok(false);
    }
    let Some(taken) = deck.take_out(0) else {
        return Ok(false);
    };
    let again = deck.take_out(0).is_some();
    let saw = are(alloc, taken.tap.packets.as_slice(), b"b")?;
    Ok(saw && !again && taken.skip == 0 && taken.quota == 0)
}

/// Whether a tap that fails at its second packet saw the first alone, and one after it the first two.
fn loses_one(alloc: Global) -> Result<bool, NoMemory> {
    let mut deck = Deck::new(alloc)?;
    let Ok(0) = deck.seat(Recorder::new(alloc, 1), 0, 3) else {
        return Ok(false);
    };
    let Ok(1) = deck.seat(Recorder::new(alloc, 9), 0, 2) else {
        return Ok(false);
    };
    if !shows_three(alloc, &mut deck)? {
        return Ok(false);
    }
    let (Some(lost), Some(there)) = (deck.lost(0), deck.seated(1)) else {
        return Ok(false);
    };
    let first = are(alloc, lost.object.packets.as_slice(), b"a")?;
    let both = are(alloc, there.tap.packets.as_slice(), b"ab")?;
    Ok(first && both && !lost.memory && lost.object.faults == 1)
}

/// Whether a tap that is seated again between two captures goes on in its window.
fn goes_on(alloc: Global) -> Result<bool, NoMemory> {
    let mut deck = Deck::new(alloc)?;
    let Ok(0) = deck.seat(Recorder::new(alloc, 9), 2, 2) else {
        return Ok(false);
    };
    if !shows_three(alloc, &mut deck)? {
        return Ok(false);
    }
    let Some(taken) = deck.take_out(0) else {
        return Ok(false);
    };
    let mut deck = Deck::new(alloc)?;
    let Ok(0) = deck.seat(taken.tap, taken.skip, taken.quota) else {
        return Ok(false);
    };
    if !shows_three(alloc, &mut deck)? {
        return Ok(false);
    }
    let Some(there) = deck.seated(0) else {
        return Ok(false);
    };
    are(alloc, there.tap.packets.as_slice(), b"ca")
}

/// Whether a fault of reading after the last packet is told, and a tap saw the packets before.
fn tells_a_read_fault(alloc: Global) -> Result<bool, NoMemory> {
    let mut deck = Deck::new(alloc)?;
    let Ok(0) = deck.seat(Recorder::new(alloc, 9), 0, 9) else {
        return Ok(false);
    };
    let words = words(alloc)?;
    let mut world = world(alloc)?;
    world.fail_read(3)?;
    let watched = watch(alloc, words.as_slice(), &mut world, &mut deck);
    let Some(there) = deck.seated(0) else {
        return Ok(false);
    };
    let all = are(alloc, there.tap.packets.as_slice(), b"abc")?;
    Ok(all && watched == Watched::ReadFault)
}

/// A world on whose report nothing stands, of whose calls of writing this one fails.
fn report(alloc: Global, fails: Option<u64>) -> Result<MemoryWorld, NoMemory>
    ensures { IfOk result (λ world. world.report ≡ []) }
{
    let mut out = MemoryWorld::new(alloc)?;
    let Some(nth) = fails else {
        return Ok(out);
    };
    out.fail_write(nth)?;
    Ok(out)
}

/// Whether printing the lines comes to this, and these bytes stand on the report, of whose calls of writing this one
/// fails.
fn prints(
    alloc: Global,
    fails: Option<u64>,
    answer: Printed,
    bytes: &[u8],
) -> Result<bool, NoMemory> {
    let words = words(alloc)?;
    let mut world = world(alloc)?;
    let out = report(alloc, fails)?;
    let printed = print_watched(alloc, words.as_slice(), &mut world, out);
    Ok(printed.printed == answer && printed.out.report() == bytes)
}

#[test]
fn a_fault_of_reading_is_told(rt: HostRuntime) {
    assert!(rt; matches!(tells_a_read_fault(rt.alloc()), Ok(true)));
}

#[test]
fn each_line_is_printed(rt: HostRuntime) {
    let all = prints(
        rt.alloc(),
        None,
        Printed::Watched(Watched::Done(3)),
        b"1 5 1\n2 6 1\n3 7 1\n",
    );
    assert!(rt; matches!(all, Ok(true)));
}

#[test]
fn a_line_that_is_not_printed_is_told(rt: HostRuntime) {
    let first = prints(rt.alloc(), Some(2), Printed::WriteFault, b"1 5 1\n");
    assert!(rt; matches!(first, Ok(true)));
}

#[test]
fn a_tap_sees_its_window(rt: HostRuntime) {
    assert!(rt; matches!(sees_the_second(rt.alloc()), Ok(true)));
}

#[test]
fn a_tap_that_fails_is_lost_alone(rt: HostRuntime) {
    assert!(rt; matches!(loses_one(rt.alloc()), Ok(true)));
}

#[test]
fn a_tap_seated_again_goes_on(rt: HostRuntime) {
    assert!(rt; matches!(goes_on(rt.alloc()), Ok(true)));
}
