//! Handovers of the recovering system: the image of a system that has settled as a text, and systems that go on from
//! the text. A packet makes 63 moves, by the box of touches.
ghost use Rattle.std.specs.Prelude.{◌≡◌, All, IfOk, IfErr, false};
ghost use Rattle.plain_text.specs.Packets.{IsShort};

use crate::locks::packet_of;
use crate::locks::touch_box::TouchBox;
use crate::words::next_number;
use anyhow::{anyhow, ensure};
use handover::{Image, put_image, read_image};
use plain_text::{Bytes, MOST_PACKETS, NoMemory, Packets, Unit};
use recovery_core::{Stop, System};
use recovery_world::Event;
use std::alloc::Global;
use std::env::Args;

/// This number of packets for the box of touches.
fn touching_packets(alloc: Global, count: u64) -> Result<Packets, NoMemory>
    ensures { IfOk result (All IsShort) }
{
    let mut packets = Packets::new(alloc);
    for _ in 0..count {
        packets.push(packet_of(alloc, 0)?)?;
    }
    Ok(packets)
}

/// Settles all packets and brings the system to rest, as a handover does.
fn come_to_rest(system: &mut System<TouchBox>) -> Result<(), Stop>
    requires { system.old.stopped ≡ false }
{
    system.on(&Event::Settle)?;
    system.on(&Event::Snap)?;
    system.on(&Event::Store)?;
    system.on(&Event::Crash)?;
    system.on(&Event::Recover)?;
    Ok(())
}

/// The image of a system that has settled these packets.
fn image_of(alloc: Global, packets: Packets) -> anyhow::Result<Image>
    requires { All IsShort packets }
{
    let mut system = System::new(alloc, TouchBox::new(), 1, false, 0, Unit::Micro, packets)?;
    let rested = come_to_rest(&mut system);
    let image = system.image();
    system.discard();
    if let Err(stop) = rested {
        return Err(anyhow!("{stop:?}"));
    }
    Ok(image?)
}

/// Makes this number of texts of an image; the last one of them.
fn write_often(alloc: Global, image: &Image, times: u64) -> Result<Bytes, NoMemory> {
    let mut text = Bytes::new(alloc);
    for _ in 0..times {
        text = put_image(alloc, image)?;
    }
    Ok(text)
}

/// Lets this number of systems go on, one after another, each from the text.
fn go_on_often(alloc: Global, text: &Bytes, count: u64, times: u64) -> anyhow::Result<()> {
    for _ in 0..times {
        let packets = touching_packets(alloc, count)?;
        let image = read_image(alloc, text.as_slice()).map_err(|fault| anyhow!("{fault:?}"))?;
        let resumed = System::resume(
            alloc,
            TouchBox::new(),
            1,
            false,
            0,
            Unit::Micro,
            packets,
            &image,
        );
        match resumed {
            Ok(system) => system.discard(),
            Err(fault) => return Err(anyhow!("{fault:?}")),
        }
    }
    Ok(())
}

/// Tells how many moves the image has and how long its text is, where the words say how many packets settle, how often
/// the text is written, at least once, and how often a system goes on from it.
pub fn run<R: AllocGlobal + Print>(rt: &R, words: &mut Args) -> anyhow::Result<()> {
    let count = next_number(words, "how many packets?")?;
    let writes = next_number(words, "how many texts?")?;
    let resumes = next_number(words, "how many systems?")?;
    ensure!(
        count <= u64::from(MOST_PACKETS),
        "{count} packets are too many"
    );
    let image = image_of(rt.alloc(), touching_packets(rt.alloc(), count)?)?;
    let text = write_often(rt.alloc(), &image, writes)?;
    go_on_often(rt.alloc(), &text, count, resumes)?;
    println!(rt;
        "{} moves in a text of {} bytes",
        image.past.len(),
        text.len()
    )?;
    Ok(())
}
