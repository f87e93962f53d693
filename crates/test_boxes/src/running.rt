ghost use Rattle.std.specs.Prelude.{◌≡◌, ◌<◌, ◌≤◌, length};
ghost use Rattle.box_program.specs.Hands.{FitsProgram};
ghost use Rattle.master_core.specs.Mastered.{value_of};

use access_log::Turn;
use box_program::Program;
use master_core::{Master, Stepped};
use nat_box::{NatBox, NatSettings};
use plain_text::{Bytes, NoMemory, Packet};
use sample_frames::{OTHER_QUERY, QUERY};
use std::alloc::Global;

/// The box of the examples: the inside network is 10.0.0.0/8, the outside address 203.0.113.1, and the outside ports
/// 39276 to 39279.
pub fn four_ports() -> NatBox {
    NatBox::new(NatSettings::basic(1, 0x0a00_0000, 8, 0xcb00_7101, 39_276, 39_279))
}

/// A packet of these captured bytes, all that it had on the wire.
fn packet(alloc: Global, frame: &[u8]) -> Result<Packet, NoMemory> {
    Ok(Packet {
        seconds: 100,
        fraction: 5,
        original: 42,
        bytes: Bytes::of(alloc, frame)?,
    })
}

/// Makes a move of a thread. Out of memory also where the thread made more moves than a test makes.
pub fn make<P: Program>(
    alloc: Global,
    master: &mut Master<P>,
    program: &P,
    thread: u32,
    answer: u64,
    packet: &Packet,
) -> Stepped
    requires program { FitsProgram (P.meaning program.now) (P.fits program.now)
        value_of master.old.vars }
    requires thread_in { thread < length master.old.threads }
    ensures fits { FitsProgram (P.meaning program.now) (P.fits program.now)
        value_of master.new.vars }
    ensures threads { length master.new.threads ≡ length master.old.threads }
{
    let counts = master.counts(thread);
    if counts.taken > 1000 || counts.entries > 1000 || counts.outputs > 1000 {
        return Stepped::NoMemory;
    }
    master.step(alloc, program, thread, Turn::Free, answer, Some(packet))
}

/// Whether a variable shows so.
fn shows<P: Program>(
    alloc: Global,
    master: &Master<P>,
    program: &P,
    var: u32,
    text: &str,
) -> Result<bool, NoMemory>
    requires program { FitsProgram (P.meaning program.now) (P.fits program.now)
        value_of master.now.vars }
{
    if var >= program.vars() {
        return Ok(false);
    }
    Ok(program.show(alloc, var, master.value(var))?.as_str() == text)
}

/// Whether one port alone is taken: the forward table shows this mapping, and the reverse table this binding.
pub fn shows_one_port<P: Program>(
    alloc: Global,
    master: &Master<P>,
    program: &P,
    mapping: &str,
    binding: &str,
) -> Result<bool, NoMemory>
    requires program { FitsProgram (P.meaning program.now) (P.fits program.now)
        value_of master.now.vars }
{
    Ok(
        shows(alloc, master, program, 1, "tcp 4 udp 3")?
            && shows(alloc, master, program, 2, mapping)?
            && shows(alloc, master, program, 3, binding)?,
    )
}

/// A packet of each of two threads, from one endpoint.
pub fn two_packets(alloc: Global) -> Result<[Packet; 2], NoMemory> {
    let query = packet(alloc, &QUERY)?;
    Ok([query, packet(alloc, &OTHER_QUERY)?])
}
