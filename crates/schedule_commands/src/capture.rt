ghost use Rattle.std.specs.Prelude.{◌≡◌, ◌<◌, ◌-◌, ◌^◌, [], All, IsTrue, IfOk, IsErrOf};
ghost use Rattle.plain_text.specs.Packets.{IsShort};
ghost use Rattle.pcap_io.specs.Capture.{records_of, written_header};
ghost use Rattle.pcap_io.specs.declared.order.Order.TheVariants as order;
ghost use Rattle.output_files.specs.Written.{AppendsTo, OnlyWrites, Writes, WritesFiles};
ghost use Rattle.output_files.specs.Written.{single_writes};
ghost use Rattle.world_io.specs.World.{Start, is_writable, WritingFailed};

use output_files::{OutputError, PIECE_ROOM, append, append_full, append_last, create, report};
use pcap_io::{put_header, put_packet};
use plain_text::{Bytes, NoMemory, Packet, Text, Unit};
use std::alloc::Global;
use world_io::World;

/// No bytes, with the room of a piece.
fn fresh_piece(alloc: Global) -> Result<Bytes, NoMemory>
    ensures { IfOk result (λ piece. piece ≡ []) }
{
    Ok(Bytes::from_vec(Vec::with_capacity(alloc, PIECE_ROOM)?))
}

/// Appends the records of packets to a created file, in order. They are gathered by pieces, in the same memory.
fn append_packets<W: World>(
    alloc: Global,
    world: &mut W,
    file: u32,
    packets: &[Packet],
) -> Result<(), OutputError>
    requires short { All IsShort packets.now }
    requires writable { IsTrue (is_writable (W.ledger world.old) file) }
    ensures only_writes { OnlyWrites W.ledger W.healthy world.old world.new }
    ensures cause { IsErrOf result OutputError.WriteFault
        → WritingFailed W.ledger W.healthy world.old world.new }
    ensures shows { (p : Start) → W.honest p world.new
        → AppendsTo result file (records_of order.Little packets.now)
        (W.shows p world.old) (W.shows p world.new) }
    ensures before { (p : Start) → W.honest p world.new → W.honest p world.old }
{
    let mut piece = fresh_piece(alloc)?;
    for packet in packets {
        put_packet(&mut piece, packet)?;
        append_full(world, file, &mut piece)?;
    }
    append_last(world, file, &mut piece)
}

/// Writes the one output of a command, a capture: creates it, and appends its header and then the records of the
/// packets; and then the report.
pub fn write_capture<W: World>(
    alloc: Global,
    world: &mut W,
    name: &Text,
    unit: Unit,
    packets: &[Packet],
    text: &[u8],
) -> Result<(), OutputError>
    requires short { All IsShort packets.now }
    requires room { (W.ledger world.old).given < 2 ^ 32 - 1 }
    ensures writes_files { WritesFiles W.ledger W.healthy 1 world.old world.new }
    ensures cause { IsErrOf result OutputError.WriteFault
        → WritingFailed W.ledger W.healthy world.old world.new }
    ensures shows { (p : Start) → W.honest p world.new
        → Writes result (single_writes name.now (written_header unit)
        (records_of order.Little packets.now) text.now) (W.shows p world.old) (W.shows p world.new) }
    ensures before { (p : Start) → W.honest p world.new → W.honest p world.old }
{
    let file = create(world, name)?;
    append(world, file, &put_header(unit))?;
    append_packets(alloc, world, file, packets)?;
    report(world, text)
}
