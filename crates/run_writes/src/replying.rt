ghost use Rattle.std.specs.Prelude.{◌≡◌, ◌<◌, ◌≤◌, ◌^◌, ◌∷◌, ◌++◌, [], ℕ, All, List, length, IfOk};
ghost use Rattle.std.specs.Prelude.{OnOk};
ghost use Rattle.std.specs.Prelude.{OnErr};
ghost use Rattle.std.specs.Prelude.{IsTrue, IsErrOf};
ghost use Rattle.plain_text.specs.Octets.{AreBytes};
ghost use Rattle.plain_text.specs.Packets.{IsShort};
ghost use Rattle.pcap_io.specs.Capture.{record_of, records_of};
ghost use Rattle.pcap_io.specs.declared.order.Order.TheVariants as order;
ghost use Rattle.world_io.specs.World.{Start, Shown, is_writable, WritingFailed};
ghost use Rattle.output_files.specs.Writes.{Write, Appends, Reports, HasGathered, IsOutput};
ghost use Rattle.output_files.specs.Writes.{KeepsOutputs};
ghost use Rattle.output_files.specs.Written.{AppendsTo, Writes, WritesGathered, OnlyWrites};
ghost use Rattle.run_writes.specs.Replies.{packets_in};
ghost use Rattle.run_writes.specs.Run.{FitsRecord, release_writes, reply_writes};

use access_log::Output;
use output_files::{OutputError, PIECE, PIECE_ROOM, append_full, append_last, write_lines};
use pcap_io::{put_packet, record_len};
use plain_text::{Bytes, NoMemory, Packet};
use std::alloc::Global;
use world_io::World;

/// The bytes of lines that are gathered before they are written, at most, but for the last line.
const GATHERED: usize = 65_536;

/// Numbers of 32 bits are below 2^32.
fn have_32_bits(seconds: u32, fraction: u32, original: u32)
    ensures seconds { seconds < 2 ^ 32 }
    ensures fraction { fraction < 2 ^ 32 }
    ensures original { original < 2 ^ 32 }
{}

/// Bytes are below 2^8.
fn have_8_bits(bytes: &[u8])
    ensures { AreBytes bytes.now }
{}

/// Appends the record of a packet, which fits it: its numbers have 32 bits, and its bytes 8.
fn put_record(records: &mut Bytes, packet: &Packet) -> Result<(), NoMemory>
    requires { IsShort packet.now }
    ensures ok { OnOk result (records.new ≡ records.old ++ record_of order.Little packet.now) }
    ensures err { OnErr result (records.new ≡ records.old) }
    ensures fits { FitsRecord packet.now }
{
    have_32_bits(packet.seconds, packet.fraction, packet.original);
    have_8_bits(packet.bytes.as_slice());
    put_packet(records, packet)
}

/// No bytes, with room for the records of the packets of outputs, or of as many as a piece has.
fn room_for(alloc: Global, outputs: &[Output]) -> Result<Bytes, NoMemory>
    requires { All IsShort (packets_in outputs.now) }
    ensures { IfOk result (λ bytes. bytes ≡ []) }
{
    let mut room: usize = 0;
    for output in outputs {
        room = room.saturating_add(record_len(&output.packet));
        if room > PIECE {
            return Ok(Bytes::from_vec(Vec::with_capacity(alloc, PIECE_ROOM)?));
        }
    }
    Ok(Bytes::from_vec(Vec::with_capacity(alloc, room)?))
}

/// Appends the records of the packets of outputs to a created file, in order. They are gathered by pieces, in the same
/// memory.
fn append_outputs<W: World>(
    alloc: Global,
    world: &mut W,
    file: u32,
    outputs: &[Output],
) -> Result<(), OutputError>
    requires short { All IsShort (packets_in outputs.now) }
    requires writable { IsTrue (is_writable (W.ledger world.old) file) }
    ensures fit_records { OnOk result (All FitsRecord (packets_in outputs.now)) }
    ensures only_writes { OnlyWrites W.ledger W.healthy world.old world.new }
    ensures cause { IsErrOf result OutputError.WriteFault
        → WritingFailed W.ledger W.healthy world.old world.new }
    ensures shows { (p : Start) → W.honest p world.new → AppendsTo result file
        (records_of order.Little (packets_in outputs.now))
        (W.shows p world.old) (W.shows p world.new) }
    ensures before { (p : Start) → W.honest p world.new → W.honest p world.old }
{
    let mut piece = room_for(alloc, outputs)?;
    for output in outputs {
        put_record(&mut piece, &output.packet)?;
        append_full(world, file, &mut piece)?;
    }
    append_last(world, file, &mut piece)
}

/// Appends the records of the packets of outputs to an output, behind the gathered lines: where there are outputs, the
/// lines go to the report first.
pub fn write_outputs<W: World>(
    alloc: Global,
    world: &mut W,
    file: u32,
    lines: &mut Bytes,
    outputs: &[Output],
) -> Result<(), OutputError>
    requires short { All IsShort (packets_in outputs.now) }
    requires writable { IsTrue (is_writable (W.ledger world.old) file) }
    ensures fit_records { OnOk result (All FitsRecord (packets_in outputs.now)) }
    ensures only_writes { OnlyWrites W.ledger W.healthy world.old world.new }
    ensures cause { IsErrOf result OutputError.WriteFault
        → WritingFailed W.ledger W.healthy world.old world.new }
    ensures shows { (p : Start) → W.honest p world.new
        → (before : Shown) (writes : List Write) (name : List ℕ)
        → IsOutput file name (W.shows p world.old)
        → HasGathered writes lines.old before (W.shows p world.old)
        → WritesGathered result
        (writes ++ Appends name (records_of order.Little (packets_in outputs.now)) ∷ [])
        lines.new before (W.shows p world.new) }
    ensures keeps { (p : Start) → W.honest p world.new
        → KeepsOutputs (W.shows p world.old) (W.shows p world.new) }
    ensures before { (p : Start) → W.honest p world.new → W.honest p world.old }
{
    if outputs.is_empty() {
        return Ok(());
    }
    write_lines(world, lines)?;
    append_outputs(alloc, world, file, outputs)
}

/// Writes what an event that was performed leaves: the records of what it released, and then its line, which may be
/// gathered: 65,536 bytes at most.
pub fn write_reply<W: World>(
    alloc: Global,
    world: &mut W,
    file: u32,
    lines: &mut Bytes,
    line: &[u8],
    outputs: &[Output],
) -> Result<(), OutputError>
    requires short { All IsShort (packets_in outputs.now) }
    requires writable { IsTrue (is_writable (W.ledger world.old) file) }
    ensures gathered { OnOk result (length lines.new ≤ 65536) }
    ensures fit_records { OnOk result (All FitsRecord (packets_in outputs.now)) }
    ensures only_writes { OnlyWrites W.ledger W.healthy world.old world.new }
    ensures cause { IsErrOf result OutputError.WriteFault
        → WritingFailed W.ledger W.healthy world.old world.new }
    ensures shows { (p : Start) → W.honest p world.new
        → (before : Shown) (writes : List Write) (name : List ℕ)
        → IsOutput file name (W.shows p world.old)
        → HasGathered writes lines.old before (W.shows p world.old)
        → WritesGathered result (writes ++ reply_writes name (record {
          released = packets_in outputs.now;
          line = line.now;
        })) lines.new before (W.shows p world.new) }
    ensures keeps { (p : Start) → W.honest p world.new
        → KeepsOutputs (W.shows p world.old) (W.shows p world.new) }
    ensures before { (p : Start) → W.honest p world.new → W.honest p world.old }
{
    write_outputs(alloc, world, file, lines, outputs)?;
    lines.extend(line)?;
    if lines.len() > GATHERED {
        write_lines(world, lines)?;
    }
    Ok(())
}

/// Writes what an event that stopped at a limit released, behind the lines of the events before it.
pub fn write_stopped<W: World>(
    alloc: Global,
    world: &mut W,
    file: u32,
    lines: &mut Bytes,
    released: &[Output],
) -> Result<(), OutputError>
    requires short { All IsShort (packets_in released.now) }
    requires writable { IsTrue (is_writable (W.ledger world.old) file) }
    ensures only_writes { OnlyWrites W.ledger W.healthy world.old world.new }
    ensures cause { IsErrOf result OutputError.WriteFault
        → WritingFailed W.ledger W.healthy world.old world.new }
    ensures shows { (p : Start) → W.honest p world.new
        → (before : Shown) (writes : List Write) (name : List ℕ)
        → IsOutput file name (W.shows p world.old)
        → HasGathered writes lines.old before (W.shows p world.old)
        → Writes result (writes ++ release_writes name (packets_in released.now)) before
        (W.shows p world.new) }
    ensures keeps { (p : Start) → W.honest p world.new
        → KeepsOutputs (W.shows p world.old) (W.shows p world.new) }
    ensures before { (p : Start) → W.honest p world.new → W.honest p world.old }
{
    write_outputs(alloc, world, file, lines, released)?;
    write_lines(world, lines)
}
