ghost use Rattle.std.specs.Prelude.{◌≡◌, ◌<◌, ◌≤◌, ◌-◌, ◌^◌, All, length, vec_len, IfOk};
ghost use Rattle.std.specs.Prelude.{◌∷◌, [], OnOk, IsErrOf, List, ℕ};
ghost use Rattle.plain_text.specs.declared.limit.TheConstants.{MOST_PACKETS};
ghost use Rattle.plain_text.specs.Octets.{IsOfBytes};
ghost use Rattle.plain_text.specs.Packets.{IsShort};
ghost use Rattle.pcapng_io.specs.Captured.{SaysAny, CapturesPackets};
ghost use Rattle.world_io.specs.Stream.{Rose, GoesOn, HasFailed};
ghost use Rattle.world_io.specs.World.{Start};
ghost use Rattle.world_io.specs.Taking.{TakesSome};
ghost use Rattle.input_files.specs.Answers.{SaysCapture};
ghost use Rattle.input_files.specs.Files.{KeepsOutputs, OnlyReads, OpensAll};
ghost use Rattle.input_files.specs.Judging.{JudgesCapture};

use crate::InputError;
use pcapng_io::{AnyCaptured, AnyFault, read_any_capture};
use plain_text::{NoMemory, Packets, Text, Unit};
use std::alloc::Global;
use world_io::{BufferedSource, OpenFault, Source, World, WorldSource};

/// The bytes of a capture that are held at once.
const BUFFER: usize = 65_536;

/// The packets of a capture, and what their fractions count.
#[derive(Drop)]
pub struct Capture {
    /// What the fractions of the packets count: nanoseconds where the file is a pcapng capture.
    pub unit: Unit,
    /// The packets in the order of the file, at most 65,536.
    pub packets: Packets,
}

/// Reads and judges the capture, of either format, in pieces.
pub fn read_capture_file<W: World>(
    alloc: Global,
    world: &mut W,
    name: &Text,
) -> Result<Capture, InputError<AnyFault>>
    requires { (W.ledger world.old).given < 2 ^ 32 - 1 }
    ensures few { IfOk result (λ capture. length capture.packets ≤ MOST_PACKETS) }
    ensures short { IfOk result (λ capture. All IsShort capture.packets) }
    ensures bytes { IfOk result (λ capture. All IsOfBytes capture.packets) }
    ensures only_reads { OnlyReads W.ledger W.healthy (name.now ∷ []) world.old world.new }
    ensures opened { OnOk result
        (OpensAll (name.now ∷ []) (W.ledger world.old) (W.ledger world.new)) }
    ensures cause { IsErrOf result InputError.ReadFault
        → Rose (W.ledger world.old).read_faults (W.ledger world.new).read_faults }
    ensures judged { (p : Start) → W.honest p world.new
        → JudgesCapture (W.healthy world.old) name.now result (W.shows p world.old) }
    ensures keeps { (p : Start) → W.honest p world.new
        → KeepsOutputs (W.shows p world.old) (W.shows p world.new) }
    ensures before { (p : Start) → W.honest p world.new → W.honest p world.old }
{
    let file = match world.open_file(name) {
        Ok(file) => file,
        Err(OpenFault::Failed) => return Err(InputError::ReadFault),
        Err(OpenFault::NoMemory) => return Err(InputError::NoMemory),
    };
    let Ok(buffer) = new_buffer(alloc) else {
        return Err(InputError::NoMemory);
    };
    let mut source = WorldSource::of(world, file);
    accepted(read_buffered(alloc, &mut source, buffer))
}

/// The room for the bytes that are held.
fn new_buffer(alloc: Global) -> Result<Vec<u8>, NoMemory>
    ensures { IfOk result (λ buffer. 0 < vec_len buffer) }
{
    Ok(vec![in alloc; 0u8; BUFFER]?)
}

/// The capture, where what was read is one.
fn accepted(captured: AnyCaptured) -> Result<Capture, InputError<AnyFault>>
    requires { CapturesPackets captured }
    ensures says { (bytes : List ℕ) → SaysAny bytes captured
        → ¬ IsErrOf result InputError.ReadFault → SaysCapture bytes result }
    ensures failed { IsErrOf result InputError.ReadFault → captured ≡ AnyCaptured.ReadFault }
    ensures few { IfOk result (λ capture. length capture.packets ≤ MOST_PACKETS) }
    ensures short { IfOk result (λ capture. All IsShort capture.packets) }
    ensures bytes { IfOk result (λ capture. All IsOfBytes capture.packets) }
{
    match captured {
        AnyCaptured::Capture { unit, packets } => Ok(Capture { unit, packets }),
        AnyCaptured::Refused(fault) => Err(InputError::Fault(fault)),
        AnyCaptured::TooLarge(limit) => Err(InputError::TooLarge(limit)),
        AnyCaptured::ReadFault => Err(InputError::ReadFault),
        AnyCaptured::NoMemory => Err(InputError::NoMemory),
    }
}

/// Reads a capture through a buffer.
fn read_buffered<S: Source>(alloc: Global, source: &mut S, buffer: Vec<u8>) -> AnyCaptured
    requires { 0 < vec_len buffer }
    ensures reads { TakesSome S.reads source.old source.new }
    ensures packets { CapturesPackets result }
    ensures goes_on { GoesOn S.faults S.healthy source.old source.new }
    ensures cause { result ≡ AnyCaptured.ReadFault
        → HasFailed S.faults S.healthy source.old source.new }
    ensures shows { (p : Start) → S.honest p source.new → SaysAny (S.remains p source.old) result }
{
    let mut buffered = BufferedSource::of(source, buffer);
    let captured = read_any_capture(alloc, &mut buffered);
    let _below = buffered.into_inner();
    captured
}
