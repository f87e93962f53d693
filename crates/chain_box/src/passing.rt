ghost use Rattle.std.specs.Prelude.{◌≡◌, ◌⊎◌, All, IfOk, OnOk, Err, false};
ghost use Rattle.plain_text.specs.Packets.{IsShort};
ghost use Rattle.plain_text.specs.declared.limit.Limit.{Limit as LimitKind};
ghost use Rattle.system_parts.specs.Performing.{Appends, packets_in};
ghost use Rattle.chain_box.specs.Chains.{both, IsGoing, MovesBoth, HaltsBoth};
ghost use Rattle.chain_box.specs.Chains.{RepliesInChain, StopsInChain, PassesOn};

use access_log::Output;
use box_program::Program;
use chain_world::ChainEvent;
use plain_text::{Bytes, NoMemory, Packet};
use recovery_core::{Reply, Stop, System};
use std::alloc::Global;

/// A copy of a packet.
fn copy_packet(alloc: Global, packet: &Packet) -> Result<Packet, NoMemory>
    ensures { IfOk result (λ copy. copy ≡ packet.now) }
{
    Ok(Packet {
        seconds: packet.seconds,
        fraction: packet.fraction,
        original: packet.original,
        bytes: Bytes::of(alloc, packet.bytes.as_slice())?,
    })
}

/// The packets of these outputs are put behind those of the capture of a system, in order. Where the capture has no
/// room for them, they are taken for more than memory has.
fn pass_on<Q: Program>(system: &mut System<Q>, outputs: &[Output]) -> Result<(), NoMemory>
    requires runs { system.old.stopped ≡ false }
    requires short { All IsShort (packets_in outputs.now) }
    ensures passed { OnOk result (PassesOn (Q.meaning system.old.parts.program)
        (packets_in outputs.now) system.old system.new) }
    ensures fresh { system.new.fresh ≡ system.old.fresh }
{
    let alloc = system.alloc();
    for output in outputs {
        if !system.has_room() {
            return Err(NoMemory);
        }
        system.append(copy_packet(alloc, &output.packet)?)?;
    }
    Ok(())
}

/// Performs an event of the first of two systems. What it releases is put behind the capture of the second.
fn perform_first<P: Program, Q: Program>(
    first: &mut System<P>,
    second: &mut System<Q>,
    event: &ChainEvent,
) -> Result<Reply, Stop>
    requires going { IsGoing (P.meaning first.old.parts.program)
        (Q.meaning second.old.parts.program) first.old second.old }
    requires which { event.now.which ≡ 1 }
    ensures on { IfOk result (λ reply. MovesBoth (P.meaning first.old.parts.program)
        (Q.meaning second.old.parts.program) (RepliesInChain event.now reply)
        (both first.old second.old) (both first.new second.new)) }
    ensures goes_on { OnOk result (IsGoing (P.meaning first.new.parts.program)
        (Q.meaning second.new.parts.program) first.new second.new) }
    ensures limit { (limit : LimitKind) → result ≡ Err (Stop.Limit limit)
        → HaltsBoth (P.meaning first.old.parts.program) (Q.meaning second.old.parts.program)
        (StopsInChain event.now limit) (both first.old second.old) (both first.new second.new) }
    ensures first_appends { Appends first.old.fresh first.new.fresh }
    ensures second_appends { Appends second.old.fresh second.new.fresh }
{
    let before = first.fresh().len();
    let reply = first.on(&event.event)?;
    pass_on(second, &first.fresh().as_slice()[before..])?;
    Ok(reply)
}

/// Performs an event of one of two systems.
pub fn perform<P: Program, Q: Program>(
    first: &mut System<P>,
    second: &mut System<Q>,
    event: &ChainEvent,
) -> Result<Reply, Stop>
    requires going { IsGoing (P.meaning first.old.parts.program)
        (Q.meaning second.old.parts.program) first.old second.old }
    requires which { (event.now.which ≡ 1) ⊎ (event.now.which ≡ 2) }
    ensures on { IfOk result (λ reply. MovesBoth (P.meaning first.old.parts.program)
        (Q.meaning second.old.parts.program) (RepliesInChain event.now reply)
        (both first.old second.old) (both first.new second.new)) }
    ensures goes_on { OnOk result (IsGoing (P.meaning first.new.parts.program)
        (Q.meaning second.new.parts.program) first.new second.new) }
    ensures limit { (limit : LimitKind) → result ≡ Err (Stop.Limit limit)
        → HaltsBoth (P.meaning first.old.parts.program) (Q.meaning second.old.parts.program)
        (StopsInChain event.now limit) (both first.old second.old) (both first.new second.new) }
    ensures first_appends { Appends first.old.fresh first.new.fresh }
    ensures second_appends { Appends second.old.fresh second.new.fresh }
{
    if event.which == 1 {
        perform_first(first, second, event)
    } else {
        second.on(&event.event)
    }
}
