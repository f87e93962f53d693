ghost use Rattle.std.specs.Prelude.{◌≡◌, ◌≤◌, ℕ, IfOk, All, length, map};
ghost use Rattle.input_logger.specs.Inputs.{inputs_of};
ghost use Rattle.plain_machine.specs.History.{play as outcome_of};
ghost use Rattle.schedule_check.specs.Checking.{IsEmitted};

use box_program::Program;
use input_logger::InputLog;
use plain_machine::Schedule;
use plain_player::{Emissions, PlayError, play};
use plain_text::{NoMemory, Packets};
use std::alloc::Global;

/// The packets that a schedule sends out, in order, or its first illegal move.
///
/// The schedule is played by the plain machine on the inputs that were fed. Each packet has the length of its input.
pub fn emit<P: Program>(
    alloc: Global,
    program: &P,
    inputs: &InputLog,
    schedule: &Schedule,
) -> Result<Packets, PlayError>
    ensures emits { IsEmitted (outcome_of (P.meaning program.now) (inputs_of inputs.now)
        inputs.now.threads schedule.now) result }
    ensures as_long { IfOk result (λ packets. (most : ℕ)
        → All (λ packet. length packet.bytes ≤ most) inputs.now.packets
        → All (λ packet. length packet.bytes ≤ most) packets) }
{
    let played = play(alloc, program, inputs, schedule)?;
    let packets = packets_of(alloc, played.emissions)?;
    Ok(packets)
}

/// The packets of emissions, in order. Their bytes are not copied.
fn packets_of(alloc: Global, emissions: Emissions) -> Result<Packets, NoMemory>
    ensures { IfOk result (λ packets. packets ≡ map (λ emission. emission.packet) emissions) }
{
    let mut packets = Packets::new(alloc);
    for emission in emissions.into_vec() {
        packets.push(emission.packet)?;
    }
    Ok(packets)
}
