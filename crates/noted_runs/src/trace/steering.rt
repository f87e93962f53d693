ghost use Rattle.std.specs.Prelude.{◌≡◌, ◌≤◌, IfOk};
ghost use Rattle.noted_runs.specs.Turns.{AreTurns};

use input_logger::InputLog;
use plain_text::{NoMemory, Packets, Sequence};
use std::alloc::Global;

/// For each packet its thread, and its number, from 1, among the inputs of the thread.
pub type Turns = Sequence<(u32, u64)>;

/// The packets of a capture, each steered to its thread.
#[derive(Drop)]
pub struct Steered {
    pub inputs: InputLog,
    /// In the order of the capture.
    pub turns: Turns,
}

/// Steers all packets of a capture to 1 to 16 threads; `tags` says whether one tag is looked through.
pub fn steer_all(
    alloc: Global,
    threads: u32,
    tags: bool,
    packets: Packets,
) -> Result<Steered, NoMemory>
    requires some { 1 ≤ threads }
    requires few { threads ≤ 16 }
    ensures inputs { IfOk result
        (λ steered. steered.inputs
        ≡ record { threads = threads; tags = tags; packets = packets }) }
    ensures turns { IfOk result (λ steered. AreTurns threads tags packets steered.turns) }
{
    let mut inputs = InputLog::new(alloc, threads, tags)?;
    let mut turns = Turns::new(alloc);
    for packet in packets.into_vec() {
        let turn = inputs.feed(packet)?;
        turns.push(turn)?;
    }
    Ok(Steered { inputs, turns })
}
