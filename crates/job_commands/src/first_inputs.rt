ghost use Rattle.std.specs.Prelude.{◌<◌, ◌≤◌, ◌^◌, ◌∷◌, [], All, IfOk, IfErr, IsErrOf, OnOk};
ghost use Rattle.plain_text.specs.Packets.{IsShort};
ghost use Rattle.world_io.specs.Stream.{Rose};
ghost use Rattle.input_files.specs.Files.{KeepsOutputs, OnlyReads, OpensAll};
ghost use Rattle.job_commands.specs.Status.{AtInputs, ComesAt, EndsReading};
ghost use Rattle.job_commands.specs.Turns.{JudgesFirst};
ghost use Rattle.world_io.specs.World.{Start};

use crate::Status;
use crate::status::{box_status, capture_status};
use box_conf::BoxConf;
use input_files::{Capture, read_box_file, read_capture_file};
use plain_text::Text;
use std::alloc::Global;
use world_io::World;

/// The inputs that each command of a box reads first, which were accepted. `drill` has no other.
#[derive(Drop)]
pub struct FirstInputs {
    pub conf: BoxConf,
    pub capture: Capture,
}

/// Reads and judges the box file, and then the capture.
pub fn read_first_inputs<W: World>(
    alloc: Global,
    world: &mut W,
    box_file: &Text,
    capture: &Text,
) -> Result<FirstInputs, Status>
    requires { (W.ledger world.old).given < 2 ^ 31 }
    ensures quiet { IfErr result EndsReading }
    ensures some_threads { IfOk result (λ first. 1 ≤ first.conf.threads) }
    ensures few_threads { IfOk result (λ first. first.conf.threads ≤ 16) }
    ensures short { IfOk result (λ first. All IsShort first.capture.packets) }
    ensures only_reads { OnlyReads W.ledger W.healthy (box_file.now ∷ capture.now ∷ [])
        world.old world.new }
    ensures opened { OnOk result (OpensAll (box_file.now ∷ capture.now ∷ [])
        (W.ledger world.old) (W.ledger world.new)) }
    ensures cause { IsErrOf result Status.ReadFault
        → Rose (W.ledger world.old).read_faults (W.ledger world.new).read_faults }
    ensures judged { (p : Start) → W.honest p world.new → JudgesFirst (W.healthy world.old)
        box_file.now capture.now result (W.shows p world.old) }
    ensures stage { (p : Start) → W.honest p world.new → IfErr result (ComesAt AtInputs) }
    ensures keeps { (p : Start) → W.honest p world.new → KeepsOutputs
        (W.shows p world.old) (W.shows p world.new) }
    ensures before { (p : Start) → W.honest p world.new → W.honest p world.old }
{
    let conf = match read_box_file(alloc, world, box_file) {
        Ok(conf) => conf,
        Err(error) => return Err(box_status(error)),
    };
    match read_capture_file(alloc, world, capture) {
        Ok(capture) => Ok(FirstInputs { conf, capture }),
        Err(error) => Err(capture_status(error)),
    }
}
