ghost use Rattle.std.specs.Prelude.{◌<◌, ◌≤◌, ◌^◌, ◌∷◌, [], All, IfOk, IfErr, IsErrOf, OnOk};
ghost use Rattle.plain_text.specs.Packets.{IsShort};
ghost use Rattle.world_io.specs.Stream.{Rose};
ghost use Rattle.world_io.specs.World.{Start};
ghost use Rattle.chain_world.specs.Chain.{NamesSystem};
ghost use Rattle.input_files.specs.Files.{KeepsOutputs, OnlyReads, OpensAll};
ghost use Rattle.job_commands.specs.Chain.{JudgesChainInputs, SaysBoxes, SaysSource};
ghost use Rattle.job_commands.specs.ChainWords.{chain_inputs, chain_names_of};
ghost use Rattle.job_commands.specs.Status.{AtInputs, ComesAt, EndsReading};

use crate::status::{box_status, capture_status, script_status, second_box_status};
use crate::{ChainWords, Status};
use box_conf::BoxConf;
use chain_text::ChainEvents;
use input_files::{Capture, read_box_file, read_capture_file, read_chain_file};
use std::alloc::Global;
use world_io::World;

/// The boxes of a chain that were accepted.
#[derive(Drop)]
pub struct Boxes {
    pub first: BoxConf,
    pub second: BoxConf,
}

/// The boxes of a chain and the capture of the first that were accepted.
#[derive(Drop)]
pub struct ChainSource {
    pub boxes: Boxes,
    pub capture: Capture,
}

/// The inputs of `chain` that were accepted.
#[derive(Drop)]
pub struct ChainInputs {
    pub source: ChainSource,
    pub events: ChainEvents,
}

/// Reads and judges the first box file, and then the second.
fn read_boxes<W: World>(
    alloc: Global,
    world: &mut W,
    names: ChainWords<'_>,
) -> Result<Boxes, Status>
    requires { (W.ledger world.old).given < 2 ^ 31 }
    ensures quiet { IfErr result EndsReading }
    ensures first { IfOk result
        (λ boxes. (1 ≤ boxes.first.threads) × (boxes.first.threads ≤ 16)) }
    ensures second { IfOk result
        (λ boxes. (1 ≤ boxes.second.threads) × (boxes.second.threads ≤ 16)) }
    ensures only_reads { OnlyReads W.ledger W.healthy (names.entry.first_box.now
        ∷ names.entry.second_box.now ∷ []) world.old world.new }
    ensures opened { OnOk result (OpensAll (names.entry.first_box.now ∷ names.entry.second_box.now ∷ [])
        (W.ledger world.old) (W.ledger world.new)) }
    ensures cause { IsErrOf result Status.ReadFault
        → Rose (W.ledger world.old).read_faults (W.ledger world.new).read_faults }
    ensures judged { (p : Start) → W.honest p world.new → SaysBoxes (W.healthy world.old)
        (chain_names_of names.entry) result (W.shows p world.old) }
    ensures stage { (p : Start) → W.honest p world.new → IfErr result (ComesAt AtInputs) }
    ensures keeps { (p : Start) → W.honest p world.new → KeepsOutputs
        (W.shows p world.old) (W.shows p world.new) }
    ensures before { (p : Start) → W.honest p world.new → W.honest p world.old }
{
    let first = match read_box_file(alloc, world, names.first_box) {
        Ok(conf) => conf,
        Err(error) => return Err(box_status(error)),
    };
    match read_box_file(alloc, world, names.second_box) {
        Ok(second) => Ok(Boxes { first, second }),
        Err(error) => Err(second_box_status(error)),
    }
}

/// Reads and judges both box files, and then the capture.
fn read_source<W: World>(
    alloc: Global,
    world: &mut W,
    names: ChainWords<'_>,
) -> Result<ChainSource, Status>
    requires { (W.ledger world.old).given < 2 ^ 31 }
    ensures quiet { IfErr result EndsReading }
    ensures first { IfOk result (λ source. (1 ≤ source.boxes.first.threads)
        × (source.boxes.first.threads ≤ 16)) }
    ensures second { IfOk result (λ source. (1 ≤ source.boxes.second.threads)
        × (source.boxes.second.threads ≤ 16)) }
    ensures short { IfOk result (λ source. All IsShort source.capture.packets) }
    ensures only_reads { OnlyReads W.ledger W.healthy (names.entry.first_box.now
        ∷ names.entry.second_box.now ∷ names.entry.capture.now ∷ []) world.old world.new }
    ensures opened { OnOk result (OpensAll (names.entry.first_box.now ∷ names.entry.second_box.now
        ∷ names.entry.capture.now ∷ []) (W.ledger world.old) (W.ledger world.new)) }
    ensures cause { IsErrOf result Status.ReadFault
        → Rose (W.ledger world.old).read_faults (W.ledger world.new).read_faults }
    ensures judged { (p : Start) → W.honest p world.new → SaysSource (W.healthy world.old)
        (chain_names_of names.entry) result (W.shows p world.old) }
    ensures stage { (p : Start) → W.honest p world.new → IfErr result (ComesAt AtInputs) }
    ensures keeps { (p : Start) → W.honest p world.new → KeepsOutputs
        (W.shows p world.old) (W.shows p world.new) }
    ensures before { (p : Start) → W.honest p world.new → W.honest p world.old }
{
    let boxes = match read_boxes(alloc, world, names) {
        Ok(boxes) => boxes,
        Err(status) => return Err(status),
    };
    match read_capture_file(alloc, world, names.capture) {
        Ok(capture) => Ok(ChainSource { boxes, capture }),
        Err(error) => Err(capture_status(error)),
    }
}

/// Reads and judges the input files, in their order: first box, second box, capture, script. The first that is not
/// accepted ends the command.
pub fn read_chain_inputs<W: World>(
    alloc: Global,
    world: &mut W,
    names: ChainWords<'_>,
) -> Result<ChainInputs, Status>
    requires { (W.ledger world.old).given < 2 ^ 31 }
    ensures quiet { IfErr result EndsReading }
    ensures first { IfOk result (λ inputs. (1 ≤ inputs.source.boxes.first.threads)
        × (inputs.source.boxes.first.threads ≤ 16)) }
    ensures second { IfOk result (λ inputs. (1 ≤ inputs.source.boxes.second.threads)
        × (inputs.source.boxes.second.threads ≤ 16)) }
    ensures short { IfOk result (λ inputs. All IsShort inputs.source.capture.packets) }
    ensures of_systems { IfOk result (λ inputs. All NamesSystem inputs.events) }
    ensures only_reads { OnlyReads W.ledger W.healthy (chain_inputs (chain_names_of names.entry))
        world.old world.new }
    ensures opened { OnOk result (OpensAll (chain_inputs (chain_names_of names.entry))
        (W.ledger world.old) (W.ledger world.new)) }
    ensures cause { IsErrOf result Status.ReadFault
        → Rose (W.ledger world.old).read_faults (W.ledger world.new).read_faults }
    ensures judged { (p : Start) → W.honest p world.new → JudgesChainInputs
        (W.healthy world.old) (chain_names_of names.entry) result (W.shows p world.old) }
    ensures stage { (p : Start) → W.honest p world.new → IfErr result (ComesAt AtInputs) }
    ensures keeps { (p : Start) → W.honest p world.new → KeepsOutputs
        (W.shows p world.old) (W.shows p world.new) }
    ensures before { (p : Start) → W.honest p world.new → W.honest p world.old }
{
    let source = match read_source(alloc, world, names) {
        Ok(source) => source,
        Err(status) => return Err(status),
    };
    match read_chain_file(alloc, world, names.script) {
        Ok(events) => Ok(ChainInputs { source, events }),
        Err(error) => Err(script_status(error)),
    }
}
