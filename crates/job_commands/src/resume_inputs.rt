ghost use Rattle.std.specs.Prelude.{◌≡◌, ◌<◌, ◌≤◌, ◌-◌, ◌^◌, ◌∷◌, [], All, None, IfOk, IfErr};
ghost use Rattle.std.specs.Prelude.{IfSome, IsErrOf, OnOk};
ghost use Rattle.plain_text.specs.Packets.{IsShort};
ghost use Rattle.world_io.specs.Stream.{Rose};
ghost use Rattle.world_io.specs.World.{Start};
ghost use Rattle.handover.specs.Images.{IsImage};
ghost use Rattle.handover_seal.specs.Seals.{unsealed};
ghost use Rattle.input_files.specs.Files.{KeepsOutputs, OnlyReads, OpensAll};
ghost use Rattle.job_commands.specs.HandWords.{resume_names_of, resume_source};
ghost use Rattle.job_commands.specs.Resume.{HasSealFault, IsSealed, JudgesOneScript};
ghost use Rattle.job_commands.specs.Resume.{JudgesResumeSource, JudgesSourceFiles, seal_cause};
ghost use Rattle.job_commands.specs.Status.{AtInputs, ComesAt, EndsReading};

use crate::first_inputs::read_first_inputs;
use crate::status::{image_status, script_status};
use crate::{InputFault, ResumeWords, Status};
use box_conf::BoxConf;
use hand_faults::{HandCause, HandFault};
use handover_seal::{SealFault, seal_after, seal_fault, texts_are_of_one_seal};
use input_files::{Capture, ImageFile, read_image_file, read_script_file};
use plain_text::{NoMemory, Text};
use script_text::Events;
use std::alloc::Global;
use world_io::World;

/// The inputs of `resume` before its script, which were accepted. Whether its box can go on from the image is not
/// judged yet.
#[derive(Drop)]
pub struct ResumeSource {
    pub conf: BoxConf,
    pub capture: Capture,
    pub image: ImageFile,
}

/// Reads and judges the input files before the script, in their order: box, capture, handover. The first that is not
/// accepted ends the command.
fn read_source_files<W: World>(
    alloc: Global,
    world: &mut W,
    names: ResumeWords<'_>,
) -> Result<ResumeSource, Status>
    requires { (W.ledger world.old).given < 2 ^ 31 }
    ensures quiet { IfErr result EndsReading }
    ensures some_threads { IfOk result (λ source. 1 ≤ source.conf.threads) }
    ensures few_threads { IfOk result (λ source. source.conf.threads ≤ 16) }
    ensures short { IfOk result (λ source. All IsShort source.capture.packets) }
    ensures image { IfOk result (λ source. IsImage
        (unsealed source.image.text) source.image.image) }
    ensures only_reads { OnlyReads W.ledger W.healthy (resume_source (resume_names_of names.entry))
        world.old world.new }
    ensures opened { OnOk result (OpensAll (resume_source (resume_names_of names.entry))
        (W.ledger world.old) (W.ledger world.new)) }
    ensures cause { IsErrOf result Status.ReadFault
        → Rose (W.ledger world.old).read_faults (W.ledger world.new).read_faults }
    ensures judged { (p : Start) → W.honest p world.new → JudgesSourceFiles
        (W.healthy world.old) (resume_names_of names.entry) result (W.shows p world.old) }
    ensures stage { (p : Start) → W.honest p world.new → IfErr result (ComesAt AtInputs) }
    ensures keeps { (p : Start) → W.honest p world.new → KeepsOutputs
        (W.shows p world.old) (W.shows p world.new) }
    ensures before { (p : Start) → W.honest p world.new → W.honest p world.old }
{
    let first = match read_first_inputs(alloc, world, names.box_file, names.capture) {
        Ok(first) => first,
        Err(status) => return Err(status),
    };
    match read_image_file(alloc, world, names.handover) {
        Ok(image) => Ok(ResumeSource {
            conf: first.conf,
            capture: first.capture,
            image,
        }),
        Err(error) => Err(image_status(error)),
    }
}

/// Why the text of a handover is not one of this box and this capture.
fn seal_refusal(alloc: Global, source: &ResumeSource) -> Result<Option<HandFault>, NoMemory>
    ensures sealed { IfOk result (λ refusal. refusal ≡ None → IsSealed source.now) }
    ensures refused { IfOk result (λ refusal. IfSome refusal (HasSealFault source.now)) }
{
    texts_are_of_one_seal();
    let fed = source.image.image.fed;
    let packets = source.capture.packets.as_slice();
    let seal = seal_after(source.conf.seal, source.capture.unit, packets, fed);
    match seal_fault(alloc, seal, source.image.text.as_slice())? {
        Some(fault) => Ok(Some(HandFault {
            line: 1,
            cause: seal_cause(fault),
        })),
        None => Ok(None),
    }
}

fn seal_cause(fault: SealFault) -> HandCause
    ensures { result ≡ seal_cause fault }
{
    match fault {
        SealFault::OtherBox => HandCause::Box,
        SealFault::OtherCapture => HandCause::Capture,
    }
}

/// Reads and judges the input files before the script, in their order: box, capture, handover; and whether the
/// handover is one of this box and this capture. The first that is not accepted ends the command.
pub fn read_resume_source<W: World>(
    alloc: Global,
    world: &mut W,
    names: ResumeWords<'_>,
) -> Result<ResumeSource, Status>
    requires { (W.ledger world.old).given < 2 ^ 31 }
    ensures quiet { IfErr result EndsReading }
    ensures some_threads { IfOk result (λ source. 1 ≤ source.conf.threads) }
    ensures few_threads { IfOk result (λ source. source.conf.threads ≤ 16) }
    ensures short { IfOk result (λ source. All IsShort source.capture.packets) }
    ensures image { IfOk result (λ source. IsImage
        (unsealed source.image.text) source.image.image) }
    ensures only_reads { OnlyReads W.ledger W.healthy (resume_source (resume_names_of names.entry))
        world.old world.new }
    ensures opened { OnOk result (OpensAll (resume_source (resume_names_of names.entry))
        (W.ledger world.old) (W.ledger world.new)) }
    ensures cause { IsErrOf result Status.ReadFault
        → Rose (W.ledger world.old).read_faults (W.ledger world.new).read_faults }
    ensures judged { (p : Start) → W.honest p world.new → JudgesResumeSource
        (W.healthy world.old) (resume_names_of names.entry) result (W.shows p world.old) }
    ensures stage { (p : Start) → W.honest p world.new → IfErr result (ComesAt AtInputs) }
    ensures keeps { (p : Start) → W.honest p world.new → KeepsOutputs
        (W.shows p world.old) (W.shows p world.new) }
    ensures before { (p : Start) → W.honest p world.new → W.honest p world.old }
{
    match read_source_files(alloc, world, names) {
        Ok(source) => match seal_refusal(alloc, &source) {
            Ok(None) => Ok(source),
            Ok(Some(fault)) => Err(Status::BadInput(InputFault::Handover(fault))),
            Err(NoMemory) => Err(Status::NoMemory),
        },
        Err(status) => Err(status),
    }
}

/// Reads and judges a script alone.
pub fn read_script<W: World>(alloc: Global, world: &mut W, name: &Text) -> Result<Events, Status>
    requires { (W.ledger world.old).given < 2 ^ 32 - 1 }
    ensures quiet { IfErr result EndsReading }
    ensures only_reads { OnlyReads W.ledger W.healthy (name.now ∷ []) world.old world.new }
    ensures opened { OnOk result
        (OpensAll (name.now ∷ []) (W.ledger world.old) (W.ledger world.new)) }
    ensures cause { IsErrOf result Status.ReadFault
        → Rose (W.ledger world.old).read_faults (W.ledger world.new).read_faults }
    ensures judged { (p : Start) → W.honest p world.new → JudgesOneScript
        (W.healthy world.old) name.now result (W.shows p world.old) }
    ensures stage { (p : Start) → W.honest p world.new → IfErr result (ComesAt AtInputs) }
    ensures keeps { (p : Start) → W.honest p world.new → KeepsOutputs
        (W.shows p world.old) (W.shows p world.new) }
    ensures before { (p : Start) → W.honest p world.new → W.honest p world.old }
{
    match read_script_file(alloc, world, name) {
        Ok(events) => Ok(events),
        Err(error) => Err(script_status(error)),
    }
}
