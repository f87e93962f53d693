ghost use Rattle.std.specs.Prelude.{◌≡◌, ◌+◌, ◌<◌, ◌≤◌, ◌-◌, ◌^◌, ◌∷◌, [], false};
ghost use Rattle.world_io.specs.Stream.{Rose};
ghost use Rattle.world_io.specs.World.{Start, KeepsOrder, WritingFailed};
ghost use Rattle.recovery_world.specs.World.{Setting, World as SystemWorld};
ghost use Rattle.handover.specs.Images.{IsImage};
ghost use Rattle.handover.specs.declared.image.Image.{Image};
ghost use Rattle.handover_seal.specs.Seals.{unsealed};
ghost use Rattle.handover_world.specs.Faults.{IsFault};
ghost use Rattle.input_files.specs.Files.{OpensAll, OpensFirst};
ghost use Rattle.hand_command.specs.FromRunCommand.{IsSomewhere, IsSystemAt};
ghost use Rattle.hand_command.specs.Hand.{IsHandedOver};
ghost use Rattle.job_commands.specs.HandWords.{resume_names_of};
ghost use Rattle.job_commands.specs.Resume.{resumed_setting};
ghost use Rattle.job_commands.specs.Status.{IsRefusal};
ghost use Rattle.job_top.specs.Resume.{CanResume, GoesOnBy, GoesOnFrom, IsRefusedSo};
ghost use Rattle.job_top.specs.Resume.{resumption_of, setting_from};
ghost use Rattle.job_commands.specs.Answers.{AnswersAs};
ghost use Rattle.job_top.specs.Resume.{resume_meaning};

use box_conf::BoxKind;
use box_program::Program;
use hand_command::run_from;
use hand_faults::hand_fault;
use handover_seal::unsealed;
use handover_world::{ResumeError, images_stand_for_worlds};
use input_files::ImageFile;
use job_commands::{
    InputFault, ResumeSource, ResumeWords, Status, read_resume_source, read_script, run_outcome,
};
use noted_runs::System;
use plain_text::{Packets, Unit};
use run_writes::RunFiles;
use std::alloc::Global;
use world_io::World;

/// What a system goes on from: its shape, the packets of its capture, and the image that it is handed.
#[derive(Drop)]
pub(crate) struct Resumption {
    /// The number of threads, 1 to 16.
    pub(crate) threads: u32,
    /// Whether one tag is looked through.
    pub(crate) tags: bool,
    /// The seed of the generator of random words.
    pub(crate) seed: u64,
    /// What the fractions of the packets count.
    pub(crate) unit: Unit,
    /// The packets of the capture, in its order, at most 65,536.
    pub(crate) packets: Packets,
    /// The text of the handover, and its image.
    pub(crate) image: ImageFile,
}

/// The status of an image that is refused with this error.
fn refuse_image<X>(file: &ImageFile, error: ResumeError) -> Status
    requires image { IsImage (unsealed file.now.text) file.now.image }
    requires fault { (s : Setting X) × IsFault s file.now.image error }
    ensures { IsRefusedSo file.now error result }
{
    match error {
        ResumeError::NoMemory => Status::NoMemory,
        ResumeError::Count(_) | ResumeError::Move(_) | ResumeError::Released(_) => {
            let fault = hand_fault::<X>(unsealed(file.text.as_slice()), &file.image, error);
            Status::BadInput(InputFault::Handover(fault))
        }
    }
}

/// Reads the script, and runs its events from where the system is.
fn resume_script<P: Program, W: World>(
    alloc: Global,
    world: &mut W,
    names: ResumeWords<'_>,
    unit: Unit,
    system: System<P>,
) -> Status
    requires room { (W.ledger world.old).given < 2 ^ 32 - 3 }
    requires apart { names.released.now ≡ names.schedule.now → ⊥ }
    requires runs { system.stopped ≡ false }
    requires somewhere { IsSomewhere (P.meaning system.parts.program) system }
    ensures shows { (p : Start) → W.honest p world.new
        → (s : Setting P.Value) (image : Image) → s.fractions ≡ unit
        → ((w : SystemWorld P.Value) → IsHandedOver s w image
        → IsSystemAt (P.meaning system.parts.program) s w system)
        → GoesOnBy (W.healthy world.old) s image (resume_names_of names.entry) result
        (W.shows p world.old) (W.shows p world.new) }
    ensures creates_nothing { IsRefusal result
        → (W.ledger world.new).created ≡ (W.ledger world.old).created }
    ensures words { result ≡ Status.BadWords → ⊥ }
    ensures opens_in_order { OpensFirst (names.entry.script.now ∷ [])
        (W.ledger world.old) (W.ledger world.new) }
    ensures opens_all { result ≡ Status.Done → OpensAll (names.entry.script.now ∷ [])
        (W.ledger world.old) (W.ledger world.new) }
    ensures orderly { KeepsOrder (W.ledger world.old) (W.ledger world.new) }
    ensures given { (W.ledger world.new).given ≤ (W.ledger world.old).given + 3 }
    ensures read_fault { result ≡ Status.ReadFault
        → Rose (W.ledger world.old).read_faults (W.ledger world.new).read_faults }
    ensures write_fault { result ≡ Status.WriteFault
        → WritingFailed W.ledger W.healthy world.old world.new }
    ensures before { (p : Start) → W.honest p world.new → W.honest p world.old }
{
    match read_script(alloc, world, names.script) {
        Ok(events) => {
            let files = RunFiles {
                released: names.released,
                schedule: names.schedule,
            };
            let run = run_from(alloc, world, files, unit, events.as_slice(), system);
            run_outcome(run)
        }
        Err(status) => {
            system.discard();
            status
        }
    }
}

/// Makes a system of this box that goes on from the image, and runs the events of the script.
fn resume_box<P: Program, W: World>(
    alloc: Global,
    world: &mut W,
    names: ResumeWords<'_>,
    from: Resumption,
    program: P,
) -> Status
    requires room { (W.ledger world.old).given < 2 ^ 32 - 3 }
    requires apart { names.released.now ≡ names.schedule.now → ⊥ }
    requires inputs { CanResume from }
    ensures shows { (p : Start) → W.honest p world.new → GoesOnFrom (W.healthy world.old)
        (setting_from (P.meaning program) from) from.image (resume_names_of names.entry) result
        (W.shows p world.old) (W.shows p world.new) }
    ensures creates_nothing { IsRefusal result
        → (W.ledger world.new).created ≡ (W.ledger world.old).created }
    ensures words { result ≡ Status.BadWords → ⊥ }
    ensures opens_in_order { OpensFirst (names.entry.script.now ∷ [])
        (W.ledger world.old) (W.ledger world.new) }
    ensures opens_all { result ≡ Status.Done → OpensAll (names.entry.script.now ∷ [])
        (W.ledger world.old) (W.ledger world.new) }
    ensures orderly { KeepsOrder (W.ledger world.old) (W.ledger world.new) }
    ensures given { (W.ledger world.new).given ≤ (W.ledger world.old).given + 3 }
    ensures read_fault { result ≡ Status.ReadFault
        → Rose (W.ledger world.old).read_faults (W.ledger world.new).read_faults }
    ensures write_fault { result ≡ Status.WriteFault
        → WritingFailed W.ledger W.healthy world.old world.new }
    ensures before { (p : Start) → W.honest p world.new → W.honest p world.old }
{
    images_stand_for_worlds::<P::Value>();
    let system = System::resume(
        alloc,
        program,
        from.threads,
        from.tags,
        from.seed,
        from.unit,
        from.packets,
        &from.image.image,
    );
    match system {
        Ok(system) => resume_script(alloc, world, names, from.unit, system),
        Err(error) => refuse_image::<P::Value>(&from.image, error),
    }
}

/// Makes a system of the box that the inputs name, which goes on from the image, and runs the events of the script.
fn resume_kinds<W: World>(
    alloc: Global,
    world: &mut W,
    names: ResumeWords<'_>,
    source: ResumeSource,
) -> Status
    requires room { (W.ledger world.old).given < 2 ^ 32 - 3 }
    requires apart { names.released.now ≡ names.schedule.now → ⊥ }
    requires inputs { CanResume (resumption_of source) }
    ensures shows { (p : Start) → W.honest p world.new → GoesOnFrom (W.healthy world.old)
        (resumed_setting source) source.image (resume_names_of names.entry) result
        (W.shows p world.old) (W.shows p world.new) }
    ensures creates_nothing { IsRefusal result
        → (W.ledger world.new).created ≡ (W.ledger world.old).created }
    ensures words { result ≡ Status.BadWords → ⊥ }
    ensures opens_in_order { OpensFirst (names.entry.script.now ∷ [])
        (W.ledger world.old) (W.ledger world.new) }
    ensures opens_all { result ≡ Status.Done → OpensAll (names.entry.script.now ∷ [])
        (W.ledger world.old) (W.ledger world.new) }
    ensures orderly { KeepsOrder (W.ledger world.old) (W.ledger world.new) }
    ensures given { (W.ledger world.new).given ≤ (W.ledger world.old).given + 3 }
    ensures read_fault { result ≡ Status.ReadFault
        → Rose (W.ledger world.old).read_faults (W.ledger world.new).read_faults }
    ensures write_fault { result ≡ Status.WriteFault
        → WritingFailed W.ledger W.healthy world.old world.new }
    ensures before { (p : Start) → W.honest p world.new → W.honest p world.old }
{
    let conf = source.conf;
    let from = Resumption {
        threads: conf.threads,
        tags: conf.tags,
        seed: conf.seed,
        unit: source.capture.unit,
        packets: source.capture.packets,
        image: source.image,
    };
    match conf.kind {
        BoxKind::Count(count) => resume_box(alloc, world, names, from, count),
        BoxKind::Monitor(monitor) => resume_box(alloc, world, names, from, monitor),
        BoxKind::Nat(nat) => resume_box(alloc, world, names, from, nat),
        BoxKind::Balancer(balancer) => resume_box(alloc, world, names, from, balancer),
    }
}

/// The command `resume`: all inputs are judged before an output is created, the seal of the handover and its image
/// before the script is read.
pub(crate) fn resume<W: World>(alloc: Global, world: &mut W, names: ResumeWords<'_>) -> Status
    requires room { (W.ledger world.old).given < 2 ^ 31 }
    requires apart { names.released.now ≡ names.schedule.now → ⊥ }
    ensures { AnswersAs W.honest W.shows W.ledger W.healthy
        (resume_meaning (resume_names_of names.entry)) result world.old world.new }
{
    match read_resume_source(alloc, world, names) {
        Ok(source) => resume_kinds(alloc, world, names, source),
        Err(status) => status,
    }
}
