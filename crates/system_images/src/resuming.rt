//! A system goes on from an image.
ghost use Rattle.std.specs.Prelude.{◌≡◌, ◌≤◌, [], All, IfOk, OnOk, Err};
ghost use Rattle.handover_world.specs.Faults.{AreReleased, HasNoFault, IsFault};
ghost use Rattle.handover_world.specs.declared.fault.ResumeError.{ResumeError as ResumeErrorKind};
ghost use Rattle.handover_world.specs.Images.{IsAtRest, IsImageOf};
ghost use Rattle.plain_text.specs.Packets.{IsShort};
ghost use Rattle.plain_text.specs.declared.limit.TheConstants.{MOST_MOVES as most_moves};
ghost use Rattle.plain_text.specs.declared.limit.TheConstants.{MOST_OUTPUT_BYTES as most_bytes};
ghost use Rattle.plain_text.specs.declared.packet.Packet as packet_of;
ghost use Rattle.plain_text.specs.declared.packet.Unit as unit_of;
ghost use Rattle.recovery_laws.specs.Sound.{Sound};
ghost use Rattle.recovery_world.specs.World.{Setting, World, opening};
ghost use Rattle.system_parts.specs.Performing.{MovesOn};
ghost use Rattle.system_parts.specs.SystemStanding.{StandsFor, StandsForSome};
ghost use Rattle.system_images.specs.Building.{Builds, IsBuilt, Prepares, Resumes};
ghost use Rattle.system_images.specs.Judging.{PlaysWhole};

use crate::building::{make_moves, release_all, store_all, turn_epochs};
use crate::judging::{counts_may_be, judge};
use crate::rows::counts_of_rows;
use box_program::Program;
use drawn_words::words_behind;
use handover::Image;
use handover_world::ResumeError;
use packet_feeds::feed;
use plain_text::{NoMemory, Packets, Unit};
use std::alloc::Global;
use system_end::discard;
use system_opening::open_parts;
use system_parts::Core;

/// The packets of an image are fed to a system before its first event, and the image is judged but for its outputs.
fn prepare<P: Program>(core: &mut Core<P>, image: &Image) -> Result<(), ResumeError>
    requires stands { StandsForSome (P.meaning core.old.program) core.old }
    ensures good { OnOk result (MovesOn (P.meaning core.old.program) (Prepares image.now)
        core.old core.new) }
    ensures few { OnOk result ((image.now.moves ≤ most_moves) × (image.now.bytes ≤ most_bytes)
        × (2 ≤ image.now.epoch)) }
    ensures faults { (error : ResumeErrorKind) → result ≡ Err error → (s : Setting P.Value)
        → StandsFor (P.meaning core.old.program) s (opening P.Value) core.old
        → IsFault s image.now error }
{
    if !counts_may_be(image, core.left.len() as u64) {
        return Err(ResumeError::Count(0));
    }
    feed(core, image.fed)?;
    judge(core, image)
}

/// The system is brought to the state of the image, but for what it counts.
fn build<P: Program>(core: &mut Core<P>, image: &Image) -> Result<(), ResumeError>
    requires stands { StandsForSome (P.meaning core.old.program) core.old }
    requires epochs { 1 ≤ image.now.epoch }
    ensures good { OnOk result (MovesOn (P.meaning core.old.program) (Builds image.now)
        core.old core.new) }
    ensures faults { (error : ResumeErrorKind) → result ≡ Err error
        → (s : Setting P.Value) (w : World P.Value)
        → StandsFor (P.meaning core.old.program) s w core.old
        → PlaysWhole s image.now → IsBuilt image.now.fed 1 [] [] [] w → IsFault s image.now error }
{
    turn_epochs(core, image.epoch - 1)?;
    make_moves(core, &image.past)?;
    store_all(core)?;
    release_all(core, &image.released)
}

/// The clock, the words and the counts of a system are set to those of the image.
fn set_counts<P: Program>(core: &mut Core<P>, seed: u64, image: &Image) -> Result<(), NoMemory>
    requires moves { image.now.moves ≤ most_moves }
    requires bytes { image.now.bytes ≤ most_bytes }
    requires epochs { 1 ≤ image.now.epoch }
    ensures sets { OnOk result ((s : Setting P.Value) (w : World P.Value)
        → StandsFor (P.meaning core.old.program) s w core.old → s.seed ≡ seed
        → (played : PlaysWhole s image.now)
        → IsBuilt image.now.fed image.now.epoch played.steps played.steps image.now.released w
        → AreReleased played.steps image.now.released
        → Resumes (P.meaning core.old.program) s image.now core.new) }
    ensures program { core.new.program ≡ core.old.program }
{
    let ended = counts_of_rows(
        core.alloc,
        core.inputs.threads(),
        image.epoch - 1,
        &image.ended,
    )?;
    core.ended = ended;
    core.clock = image.clock;
    core.generator = words_behind(seed, image.draws);
    core.moves = image.moves;
    core.bytes = image.bytes;
    Ok(())
}

/// A system before its first event goes on from an image.
fn bring<P: Program>(core: &mut Core<P>, seed: u64, image: &Image) -> Result<(), ResumeError>
    requires stands { StandsForSome (P.meaning core.old.program) core.old }
    ensures resumes { OnOk result ((s : Setting P.Value)
        → StandsFor (P.meaning core.old.program) s (opening P.Value) core.old → s.seed ≡ seed
        → Resumes (P.meaning core.old.program) s image.now core.new) }
    ensures program { OnOk result (core.new.program ≡ core.old.program) }
    ensures faults { (error : ResumeErrorKind) → result ≡ Err error → (s : Setting P.Value)
        → StandsFor (P.meaning core.old.program) s (opening P.Value) core.old
        → IsFault s image.now error }
{
    prepare(core, image)?;
    build(core, image)?;
    set_counts(core, seed, image)?;
    Ok(())
}

/// The parts of a system that goes on from an image: on the same packets it stands for every sound world at rest with
/// that image. An image with a fault gives the first one.
pub fn resume_parts<P: Program>(
    alloc: Global,
    program: P,
    threads: u32,
    tags: bool,
    seed: u64,
    unit: Unit,
    packets: Packets,
    image: &Image,
) -> Result<Core<P>, ResumeError>
    requires some_threads { 1 ≤ threads }
    requires few_threads { threads ≤ 16 }
    requires short { All IsShort packets }
    ensures faults { (error : ResumeErrorKind) → result ≡ Err error → IsFault (record {
      meaning = P.meaning program;
      threads = threads;
      tags = tags;
      fractions = unit;
      packets = packets;
      seed = seed;
    }) image.now error }
    ensures no_fault { IfOk result (λ y. HasNoFault (record {
      meaning = P.meaning program;
      threads = threads;
      tags = tags;
      fractions = unit;
      packets = packets;
      seed = seed;
    }) image.now) }
    ensures stands { IfOk result (λ y. (w : World P.Value) → Sound (record {
      meaning = P.meaning program;
      threads = threads;
      tags = tags;
      fractions = unit;
      packets = packets;
      seed = seed;
    }) w → IsAtRest w → IsImageOf (record {
      meaning = P.meaning program;
      threads = threads;
      tags = tags;
      fractions = unit;
      packets = packets;
      seed = seed;
    }) w image.now → StandsFor (P.meaning program) (record {
      meaning = P.meaning program;
      threads = threads;
      tags = tags;
      fractions = unit;
      packets = packets;
      seed = seed;
    }) w y) }
    ensures some { IfOk result (λ y. (w : World P.Value) × Sound (record {
      meaning = P.meaning program;
      threads = threads;
      tags = tags;
      fractions = unit;
      packets = packets;
      seed = seed;
    }) w × IsAtRest w × IsImageOf (record {
      meaning = P.meaning program;
      threads = threads;
      tags = tags;
      fractions = unit;
      packets = packets;
      seed = seed;
    }) w image.now) }
    ensures program { IfOk result (λ y. y.program ≡ program) }
{
    let mut core = open_parts(alloc, program, threads, tags, seed, unit, packets)?;
    match bring(&mut core, seed, image) {
        Ok(()) => Ok(core),
        Err(error) => {
            discard(core);
            Err(error)
        }
    }
}
