//! A system is handed over: what it has stored is the image of it, and another system goes on from the image.
ghost use Rattle.std.specs.Prelude.{◌≡◌, ◌≤◌, [], All, IfOk, Err, false, length};
ghost use Rattle.handover_world.specs.Faults.{HasNoFault, IsFault};
ghost use Rattle.handover_world.specs.Images.{IsAtRest, IsImageOf};
ghost use Rattle.handover_world.specs.Ready.{IsReadiness};
ghost use Rattle.handover_world.specs.declared.fault.ResumeError.{ResumeError as ResumeErrorKind};
ghost use Rattle.plain_text.specs.Packets.{IsShort};
ghost use Rattle.recovery_core.specs.Systems.{SystemStands};
ghost use Rattle.recovery_laws.specs.Sound.{Sound};
ghost use Rattle.recovery_world.specs.World.{Setting, World};
ghost use Rattle.system_parts.specs.SystemStanding.{StandsFor};

use crate::System;
use access_log::Outputs;
use box_program::Program;
use handover::Image;
use handover_world::{ResumeError, Unready};
use plain_text::{NoMemory, Packets, Unit};
use std::alloc::Global;
use system_images::{image_of, readiness, resume_parts};

impl<P: Program> System<P> {
    /// Whether the system may be handed over: its master is up, and has made again and sent out again all that the
    /// masters before it leave it to.
    pub fn ready(&self) -> Result<(), Unready>
        ensures { (s : Setting P.Value) (w : World P.Value)
            → StandsFor (P.meaning self.now.parts.program) s w self.now.parts
            → IsReadiness w result }
    {
        readiness(&self.core)
    }

    /// The image of the system: all that it has, where nothing is on the way.
    pub fn image(&self) -> Result<Image, NoMemory>
        ensures { IfOk result (λ image. (s : Setting P.Value) (w : World P.Value)
            → StandsFor (P.meaning self.now.parts.program) s w self.now.parts
            → w.drawn ≤ w.moves → IsImageOf s w image) }
    {
        image_of(&self.core)
    }

    /// A system that goes on from an image, on the same packets. Of what was released before, all is handed over. An
    /// image that no system could have gives its first fault.
    pub fn resume(
        alloc: Global,
        program: P,
        threads: u32,
        tags: bool,
        seed: u64,
        unit: Unit,
        packets: Packets,
        image: &Image,
    ) -> Result<Self, ResumeError>
        requires some_threads { 1 ≤ threads }
        requires few_threads { threads ≤ 16 }
        requires short { All IsShort packets }
        ensures faults { (error : ResumeErrorKind) → result ≡ Err error → IsFault (record {
          meaning = P.meaning program;
          threads = threads;
          tags = tags;
          fractions = unit;
          packets = packets;
          seed = seed;
        }) image.now error }
        ensures no_fault { IfOk result (λ y. HasNoFault (record {
          meaning = P.meaning program;
          threads = threads;
          tags = tags;
          fractions = unit;
          packets = packets;
          seed = seed;
        }) image.now) }
        ensures stands { IfOk result (λ y. (w : World P.Value) → Sound (record {
          meaning = P.meaning program;
          threads = threads;
          tags = tags;
          fractions = unit;
          packets = packets;
          seed = seed;
        }) w → IsAtRest w → IsImageOf (record {
          meaning = P.meaning program;
          threads = threads;
          tags = tags;
          fractions = unit;
          packets = packets;
          seed = seed;
        }) w image.now → SystemStands (P.meaning program) (record {
          meaning = P.meaning program;
          threads = threads;
          tags = tags;
          fractions = unit;
          packets = packets;
          seed = seed;
        }) w y) }
        ensures some { IfOk result (λ y. (w : World P.Value) × Sound (record {
          meaning = P.meaning program;
          threads = threads;
          tags = tags;
          fractions = unit;
          packets = packets;
          seed = seed;
        }) w × IsAtRest w × IsImageOf (record {
          meaning = P.meaning program;
          threads = threads;
          tags = tags;
          fractions = unit;
          packets = packets;
          seed = seed;
        }) w image.now) }
        ensures program { IfOk result (λ y. y.parts.program ≡ program) }
        ensures runs { IfOk result (λ y. y.stopped ≡ false) }
        ensures handed { IfOk result (λ y. y.handed ≡ length image.now.released) }
        ensures fresh { IfOk result (λ y. y.fresh ≡ []) }
    {
        let core = resume_parts(alloc, program, threads, tags, seed, unit, packets, image)?;
        Ok(System {
            core,
            stopped: false,
            handed: image.released.len(),
            fresh: Outputs::new(alloc),
        })
    }
}
