ghost use Rattle.std.specs.Prelude.{◌≡◌, ◌≤◌, ◌↔◌, ℕ, List, Option, IfOk, OnOk, IsTrue, IsErrOf, Ok};
ghost use Rattle.std.specs.Prelude.{IfNone, IfSome, false, length};
ghost use Rattle.plain_text.specs.declared.limit.TheConstants.{MOST_EVENTS as most_lines};
ghost use Rattle.world_io.specs.World.{Start, Shown, is_writable, WritingFailed};
ghost use Rattle.handover.specs.Images.{FitsImage, image_text, lines_of};
ghost use Rattle.handover_seal.specs.Seals.{AreSeals, sealed_text};
ghost use Rattle.handover_world.specs.Ready.{IsReadiness};
ghost use Rattle.recovery_world.specs.declared.event.Event.{Event as EventKind};
ghost use Rattle.recovery_world.specs.World.{Setting, World as SystemWorld};
ghost use Rattle.system_parts.specs.SystemStanding.{StandsFor};
ghost use Rattle.output_files.specs.Writes.{Write, HasGathered, IsOutput};
ghost use Rattle.output_files.specs.Written.{OnlyWrites};
ghost use Rattle.run_writes.specs.Replies.{beginning};
ghost use Rattle.run_writes.specs.Run.{OutputNames, counts_line};
ghost use Rattle.run_command.specs.Running.{HasCome, IsSomewhere};
ghost use Rattle.hand_command.specs.Errors.{hand_result_of};
ghost use Rattle.hand_command.specs.Hand.{FitsFile, PassesFile};
ghost use Rattle.hand_command.specs.Handing.{EndsHand, WritesImage};

use crate::error::{HandError, handed};
use box_program::Program;
use handover::{Image, put_image};
use handover_seal::{Seal, Seals, put_sealed};
use handover_world::{reached_worlds_are_counted, ready_worlds_come_to_rest};
use output_files::write_lines;
use plain_text::{Bytes, Limit, MOST_EVENTS, MOST_FILE_BYTES, NoMemory};
use recovery_world::Event;
use run_command::{System, perform_events};
use run_writes::{OutputFiles, RunError, put_done, write_closing, written};
use std::alloc::Global;
use world_io::World;

/// The texts with which a hand-over ends: that of its image, and the last line of its report.
#[derive(Drop)]
struct HandTexts {
    image: Bytes,
    last: Bytes,
}

/// The texts of a system that is handed over with this seal.
fn put_texts(alloc: Global, seal: Option<Seal>, image: &Image) -> Result<HandTexts, NoMemory>
    ensures image { IfOk result (λ texts. texts.image
        ≡ sealed_text seal (image_text image.now)) }
    ensures fits { OnOk result (FitsImage image.now) }
    ensures last { IfOk result (λ texts. texts.last
        ≡ counts_line image.now.fed image.now.epoch (length image.now.released)) }
{
    let last = put_done(alloc, image.fed, image.epoch, image.released.len() as u64)?;
    let mut image = put_image(alloc, image)?;
    put_sealed(alloc, seal, &mut image)?;
    Ok(HandTexts { image, last })
}

/// Whether the text of an image has no more lines than one that is read may have.
fn has_few_lines(image: &Image) -> bool
    ensures { IsTrue result ↔ (length (lines_of image.now) ≤ most_lines) }
{
    let most = MOST_EVENTS as usize - 2;
    let Some(room) = most.checked_sub(image.ended.len()) else {
        return false;
    };
    match room.checked_sub(image.released.len()) {
        Some(room) => image.past.len() <= room,
        None => false,
    }
}

/// The limit of files that a text of an image passes, if it passes one.
fn passed_limit(text: &[u8], image: &Image) -> Option<Limit>
    ensures passes { IfSome result (λ limit. PassesFile limit text.now image.now) }
    ensures fits { IfNone result (FitsFile text.now image.now) }
{
    if text.len() as u64 > MOST_FILE_BYTES {
        return Some(Limit::File);
    }
    if has_few_lines(image) {
        None
    } else {
        Some(Limit::Events)
    }
}

/// Writes the image of a system: the lines that are gathered, the text of the image, and the last line. Where that text
/// would be larger than a file that is read may be, or have more lines, the lines that are gathered alone.
fn write_image<P: Program, W: World>(
    alloc: Global,
    world: &mut W,
    file: u32,
    system: &System<P>,
    lines: &mut Bytes,
    seals: &Seals,
) -> Result<(), RunError>
    requires runs { system.now.stopped ≡ false }
    requires writable { IsTrue (is_writable (W.ledger world.old) file) }
    ensures only_writes { OnlyWrites W.ledger W.healthy world.old world.new }
    ensures cause { IsErrOf result RunError.WriteFault
        → WritingFailed W.ledger W.healthy world.old world.new }
    ensures shows { (p : Start) → W.honest p world.new
        → (s : Setting P.Value) (seal : Option (List ℕ))
        → AreSeals seal s.fractions s.packets seals.now
        → (w : SystemWorld P.Value) (names : OutputNames)
        (writes : List Write) (before : Shown)
        → IsOutput file names.schedule (W.shows p world.old)
        → StandsFor (P.meaning system.now.parts.program) s w system.now.parts
        → w.drawn ≤ w.moves → HasGathered writes lines.old before (W.shows p world.old)
        → WritesImage result seal s w names writes before (W.shows p world.new) }
    ensures before { (p : Start) → W.honest p world.new → W.honest p world.old }
{
    let image = system.image()?;
    let texts = put_texts(alloc, seals.after(image.fed), &image)?;
    let text = texts.image.as_slice();
    if let Some(limit) = passed_limit(text, &image) {
        write_lines(world, lines)?;
        return Err(RunError::Limit(limit));
    }
    let last = texts.last.as_slice();
    written(write_closing(world, file, lines, text, last))
}

/// Brings a system to rest that is ready, and writes its image.
fn hand_ready<P: Program, W: World>(
    alloc: Global,
    world: &mut W,
    outputs: OutputFiles,
    system: &mut System<P>,
    lines: &mut Bytes,
    seals: &Seals,
) -> Result<(), RunError>
    requires runs { system.old.stopped ≡ false }
    requires somewhere { IsSomewhere (P.meaning system.old.parts.program) system.old }
    requires released { IsTrue (is_writable (W.ledger world.old) outputs.released) }
    requires schedule { IsTrue (is_writable (W.ledger world.old) outputs.schedule) }
    ensures only_writes { OnlyWrites W.ledger W.healthy world.old world.new }
    ensures cause { IsErrOf result RunError.WriteFault
        → WritingFailed W.ledger W.healthy world.old world.new }
    ensures shows { (p : Start) → W.honest p world.new
        → (s : Setting P.Value) (seal : Option (List ℕ))
        → AreSeals seal s.fractions s.packets seals.now → (names : OutputNames)
        (events : List EventKind) (before : Shown)
        → IsOutput outputs.released names.released (W.shows p world.old)
        → IsOutput outputs.schedule names.schedule (W.shows p world.old)
        → (come : HasCome (P.meaning system.old.parts.program) s (beginning P.Value) names events
        system.old lines.old before (W.shows p world.old))
        → IsReadiness come.world (Ok tt)
        → EndsHand (hand_result_of result) seal s names events before (W.shows p world.new) }
    ensures before { (p : Start) → W.honest p world.new → W.honest p world.old }
{
    ready_worlds_come_to_rest::<P::Value>();
    reached_worlds_are_counted::<P::Value>();
    let resting = [Event::Snap, Event::Store, Event::Crash, Event::Recover];
    perform_events(alloc, world, outputs.released, system, &resting, lines)?;
    write_image(alloc, world, outputs.schedule, system, lines, seals)
}

/// Hands a system over whose events were all performed, if it is ready. If not, all that they leave is written.
pub fn end_hand<P: Program, W: World>(
    alloc: Global,
    world: &mut W,
    outputs: OutputFiles,
    system: &mut System<P>,
    lines: &mut Bytes,
    seals: &Seals,
) -> Result<(), HandError>
    requires runs { system.old.stopped ≡ false }
    requires somewhere { IsSomewhere (P.meaning system.old.parts.program) system.old }
    requires released { IsTrue (is_writable (W.ledger world.old) outputs.released) }
    requires schedule { IsTrue (is_writable (W.ledger world.old) outputs.schedule) }
    ensures only_writes { OnlyWrites W.ledger W.healthy world.old world.new }
    ensures cause { IsErrOf result HandError.WriteFault
        → WritingFailed W.ledger W.healthy world.old world.new }
    ensures shows { (p : Start) → W.honest p world.new
        → (s : Setting P.Value) (seal : Option (List ℕ))
        → AreSeals seal s.fractions s.packets seals.now → (names : OutputNames)
        (events : List EventKind) (before : Shown)
        → IsOutput outputs.released names.released (W.shows p world.old)
        → IsOutput outputs.schedule names.schedule (W.shows p world.old)
        → HasCome (P.meaning system.old.parts.program) s (beginning P.Value) names events
        system.old lines.old before (W.shows p world.old)
        → EndsHand result seal s names events before (W.shows p world.new) }
    ensures before { (p : Start) → W.honest p world.new → W.honest p world.old }
{
    match system.ready() {
        Ok(()) => handed(hand_ready(alloc, world, outputs, system, lines, seals)),
        Err(unready) => {
            write_lines(world, lines)?;
            Err(HandError::Unready(unready))
        }
    }
}
