//! The frames that the steps of a round sent.
ghost use Rattle.std.specs.Prelude.{◌≡◌, ◌++◌, IfOk, OnOk};
ghost use Rattle.std.specs.Option.{option_to_list};
ghost use Rattle.live_workers.specs.Frames.{frame_noted, frames_noted};

use frame_intake::FrameName;
use plain_text::{Kind, NoMemory};
use recovery_world::Outcome;
use round_join::Noted;
use std::alloc::Global;

/// The frame that a step sent, if it sent one.
fn frame_of(step: &Noted) -> Option<FrameName>
    ensures { option_to_list result ≡ frame_noted step.now }
{
    let (kind, number) = match step.outcome {
        Outcome::Touched { entry, .. }
        | Outcome::Looked { entry, .. }
        | Outcome::ClockTold { entry, .. }
        | Outcome::Drawn { entry, .. } => (Kind::Log, entry),
        Outcome::Emitted(number) => (Kind::Out, number),
        _ => return None,
    };
    Some(FrameName {
        kind,
        thread: u64::from(step.thread),
        number,
    })
}

/// Appends the frame that a step sent, if it sent one.
fn add_sent(frames: &mut Vec<FrameName>, step: &Noted) -> Result<(), NoMemory>
    ensures { OnOk result (frames.new.items ≡ frames.old.items ++ frame_noted step.now) }
{
    if let Some(frame) = frame_of(step) {
        frames.push(frame)?;
    }
    Ok(())
}

/// The frames that steps sent, in their order.
pub(crate) fn frames_sent(alloc: Global, steps: &[Noted]) -> Result<Vec<FrameName>, NoMemory>
    ensures { IfOk result (λ frames. frames.items ≡ frames_noted steps.now) }
{
    let mut frames = Vec::new(alloc);
    for step in steps {
        add_sent(&mut frames, step)?;
    }
    Ok(frames)
}
