ghost use Rattle.std.specs.Prelude.{◌≡◌, ℕ, Some, IfOk, IfSome};
ghost use Rattle.wire_frames.specs.FromAccessLog.{Output as OutputValue};
ghost use Rattle.wire_frames.specs.FromAccessLog.{StampedEntry as EntryValue};
ghost use Rattle.wire_frames.specs.declared.frame.Frame.{Frame as FrameValue};
ghost use Rattle.wire_frames.specs.declared.frame.Frame.TheVariants as frame_is;
ghost use Rattle.wire_frames.specs.Layout.{IsFrame, BeginsWith};
ghost use Rattle.link_store.specs.Kept.{HasFrame};

use plain_text::NoMemory;
use std::alloc::Global;
use wire_frames::{Frame, FrameError, Output, StampedEntry, take_frame};

/// The entry of a frame, if it is that of an entry. It answers that memory ran out where a component of the stamp is
/// 2^32 or more, as in no frame that was sent.
fn entry_of(frame: &Frame) -> Result<Option<StampedEntry>, NoMemory>
    ensures { IfOk result (λ found. (epoch threads : ℕ) (e : EntryValue)
        → frame.now ≡ frame_is.Entry epoch threads e → found ≡ Some e) }
{
    match frame {
        Frame::Entry { entry, .. } => match entry.entry() {
            Some(entry) => Ok(Some(entry)),
            None => Err(NoMemory),
        },
        Frame::Output { .. } => Ok(None),
    }
}

/// The output of a frame, if it is that of an output. It answers that memory ran out as `entry_of` does.
fn output_of(frame: Frame) -> Result<Option<Output>, NoMemory>
    ensures { IfOk result (λ found. (epoch threads : ℕ) (o : OutputValue)
        → frame ≡ frame_is.Output epoch threads o → found ≡ Some o) }
{
    match frame {
        Frame::Output {
            epoch: _,
            threads: _,
            output,
        } => match output.into_output() {
            Some(output) => Ok(Some(output)),
            None => Err(NoMemory),
        },
        Frame::Entry {
            epoch: _,
            threads: _,
            entry: _,
        } => Ok(None),
    }
}

/// The frame that these bytes are, if they are one.
fn frame_in(alloc: Global, bytes: &[u8]) -> Result<Option<Frame>, NoMemory>
    ensures same { IfOk result (λ found. (f : FrameValue) → IsFrame bytes.now f
        → found ≡ Some f) }
    ensures begins { IfOk result (λ found. IfSome found (λ f.
        (size : ℕ) × BeginsWith bytes.now f size)) }
{
    match take_frame(alloc, bytes) {
        Ok((frame, _)) => Ok(Some(frame)),
        Err(FrameError::Fault(_)) => Ok(None),
        Err(FrameError::NoMemory) => Err(NoMemory),
    }
}

/// The entry whose frame these bytes are. It answers that memory ran out as `entry_of` does.
pub fn entry_in(alloc: Global, bytes: &[u8]) -> Result<Option<StampedEntry>, NoMemory>
    ensures { IfOk result (λ found. (epoch threads : ℕ) (e : EntryValue)
        → IsFrame bytes.now (frame_is.Entry epoch threads e) → found ≡ Some e) }
{
    match frame_in(alloc, bytes)? {
        Some(frame) => entry_of(&frame),
        None => Ok(None),
    }
}

/// The output whose frame these bytes are. It answers that memory ran out as `entry_of` does.
pub fn output_in(alloc: Global, bytes: &[u8]) -> Result<Option<Output>, NoMemory>
    ensures { IfOk result (λ found. (epoch threads : ℕ) (o : OutputValue)
        → IsFrame bytes.now (frame_is.Output epoch threads o) → found ≡ Some o) }
{
    match frame_in(alloc, bytes)? {
        Some(frame) => output_of(frame),
        None => Ok(None),
    }
}

/// The output whose frame these bytes are, and its sender's number of threads. It answers that memory ran out where
/// they are no such frame, and as `entry_of` does.
pub fn sent_in(alloc: Global, bytes: &[u8]) -> Result<(u32, Output), NoMemory>
    ensures frame { IfOk result (λ sent. HasFrame sent.0 sent.1) }
    ensures same { IfOk result (λ sent. (epoch threads : ℕ) (o : OutputValue)
        → IsFrame bytes.now (frame_is.Output epoch threads o)
        → (sent.0 ≡ threads) × (sent.1 ≡ o)) }
{
    match frame_in(alloc, bytes)? {
        Some(
            Frame::Output {
                epoch: _,
                threads,
                output,
            },
        ) => match output.into_output() {
            Some(output) => Ok((threads, output)),
            None => Err(NoMemory),
        },
        Some(
            Frame::Entry {
                epoch: _,
                threads: _,
                entry: _,
            },
        )
        | None => Err(NoMemory),
    }
}
