ghost use Rattle.std.specs.Prelude.{ℕ, IfOk, IfErr};
ghost use Rattle.wire_frames.specs.declared.frame.Frame.{Frame as FrameValue};
ghost use Rattle.wire_frames.specs.Faults.{IsCauseIn, Gives};
ghost use Rattle.wire_frames.specs.Layout.{BeginsWith};

use crate::layout::find_layout;
use crate::values::read_value;
use crate::{Frame, FrameError};
use std::alloc::Global;

/// Reads the frame at the front of the bytes, and says how long it is; what follows it is not looked at.
///
/// A frame of version 1 has the component of each thread, and no reads; one of version 2 has the components that are
/// not 0. The others of a stamp that was read are 0. Where no frame stands at the front, the first of nine tests that
/// fails answers, in this order: fewer than 6 bytes; the kind; the version; a length that no frame of its kind and
/// version has; fewer bytes than the length; a number of threads that is not 1 to 16, or a mask that names more
/// threads; of an output, a length without room for its fields, or more than 262,144 captured bytes; a length that is
/// not the one that the fields need; any other field out of its range. It takes memory only for the captured bytes of
/// an output, so it never answers `NoMemory` where the first byte is 1.
pub fn take_frame(alloc: Global, bytes: &[u8]) -> Result<(Frame, usize), FrameError>
    ensures frame { IfOk result (λ taken. BeginsWith bytes.now taken.0 taken.1) }
    ensures fault { IfErr result (IsCauseIn bytes.now) }
    ensures every { (f : FrameValue) (size : ℕ) → BeginsWith bytes.now f size
        → Gives result f size }
{
    let layout = find_layout(bytes)?;
    let frame = read_value(alloc, bytes, &layout)?;
    Ok((frame, layout.length))
}
