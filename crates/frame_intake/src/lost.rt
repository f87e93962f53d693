//! The frames that orders lose, as a set.
ghost use Rattle.std.specs.Prelude.{◌≡◌, IfOk, reverse};
ghost use Rattle.std.specs.BTreeMap.{is_at};
ghost use Rattle.std.specs.List.{list_any};
ghost use Rattle.frame_intake.specs.Lost.{code, key_of, key_cmp, HaveLost};

use crate::frames::FrameName;
use plain_text::{Kind, NoMemory};
use std::alloc::Global;
use std::collections::BTreeSet;

/// Frames by their keys.
#[derive(Drop)]
pub(crate) struct LostFrames {
    keys: BTreeSet<(u64, u64, u64)>,
}

fn code_of(kind: Kind) -> u64
    ensures { result ≡ code kind }
{
    match kind {
        Kind::Log => 0,
        Kind::Out => 1,
    }
}

/// What a frame is looked up by: the code of its kind, its thread and its number.
fn key(frame: FrameName) -> (u64, u64, u64)
    ensures { result ≡ key_of frame }
{
    (code_of(frame.kind), frame.thread, frame.number)
}

impl LostFrames {
    /// These frames, of which the last is the newest.
    pub(crate) fn new(alloc: Global, lost: &[FrameName]) -> Result<Self, NoMemory>
        ensures { IfOk result (λ frames. HaveLost frames.keys.keys (reverse lost.now)) }
    {
        let mut keys = BTreeSet::new(alloc);
        for frame in lost {
            keys.insert(key(*frame))?;
        }
        Ok(LostFrames { keys })
    }

    /// Whether this is one of them.
    pub(crate) fn contains(&self, frame: FrameName) -> bool
        ensures { result ≡ list_any (is_at (key_cmp (key_of frame))) self.now.keys.keys }
    {
        self.keys.contains(&key(frame))
    }
}
