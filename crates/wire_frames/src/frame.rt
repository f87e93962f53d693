ghost use Rattle.std.specs.Prelude.{◌≡◌, ℕ, ◌^◌, ◌≤◌, IfSome, IfNone, slice_index};

use access_log::{Output, StampedEntry, What};
use plain_text::{NoMemory, Packet};
use std::marker::Model;
use thiserror::Error;
use thread_clock::EntryCounts;

/// A log entry as a frame carries it, where a component of a stamp may be any number of 64 bits. Contracts see the
/// entry.
#[derive(Debug, Drop)]
pub struct FrameEntry {
    pub(crate) thread: u32,
    pub(crate) number: u64,
    pub(crate) what: What,
    pub(crate) stamp: EntryCounts,
}

impl Model for FrameEntry {
    ghost use Rattle.access_log.specs.declared.entry.StampedEntry.{StampedEntry};

    ghost Value = { StampedEntry };

    ghost view = { λ e. record {
      thread = e.thread;
      number = e.number;
      what = e.what;
      stamp = e.stamp;
    } };
}

impl FrameEntry {
    /// The entry, as it is kept in memory; `None` exactly where a component of its stamp is 2^32 or more.
    pub fn entry(&self) -> Option<StampedEntry>
        ensures same { IfSome result (λ entry. entry ≡ self.now) }
        ensures wide { IfNone result ((u : ℕ) × (2 ^ 32 ≤ slice_index self.now.stamp u)) }
    {
        Some(StampedEntry {
            thread: self.thread,
            number: self.number,
            what: self.what,
            stamp: self.stamp.narrowed()?,
        })
    }
}

/// An output as a frame carries it, where a component of a stamp may be any number of 64 bits. Contracts see the
/// output.
#[derive(Debug, Drop)]
pub struct FrameOutput {
    pub(crate) thread: u32,
    pub(crate) number: u64,
    pub(crate) input: u64,
    pub(crate) stamp: EntryCounts,
    pub(crate) packet: Packet,
}

impl Model for FrameOutput {
    ghost use Rattle.access_log.specs.declared.entry.Output.{Output};

    ghost Value = { Output };

    ghost view = { λ o. record {
      thread = o.thread;
      number = o.number;
      input = o.input;
      stamp = o.stamp;
      packet = o.packet;
    } };
}

impl FrameOutput {
    /// The output, as it is kept in memory; `None` exactly where a component of its stamp is 2^32 or more.
    pub fn into_output(self) -> Option<Output>
        ensures same { IfSome result (λ output. output ≡ self) }
        ensures wide { IfNone result ((u : ℕ) × (2 ^ 32 ≤ slice_index self.stamp u)) }
    {
        let stamp = self.stamp.narrowed()?;
        Some(Output {
            thread: self.thread,
            number: self.number,
            input: self.input,
            stamp,
            packet: self.packet,
        })
    }
}

/// What a frame carries, with the epoch in which it was sent, counted from 1, and the number of threads of its sender,
/// 1 to 16.
#[derive(Debug, Drop)]
pub enum Frame {
    /// A log entry of a master of this epoch.
    Entry {
        epoch: u32,
        threads: u32,
        entry: FrameEntry,
    },
    /// A packet that a master of this epoch sends out.
    Output {
        epoch: u32,
        threads: u32,
        output: FrameOutput,
    },
}

/// Why no frame stands at the front of bytes.
#[derive(Clone, Copy, Debug, PartialEq, Eq, Error)]
pub enum FrameFault {
    /// The bytes end before the frame does.
    #[error("short")]
    Short = 1,
    /// The first byte is neither 1, for an entry, nor 2, for an output.
    #[error("bad kind")]
    BadKind = 2,
    /// The second byte is neither 1 nor 2.
    #[error("bad version")]
    BadVersion = 3,
    /// The length that the frame says it has is not the one that its fields need.
    #[error("bad length")]
    BadLength = 4,
    /// A field has a value that it may not have.
    #[error("out of range")]
    OutOfRange = 5,
}

/// Why no frame was read.
#[derive(Clone, Copy, Debug, PartialEq, Eq, Error)]
pub enum FrameError {
    #[error("{0}")]
    Fault(FrameFault),
    #[error("no memory")]
    NoMemory,
}

impl From<FrameFault> for FrameError {
    ghost use Rattle.std.specs.Prelude.{◌≡◌};
    ghost use Rattle.wire_frames.specs.declared.frame.FrameError.TheVariants as error;

    ghost from_gives = { λ fault e. e ≡ error.Fault fault };

    fn from(fault: FrameFault) -> Self {
        FrameError::Fault(fault)
    }
}

impl From<NoMemory> for FrameError {
    ghost use Rattle.std.specs.Prelude.{◌≡◌};
    ghost use Rattle.wire_frames.specs.declared.frame.FrameError.TheVariants as error;

    ghost from_gives = { λ _ e. e ≡ error.NoMemory };

    fn from(_: NoMemory) -> Self {
        FrameError::NoMemory
    }
}
