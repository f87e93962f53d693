ghost use Rattle.std.specs.Prelude.{◌≡◌, ◌<◌, ◌^◌, ℕ, Some, IfOk, IfSome, OnOk, slice_index};
ghost use Rattle.wire_frames.specs.FromAccessLog.{Output as OutputValue};
ghost use Rattle.wire_frames.specs.FromAccessLog.{StampedEntry as EntryValue};
ghost use Rattle.wire_frames.specs.declared.frame.Frame.TheVariants as frame_is;
ghost use Rattle.wire_frames.specs.Layout.{IsFrame};
ghost use Rattle.wire_frames.specs.Writing.{CanPutOutput};
ghost use Rattle.link_store.specs.declared.kept.Form.TheVariants.{Told};
ghost use Rattle.link_store.specs.Kept.{bytes_of, HasFrame, IsTold, Tells};

use crate::reading::{entry_in, output_in, sent_in};
use plain_text::{Bytes, NoMemory};
use std::alloc::Global;
use std::marker::Model;
use thread_clock::Stamp;
use wire_frames::{Output, StampedEntry, copy_output};

/// How a frame is kept.
#[derive(Debug, Drop)]
pub enum Form {
    /// As its bytes.
    Spelled(Bytes),
    /// As the output that it tells, of a sender with this number of threads.
    Told { threads: u32, output: Output },
}

/// A frame on a link. Contracts see how it is kept, and read its bytes by `bytes_of`.
///
/// That of an output may be kept as the output itself: then its bytes are those that `put_output` would write of it,
/// and stand nowhere. They say the epoch in which the frame stands, which is kept once for many frames.
#[derive(Debug, Drop)]
pub struct KeptFrame {
    pub(crate) form: Form,
}

impl Model for KeptFrame {
    ghost use Rattle.link_store.specs.declared.kept.Form.{Form};
    ghost use Rattle.link_store.specs.Kept.{IsWell};

    ghost Value = { Form };

    ghost view = { λ f. f.form };

    ghost invariant = { λ f. IsWell f.form };
}

/// Each component of a stamp is half of a word.
fn fit_components(components: &[u32])
    ensures { (u : ℕ) → slice_index components.now u < 2 ^ 32 }
{
    let _all = components.len();
}

/// A number is a word.
fn fit_numbers(number: u64, input: u64)
    ensures number { number < 2 ^ 64 }
    ensures input { input < 2 ^ 64 }
{}

/// A packet's numbers are halves of one.
fn fit_packet(seconds: u32, fraction: u32, original: u32)
    ensures seconds { seconds < 2 ^ 32 }
    ensures fraction { fraction < 2 ^ 32 }
    ensures original { original < 2 ^ 32 }
{}

/// An output that may be written has a frame.
fn has_frame(threads: u32, output: &Output)
    requires { CanPutOutput 1 threads output.now }
    ensures { HasFrame threads output.now }
{
    let packet = &output.packet;
    fit_numbers(output.number, output.input);
    fit_packet(packet.seconds, packet.fraction, packet.original);
    let components = output.stamp.components();
    fit_components(components);
}

impl KeptFrame {
    /// The frame of these bytes, kept as they are.
    pub fn of_bytes(bytes: Bytes) -> Self
        ensures { (epoch : ℕ) → bytes_of epoch result ≡ bytes }
    {
        KeptFrame {
            form: Form::Spelled(bytes),
        }
    }

    /// The frame of an output, of a sender with this number of threads, kept as the output.
    pub fn of_output(threads: u32, output: Output) -> Self
        requires { CanPutOutput 1 threads output }
        ensures told { result ≡ Told threads output }
        ensures frame { HasFrame threads output }
    {
        has_frame(threads, &output);
        KeptFrame {
            form: Form::Told { threads, output },
        }
    }

    /// The entry of the frame, if it is that of an entry. It answers that memory ran out where a component of the stamp
    /// is 2^32 or more, as in no frame that was sent.
    pub fn entry(&self, alloc: Global) -> Result<Option<StampedEntry>, NoMemory>
        ensures { IfOk result (λ found. (epoch threads : ℕ) (e : EntryValue)
            → IsFrame (bytes_of epoch self.now) (frame_is.Entry epoch threads e)
            → found ≡ Some e) }
    {
        match &self.form {
            Form::Spelled(bytes) => entry_in(alloc, bytes.as_slice()),
            Form::Told { .. } => Ok(None),
        }
    }

    /// The output of the frame, if it is that of an output. It answers that memory ran out as `entry` does.
    pub fn output(&self, alloc: Global) -> Result<Option<Output>, NoMemory>
        ensures { IfOk result (λ found. (epoch threads : ℕ) (o : OutputValue)
            → IsFrame (bytes_of epoch self.now) (frame_is.Output epoch threads o)
            → found ≡ Some o) }
    {
        match &self.form {
            Form::Spelled(bytes) => output_in(alloc, bytes.as_slice()),
            Form::Told { output, .. } => Ok(Some(copy_output(alloc, output)?)),
        }
    }

    /// The stamp of the output, where the frame is kept as one.
    pub fn stamp(&self) -> Option<Stamp>
        ensures { IfSome result (λ stamp. (epoch threads : ℕ) (o : OutputValue)
            → IsFrame (bytes_of epoch self.now) (frame_is.Output epoch threads o)
            → stamp ≡ o.stamp) }
    {
        match &self.form {
            Form::Spelled(_) => None,
            Form::Told { output, .. } => Some(output.stamp),
        }
    }

    /// A copy of the frame.
    pub fn copied(&self, alloc: Global) -> Result<Self, NoMemory>
        ensures { IfOk result (λ copy. copy ≡ self.now) }
    {
        let form = match &self.form {
            Form::Spelled(bytes) => Form::Spelled(Bytes::of(alloc, bytes.as_slice())?),
            Form::Told { threads, output } => Form::Told {
                threads: *threads,
                output: copy_output(alloc, output)?,
            },
        };
        Ok(KeptFrame { form })
    }

    /// The output of the frame, as `output` has it: one that is kept as an output is moved out.
    pub fn into_output(self, alloc: Global) -> Result<Option<Output>, NoMemory>
        ensures { IfOk result (λ found. (epoch threads : ℕ) (o : OutputValue)
            → IsFrame (bytes_of epoch self) (frame_is.Output epoch threads o) → found ≡ Some o) }
    {
        match self.form {
            Form::Spelled(bytes) => output_in(alloc, bytes.as_slice()),
            Form::Told { threads: _, output } => Ok(Some(output)),
        }
    }

    /// Keeps the frame as the output that it tells. It answers that memory ran out where it is that of no output, or
    /// where a component of the stamp is 2^32 or more.
    pub fn tell(&mut self, alloc: Global) -> Result<(), NoMemory>
        ensures told { OnOk result (IsTold self.new) }
        ensures same { OnOk result ((epoch : ℕ) → Tells epoch self.old self.new) }
    {
        if let Form::Spelled(bytes) = &self.form {
            let (threads, output) = sent_in(alloc, bytes.as_slice())?;
            self.form = Form::Told { threads, output };
        }
        Ok(())
    }
}
