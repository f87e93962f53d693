ghost use Rattle.std.specs.Prelude.{◌≡◌, ◌≤◌, ℕ, IfErr, IfOk};
ghost use Rattle.wire_frames.specs.FromAccessLog.{Output as OutputValue};
ghost use Rattle.wire_frames.specs.FromAccessLog.{StampedEntry as EntryValue};
ghost use Rattle.wire_frames.specs.declared.frame.Frame.TheVariants as frame_is;
ghost use Rattle.wire_frames.specs.Layout.{IsFrame};
ghost use Rattle.link_store.specs.Kept.{bytes_of, IsTold};

use crate::KeptFrame;
use crate::kept::Form;
use access_log::NarrowStamp;
use plain_text::{Bytes, NoMemory, Packet};
use std::alloc::Global;
use std::marker::Model;
use std::mem::size_of;
use thread_clock::Stamp;
use wire_frames::Output;

// With room for four components a frame takes 88 bytes, and with room for all 16 it would take 136.
const _: () = prove!(size_of::<NarrowFrame<4>>() == 88);

/// A frame that is kept as its output, with room for the first `N` components of the output's stamp, of which the others
/// are 0. Contracts see how the frame is kept.
#[derive(Debug, Drop)]
pub struct NarrowFrame<const N: usize> {
    threads: u32,
    thread: u32,
    number: u64,
    input: u64,
    stamp: NarrowStamp<N>,
    packet: Packet,
}

impl<const N: usize> Model for NarrowFrame<N> {
    ghost use Rattle.link_store.specs.declared.kept.Form.{Form};
    ghost use Rattle.link_store.specs.Kept.{told_of, IsTold};

    ghost Value = { Form };

    ghost view = { λ f. told_of f.threads f.thread f.number f.input f.stamp f.packet };

    ghost invariant = { λ f. IsTold (told_of f.threads f.thread f.number f.input f.stamp f.packet) };
}

/// A copy of a packet, with its bytes.
fn copy_packet(alloc: Global, packet: &Packet) -> Result<Packet, NoMemory>
    ensures { IfOk result (λ copy. copy ≡ packet.now) }
{
    Ok(Packet {
        seconds: packet.seconds,
        fraction: packet.fraction,
        original: packet.original,
        bytes: Bytes::of(alloc, packet.bytes.as_slice())?,
    })
}

impl<const N: usize> NarrowFrame<N> {
    /// The frame with less room; it comes back where there is too little for it, or where it is kept as its bytes.
    pub fn of(frame: KeptFrame) -> Result<Self, KeptFrame>
        requires { N ≤ 16 }
        ensures kept { IfOk result (λ narrow. narrow ≡ frame) }
        ensures back { IfErr result (λ back. back ≡ frame) }
    {
        match frame.form {
            Form::Spelled(bytes) => Err(KeptFrame {
                form: Form::Spelled(bytes),
            }),
            Form::Told { threads, output } => match NarrowStamp::of(&output.stamp) {
                None => Err(KeptFrame {
                    form: Form::Told { threads, output },
                }),
                Some(stamp) => Ok(NarrowFrame {
                    threads,
                    thread: output.thread,
                    number: output.number,
                    input: output.input,
                    stamp,
                    packet: output.packet,
                }),
            },
        }
    }

    /// The frame with all room.
    pub fn whole(self) -> KeptFrame
        requires { N ≤ 16 }
        ensures { result ≡ self.entry }
    {
        KeptFrame {
            form: Form::Told {
                threads: self.threads,
                output: Output {
                    thread: self.thread,
                    number: self.number,
                    input: self.input,
                    stamp: self.stamp.stamp(),
                    packet: self.packet,
                },
            },
        }
    }

    /// A copy with all room.
    pub fn copied(&self, alloc: Global) -> Result<KeptFrame, NoMemory>
        requires { N ≤ 16 }
        ensures { IfOk result (λ copy. copy ≡ self.now) }
    {
        Ok(KeptFrame {
            form: Form::Told {
                threads: self.threads,
                output: Output {
                    thread: self.thread,
                    number: self.number,
                    input: self.input,
                    stamp: self.stamp.stamp(),
                    packet: copy_packet(alloc, &self.packet)?,
                },
            },
        })
    }

    /// It is kept as an output.
    pub fn is_told(&self)
        ensures { IsTold self.now }
    {
        let _threads = self.threads;
    }

    /// Its output's stamp.
    pub fn stamp(&self) -> Stamp
        requires { N ≤ 16 }
        ensures { (epoch threads : ℕ) (o : OutputValue)
            → IsFrame (bytes_of epoch self.now) (frame_is.Output epoch threads o)
            → result ≡ o.stamp }
    {
        self.stamp.stamp()
    }

    /// It is not that of an entry.
    pub fn is_no_entry(&self)
        ensures { (epoch threads : ℕ) (e : EntryValue)
            → IsFrame (bytes_of epoch self.now) (frame_is.Entry epoch threads e) → ⊥ }
    {
        self.is_told();
    }
}
