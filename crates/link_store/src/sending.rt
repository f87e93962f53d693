ghost use Rattle.std.specs.Prelude.{◌≡◌, ◌<◌, ◌≤◌, ◌+◌, ◌-◌, ◌^◌, ℕ, [], None, Some, IfOk, IfSome};
ghost use Rattle.std.specs.Prelude.{OnOk, length, replicate, slice_index};
ghost use Rattle.wire_frames.specs.Parts.{FitsWord};
ghost use Rattle.wire_frames.specs.FromAccessLog.{StampedEntry};
ghost use Rattle.wire_frames.specs.FromAccessLog.{Output as OutputValue};
ghost use Rattle.plain_text.specs.declared.kind.Kind.TheVariants as kind_is;
ghost use Rattle.link_store.specs.Links.{frame_at};
ghost use Rattle.wire_frames.specs.Writing.{CanPutEntry, CanPutOutput};
ghost use Rattle.link_store.specs.Sending.{IsUnsent, SendsEntry, SendsOutput};
ghost use Rattle.link_store.specs.Sending.{CountsEntry, TakesOutput};
ghost use Rattle.link_store.specs.Sending.{ForgetsEntries, ForgetsOutputs, BeginsEpoch, TurnsBack};
ghost use Rattle.link_store.specs.Sending.{HasEntryFrame, HasOutputFrame, entry_address};
ghost use Rattle.link_store.specs.Sending.{output_address, length_at};
ghost use Rattle.link_store.specs.Spelled.{IsEntryFrame, IsOutputFrame};

use crate::Links;
use plain_text::{Bytes, Kind, NoMemory, Sequence};
use std::alloc::Global;
use std::marker::Model;
use thread_clock::Stamp;
use wire_frames::{Output, StampedEntry, What, entry_length, output_length, put_entry};

/// What a master sends on its links: each entry and each output as a frame, and how long each frame was.
///
/// A frame is there until it is forgotten; its length stays. A new master has a new epoch: what the one before sent and
/// it did not make is forgotten, with its length; the other outputs stay on the links, as frames of the new epoch.
#[derive(Drop)]
pub struct SentFrames {
    alloc: Global,
    epoch: u32,
    threads: u32,
    links: Links,
    entries: Vec<Sequence<u32>>,
    outputs: Vec<Sequence<u32>>,
}

impl Model for SentFrames {
    ghost use Rattle.link_store.specs.Sending.{Sending, IsSending};

    ghost Value = { Sending };

    ghost view = { λ s. record {
      epoch = s.epoch;
      threads = s.threads;
      frames = s.links;
      entries = s.entries.items;
      outputs = s.outputs.items;
    } };

    ghost invariant = { λ s. IsSending (record {
      epoch = s.epoch;
      threads = s.threads;
      frames = s.links;
      entries = s.entries.items;
      outputs = s.outputs.items;
    }) };
}

/// No lengths, for each thread.
fn no_lengths(alloc: Global, threads: u32) -> Result<Vec<Sequence<u32>>, NoMemory>
    ensures { IfOk result (λ lengths. lengths.items ≡ replicate threads []) }
{
    let mut lengths = Vec::with_capacity(alloc, threads as usize)?;
    for _ in 0..threads {
        lengths.push(Sequence::new(alloc))?;
    }
    Ok(lengths)
}

/// The length of a thread's frame of this number, from 1.
fn length_in(lengths: &[Sequence<u32>], thread: u32, number: u64) -> Option<u64>
    ensures { result ≡ length_at lengths.now thread number }
{
    let lengths = lengths.get(thread as usize)?;
    let earlier = number.checked_sub(1)?;
    let length = lengths.as_slice().get(earlier as usize)?;
    Some(u64::from(*length))
}

/// The place or the value of an entry is a word.
fn word_of(what: What) -> u64
    ensures fits { FitsWord what }
{
    match what {
        What::Access { var: _, place } => place,
        What::Read { var: _, after } => after,
        What::Clock(value) => value,
        What::Draw(value) => value,
    }
}

/// Each component of a stamp is half of one.
fn fit_words(components: &[u32])
    ensures { (u : ℕ) → slice_index components.now u < 2 ^ 32 }
{
    let _all = components.len();
}

/// And each number; an epoch is half of one.
fn fits_word(epoch: u32, number: u64)
    ensures epoch { epoch < 2 ^ 32 }
    ensures number { number < 2 ^ 64 }
{}

impl SentFrames {
    /// Nothing was sent, in epoch 1.
    pub fn new(alloc: Global, threads: u32) -> Result<Self, NoMemory>
        requires some { 1 ≤ threads }
        requires few { threads ≤ 16 }
        ensures { IfOk result (λ sent. IsUnsent threads sent) }
    {
        Ok(SentFrames {
            alloc,
            epoch: 1,
            threads,
            links: Links::new(alloc)?,
            entries: no_lengths(alloc, threads)?,
            outputs: no_lengths(alloc, threads)?,
        })
    }

    /// The epoch that its frames say.
    pub fn epoch(&self) -> u32
        ensures { result ≡ self.now.epoch }
    {
        self.epoch
    }

    /// The number of threads that its frames say.
    pub fn threads(&self) -> u32
        ensures { result ≡ self.now.threads }
    {
        self.threads
    }

    /// Sends an entry as its thread's next frame. After `NoMemory` the links are of no use any more.
    pub fn send_entry(&mut self, entry: &StampedEntry) -> Result<(), NoMemory>
        requires can { CanPutEntry self.old.epoch self.old.threads entry.now }
        ensures ok { OnOk result (SendsEntry self.old self.new entry.now) }
        ensures there { entry.now.thread < length self.old.entries }
        ensures threads { self.new.threads ≡ self.old.threads }
    {
        let frame = put_entry(self.alloc, self.epoch, self.threads, entry)?;
        self.send_entry_frame(entry.thread, entry.number, frame)
    }

    /// Sends an entry of which the frame was made before. After `NoMemory` the links are of no use any more.
    pub fn send_entry_frame(
        &mut self,
        thread: u32,
        number: u64,
        frame: Bytes,
    ) -> Result<(), NoMemory>
        requires of_these { thread < self.old.threads }
        requires small { length frame < 2 ^ 32 }
        ensures ok { OnOk result ((e : StampedEntry)
            → IsEntryFrame self.old.epoch self.old.threads e frame
            → e.thread ≡ thread → e.number ≡ number → SendsEntry self.old self.new e) }
        ensures there { thread < length self.old.entries }
        ensures threads { self.new.threads ≡ self.old.threads }
    {
        self.entries[thread as usize].push(frame.len() as u32)?;
        self.links
            .send(self.epoch, Kind::Log, thread, number, frame)
    }

    /// Counts an entry as its thread's next one. Its frame is neither written nor sent.
    pub fn count_entry(&mut self, entry: &StampedEntry) -> Result<(), NoMemory>
        requires can { CanPutEntry self.old.epoch self.old.threads entry.now }
        ensures ok { OnOk result (CountsEntry self.old self.new entry.now) }
        ensures there { entry.now.thread < length self.old.entries }
        ensures threads { self.new.threads ≡ self.old.threads }
    {
        let _word = word_of(entry.what);
        let components = entry.stamp.components();
        fit_words(components);
        fits_word(self.epoch, entry.number);
        let size = entry_length(entry);
        self.entries[entry.thread as usize].push(size as u32)?;
        Ok(())
    }

    /// Sends an output as its thread's next frame. It is kept as the output, and no frame is written. After `NoMemory`
    /// the links are of no use any more.
    pub fn send_output(&mut self, output: Output) -> Result<(), NoMemory>
        requires can { CanPutOutput self.old.epoch self.old.threads output }
        ensures ok { OnOk result (SendsOutput self.old self.new output) }
        ensures there { output.thread < length self.old.outputs }
        ensures threads { self.new.threads ≡ self.old.threads }
    {
        let size = output_length(&output);
        self.outputs[output.thread as usize].push(size as u32)?;
        self.links.send_output(self.epoch, self.threads, output)
    }

    /// Sends an output of which the frame was made before. After `NoMemory` the links are of no use any more.
    pub fn send_output_frame(
        &mut self,
        thread: u32,
        number: u64,
        frame: Bytes,
    ) -> Result<(), NoMemory>
        requires of_these { thread < self.old.threads }
        requires small { length frame < 2 ^ 32 }
        ensures ok { OnOk result ((o : OutputValue)
            → IsOutputFrame self.old.epoch self.old.threads o frame
            → o.thread ≡ thread → o.number ≡ number → SendsOutput self.old self.new o) }
        ensures there { thread < length self.old.outputs }
        ensures threads { self.new.threads ≡ self.old.threads }
    {
        self.outputs[thread as usize].push(frame.len() as u32)?;
        self.links
            .send(self.epoch, Kind::Out, thread, number, frame)
    }

    /// The entry that was sent under this number, if its frame is not forgotten.
    pub fn entry(&self, thread: u32, number: u64) -> Result<Option<StampedEntry>, NoMemory>
        ensures there { IfOk result (λ found. (e : StampedEntry) → HasEntryFrame self.now e
            → e.thread ≡ thread → e.number ≡ number → found ≡ Some e) }
        ensures forgotten { frame_at self.now.frames (entry_address self.now thread number) ≡ None
            → IfOk result (λ found. found ≡ None) }
    {
        match self.links.fetch(self.epoch, Kind::Log, thread, number) {
            Some(frame) => frame.entry(self.alloc),
            None => Ok(None),
        }
    }

    /// The output that was sent under this number, if its frame is not forgotten.
    pub fn output(&self, thread: u32, number: u64) -> Result<Option<Output>, NoMemory>
        ensures there { IfOk result (λ found. (o : OutputValue) → HasOutputFrame self.now o
            → o.thread ≡ thread → o.number ≡ number → found ≡ Some o) }
        ensures forgotten { frame_at self.now.frames (output_address self.now thread number) ≡ None
            → IfOk result (λ found. found ≡ None) }
    {
        match self.links.fetch(self.epoch, Kind::Out, thread, number) {
            Some(frame) => frame.output(self.alloc),
            None => Ok(None),
        }
    }

    /// The stamp of the output that was sent under this number, where it is on the links as an output.
    pub fn stamp(&self, thread: u32, number: u64) -> Option<Stamp>
        ensures { IfSome result (λ stamp. (o : OutputValue) → HasOutputFrame self.now o
            → o.thread ≡ thread → o.number ≡ number → stamp ≡ o.stamp) }
    {
        let frame = self.links.fetch(self.epoch, Kind::Out, thread, number)?;
        frame.stamp()
    }

    /// The output that was sent under this number. Where it is the first of its thread on the links, it is moved off
    /// them, else it is a copy. After `NoMemory` the links are of no use any more.
    pub fn take_output(&mut self, thread: u32, number: u64) -> Result<Option<Output>, NoMemory>
        ensures there { IfOk result (λ found. (o : OutputValue) → HasOutputFrame self.old o
            → o.thread ≡ thread → o.number ≡ number → found ≡ Some o) }
        ensures others { TakesOutput self.old self.new thread number }
    {
        match self.links.take_output(self.epoch, thread, number) {
            Some(frame) => frame.into_output(self.alloc),
            None => self.output(thread, number),
        }
    }

    /// How long the frame of an entry was, or of an output; `None` where none was sent under this number.
    pub fn length(&self, kind: Kind, thread: u32, number: u64) -> Option<u64>
        ensures entry { kind ≡ kind_is.Log → result ≡ length_at self.now.entries thread number }
        ensures output { kind ≡ kind_is.Out → result ≡ length_at self.now.outputs thread number }
    {
        match kind {
            Kind::Log => length_in(&self.entries, thread, number),
            Kind::Out => length_in(&self.outputs, thread, number),
        }
    }

    /// Forgets the frames of a thread's entries up to this number. It takes no memory.
    pub fn forget_entries(&mut self, thread: u32, up_to: u64)
        ensures forgets { ForgetsEntries self.old self.new thread up_to }
    {
        self.links.forget(self.epoch, Kind::Log, thread, up_to);
    }

    /// Forgets the frames of a thread's outputs up to this number. It takes no memory.
    pub fn forget_outputs(&mut self, thread: u32, up_to: u64)
        ensures forgets { ForgetsOutputs self.old self.new thread up_to }
    {
        self.links.forget(self.epoch, Kind::Out, thread, up_to);
    }

    /// Ends the epoch, and begins the next one: the outputs on the links stay there, as frames of the next one, and the
    /// frames of entries are forgotten. An output that was sent as its frame is read then, once, and takes memory. After
    /// `NoMemory` the links are of no use any more.
    pub fn begin_epoch(&mut self) -> Result<(), NoMemory>
        requires { self.old.epoch < 2 ^ 32 - 1 }
        ensures ok { OnOk result (BeginsEpoch self.old self.new) }
        ensures threads { self.new.threads ≡ self.old.threads }
    {
        self.links.turn_epoch(self.epoch)?;
        self.epoch += 1;
        Ok(())
    }

    /// Counts only this number of a thread's entries as sent, and only this number of its outputs: the first ones. The
    /// frames of its later outputs are forgotten. It takes no memory.
    pub fn turn_back(&mut self, thread: u32, entries: u64, outputs: u64)
        requires { thread < self.old.threads }
        ensures { TurnsBack self.old self.new thread entries outputs }
    {
        self.entries[thread as usize].truncate(entries as usize);
        self.outputs[thread as usize].truncate(outputs as usize);
        self.links
            .forget_past(self.epoch, Kind::Out, thread, outputs);
    }
}
