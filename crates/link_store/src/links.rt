ghost use Rattle.std.specs.Prelude.{◌≡◌, ◌≢◌, ◌<◌, ◌-◌, ◌^◌, ℕ, List, [], Some, None, OnOk};
ghost use Rattle.std.specs.Prelude.{OnErr, IfOk, IfSome, IfNone, length, option_map};
ghost use Rattle.std.specs.Prelude.{slice_index_or};
ghost use Rattle.plain_text.specs.declared.kind.Kind.TheVariants.{Out};
ghost use Rattle.wire_frames.specs.declared.frame.Frame.TheVariants as frame_is;
ghost use Rattle.wire_frames.specs.Layout.{written, IsFrame};
ghost use Rattle.wire_frames.specs.Writing.{CanPutOutput};
ghost use Rattle.link_store.specs.declared.address.Address.{Address};
ghost use Rattle.link_store.specs.Kept.{bytes_of};
ghost use Rattle.link_store.specs.Links.{address, frame_at, Sends, Forgets, IsUpTo, IsPast};
ghost use Rattle.link_store.specs.Links.{TurnsEpoch};
ghost use Rattle.link_store.specs.Rows.{form_of};
ghost use Rattle.link_store.specs.Runs.{Run as RunValue, frames_of, all_of, IsFirstTaker};
ghost use Rattle.link_store.specs.Runs.{NoneTakes, IsEach, ForgetsIn, TurnsIn};

use crate::row::SeenFrame;
use crate::run::Run;
use crate::{Address, KeptFrame};
use plain_text::{Bytes, Kind, NoMemory};
use std::alloc::Global;
use std::marker::Model;
use wire_frames::Output;

/// The frames that were sent on the links between the nodes and are not forgotten, each under its epoch, kind, thread
/// and number. A frame sent again takes the place of the one before. Contracts see the frames with their addresses, and
/// read them by `frame_at`.
///
/// Frames whose numbers follow one another stand in a run: one is found by its number, sent behind the others, and
/// forgotten before them, in a time that does not grow. A frame with another number begins a run, so there are as many
/// runs as threads and kinds where the frames of each come in the order of their numbers. Forgetting takes no memory,
/// and gives back that of the frames alone.
#[derive(Debug, Drop)]
pub struct Links {
    alloc: Global,
    /// Whether a frame was sent as its bytes. Where none was, none is that of an entry.
    spelled: bool,
    runs: Vec<Run>,
}

impl Model for Links {
    ghost use Rattle.std.specs.Prelude.{List, ℕ};
    ghost use Rattle.link_store.specs.declared.address.Address.{Address};
    ghost use Rattle.link_store.specs.Runs.{all_of, HaveNoEntry};

    ghost Value = { List (Address × List ℕ) };

    ghost view = { λ l. all_of l.runs.items };

    ghost invariant = { λ l. HaveNoEntry l.spelled (all_of l.runs.items) };
}

/// The first of the runs that has a place for a frame at this address.
fn taker(runs: &Vec<Run>, at: &Address) -> Option<usize>
    ensures found { IfSome result (IsFirstTaker runs.now.items at.now) }
    ensures none { IfNone result (NoneTakes runs.now.items at.now) }
{
    for i in 0..runs.len() {
        if runs[i].takes(at) {
            return Some(i);
        }
    }
    None
}

/// A run without frames.
fn empty_run(runs: &Vec<Run>) -> Option<usize>
    ensures { IfSome result (λ i. (i < length runs.now.items)
        × ((d : RunValue) → (slice_index_or runs.now.items i d).frames ≡ [])) }
{
    for i in 0..runs.len() {
        if runs[i].is_empty() {
            return Some(i);
        }
    }
    None
}

/// The frame at this address in the runs.
fn in_runs<'a>(runs: &'a Vec<Run>, at: &Address) -> Option<SeenFrame<'a>>
    ensures { option_map (bytes_of at.now.epoch) (option_map form_of result)
        ≡ frame_at (all_of runs.now.items) at.now }
{
    for i in 0..runs.len() {
        let frame = runs[i].get(at);
        if frame.is_some() {
            return frame;
        }
    }
    None
}

/// The first of the runs that has a frame at this address.
fn holder(runs: &Vec<Run>, at: &Address) -> Option<usize>
    ensures { IfSome result (λ i. (i < length runs.now.items) × ((j : ℕ) (d : RunValue) → j < i
        → frame_at (frames_of (slice_index_or runs.now.items j d)) at.now ≡ None)) }
{
    for i in 0..runs.len() {
        if runs[i].get(at).is_some() {
            return Some(i);
        }
    }
    None
}

/// Takes the frame at this address out of the runs, if it is the first of its run.
fn take_first_in_runs(runs: &mut Vec<Run>, at: &Address) -> Option<KeptFrame>
    ensures taken { IfSome result (λ frame.
        frame_at (all_of runs.old.items) at.now ≡ Some (bytes_of at.now.epoch frame)) }
    ensures others { (a : Address) → a ≢ at.now
        → frame_at (all_of runs.new.items) a ≡ frame_at (all_of runs.old.items) a }
    ensures none { (a : Address) → IfNone result
        (frame_at (all_of runs.new.items) a ≡ frame_at (all_of runs.old.items) a) }
{
    let i = holder(runs, at)?;
    runs[i].take_first(at)
}

/// Forgets the frames of the runs up to this address.
fn forget_in_runs(runs: &mut Vec<Run>, last: &Address)
    ensures { IsEach (ForgetsIn (IsUpTo last.now)) runs.old.items runs.new.items }
{
    for i in 0..runs.len() {
        runs[i].forget(last);
    }
}

/// Forgets the frames of the runs past this address.
fn forget_past_in_runs(runs: &mut Vec<Run>, last: &Address)
    ensures { IsEach (ForgetsIn (IsPast last.now)) runs.old.items runs.new.items }
{
    for i in 0..runs.len() {
        runs[i].forget_past(last);
    }
}

/// The outputs of this epoch are those of the next one, and the other frames are forgotten.
fn turn_runs(alloc: Global, runs: &mut Vec<Run>, epoch: u32) -> Result<(), NoMemory>
    requires { epoch < 2 ^ 32 - 1 }
    ensures { OnOk result (IsEach (TurnsIn epoch) runs.old.items runs.new.items) }
{
    for i in 0..runs.len() {
        runs[i].turn(alloc, epoch)?;
    }
    Ok(())
}

/// Keeps a frame at an address for which no run has a place.
fn send_apart(
    alloc: Global,
    runs: &mut Vec<Run>,
    at: Address,
    frame: KeptFrame,
) -> Result<(), NoMemory>
    requires { NoneTakes runs.old.items at }
    ensures ok { OnOk result (Sends (all_of runs.old.items) (all_of runs.new.items) at
        (bytes_of at.epoch frame)) }
    ensures err { OnErr result (all_of runs.new.items ≡ all_of runs.old.items) }
{
    let run = Run::of(alloc, at, frame)?;
    match empty_run(runs) {
        Some(i) => runs[i] = run,
        None => runs.push(run)?,
    }
    Ok(())
}

/// Keeps this frame as the one last sent to the address.
fn keep(alloc: Global, runs: &mut Vec<Run>, at: Address, frame: KeptFrame) -> Result<(), NoMemory>
    ensures ok { OnOk result (Sends (all_of runs.old.items) (all_of runs.new.items) at
        (bytes_of at.epoch frame)) }
    ensures err { OnErr result (all_of runs.new.items ≡ all_of runs.old.items) }
{
    match taker(runs, &at) {
        Some(i) => runs[i].put(alloc, &at, frame),
        None => send_apart(alloc, runs, at, frame),
    }
}

impl Links {
    /// Nothing was sent.
    pub fn new(alloc: Global) -> Result<Self, NoMemory>
        ensures empty { IfOk result (λ links. (a : Address) → frame_at links a ≡ None) }
    {
        Ok(Links {
            alloc,
            spelled: false,
            runs: Vec::new(alloc),
        })
    }

    /// Keeps this frame as the one last sent under these numbers. After `NoMemory` the links are as before, and the
    /// frame is dropped.
    pub fn send(
        &mut self,
        epoch: u32,
        kind: Kind,
        thread: u32,
        number: u64,
        frame: Bytes,
    ) -> Result<(), NoMemory>
        ensures ok { OnOk result (Sends self.old self.new
            (address epoch kind thread number) frame) }
        ensures err { OnErr result (self.new ≡ self.old) }
    {
        let address = Address {
            epoch,
            kind,
            thread,
            number,
        };
        self.spelled = true;
        let frame = KeptFrame::of_bytes(frame);
        keep(self.alloc, &mut self.runs, address, frame)
    }

    /// Keeps an output as the value that it is, in place of the frame that `put_output` would write of it. After
    /// `NoMemory` the links are as before, and the output is dropped.
    pub fn send_output(&mut self, epoch: u32, threads: u32, output: Output) -> Result<(), NoMemory>
        requires { CanPutOutput epoch threads output }
        ensures ok { OnOk result (Sends self.old self.new
            (address epoch Out output.thread output.number)
            (written (frame_is.Output epoch threads output))) }
        ensures err { OnErr result (self.new ≡ self.old) }
        ensures frame { IsFrame (written (frame_is.Output epoch threads output))
            (frame_is.Output epoch threads output) }
    {
        let address = Address {
            epoch,
            kind: Kind::Out,
            thread: output.thread,
            number: output.number,
        };
        let frame = KeptFrame::of_output(threads, output);
        keep(self.alloc, &mut self.runs, address, frame)
    }

    /// The frame last sent under these numbers and not forgotten since; `None` exactly where there is none. It takes no
    /// memory.
    pub fn fetch(&self, epoch: u32, kind: Kind, thread: u32, number: u64) -> Option<SeenFrame<'_>>
        ensures frame { option_map (bytes_of epoch) (option_map form_of result)
            ≡ frame_at self.now (address epoch kind thread number) }
    {
        let address = Address {
            epoch,
            kind,
            thread,
            number,
        };
        in_runs(&self.runs, &address)
    }

    /// Takes the frame of an output off the links, where none before it is there: the first of those whose numbers
    /// follow one another. It takes no memory.
    pub fn take_output(&mut self, epoch: u32, thread: u32, number: u64) -> Option<KeptFrame>
        ensures taken { IfSome result (λ frame.
            frame_at self.old (address epoch Out thread number)
            ≡ Some (bytes_of epoch frame)) }
        ensures others { (a : Address) → a ≢ address epoch Out thread number
            → frame_at self.new a ≡ frame_at self.old a }
        ensures none { (a : Address)
            → IfNone result (frame_at self.new a ≡ frame_at self.old a) }
    {
        let address = Address {
            epoch,
            kind: Kind::Out,
            thread,
            number,
        };
        take_first_in_runs(&mut self.runs, &address)
    }

    /// Forgets the frames of this epoch, kind and thread with numbers up to this one. It takes no memory, and where no
    /// frame was sent as its bytes it is done with entries at once.
    pub fn forget(&mut self, epoch: u32, kind: Kind, thread: u32, up_to: u64)
        ensures forgotten { Forgets (IsUpTo (address epoch kind thread up_to)) self.old self.new }
    {
        let last = Address {
            epoch,
            kind,
            thread,
            number: up_to,
        };
        if kind == Kind::Log && !self.spelled {
            return;
        }
        forget_in_runs(&mut self.runs, &last);
    }

    /// Forgets the frames of this epoch, kind and thread with numbers past this one. It takes no memory.
    pub fn forget_past(&mut self, epoch: u32, kind: Kind, thread: u32, last: u64)
        ensures forgotten { Forgets (IsPast (address epoch kind thread last)) self.old self.new }
    {
        let last = Address {
            epoch,
            kind,
            thread,
            number: last,
        };
        forget_past_in_runs(&mut self.runs, &last);
    }

    /// The outputs of this epoch stay where they are, as those of the next one; all other frames are forgotten. Each
    /// output is looked at in the first such call alone, and takes memory there if it was sent as bytes. After
    /// `NoMemory` the links are of no use any more.
    pub fn turn_epoch(&mut self, epoch: u32) -> Result<(), NoMemory>
        requires { epoch < 2 ^ 32 - 1 }
        ensures turns { OnOk result (TurnsEpoch epoch self.old self.new) }
    {
        self.spelled = true;
        turn_runs(self.alloc, &mut self.runs, epoch)?;
        self.spelled = false;
        Ok(())
    }
}
