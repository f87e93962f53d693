ghost use Rattle.std.specs.Prelude.{◌≡◌, ◌≢◌, ◌↔◌, ℕ, ◌+◌, ◌≤◌, [], ◌∷◌, IsTrue, IfSome, IfNone};
ghost use Rattle.std.specs.Prelude.{IfOk, OnOk, OnErr, Some, length, option_map};
ghost use Rattle.std.specs.Prelude.{◌-◌, ◌^◌, ◌<◌};
ghost use Rattle.link_store.specs.declared.address.Address.{Address};
ghost use Rattle.link_store.specs.Kept.{bytes_of, AreTold, TellsEach};
ghost use Rattle.link_store.specs.Links.{frame_at, Sends, IsUpTo, IsPast};
ghost use Rattle.link_store.specs.Rows.{forms_of, form_of};
ghost use Rattle.link_store.specs.Runs.{frames_of, later, Takes, ForgetsIn, TurnsIn};

use crate::row::{FrameRow, SeenFrame};
use crate::{Address, KeptFrame};
use plain_text::NoMemory;
use std::alloc::Global;
use std::marker::Model;
use std::mem;

/// Frames of one epoch, kind and thread whose numbers follow one another.
#[derive(Debug, Drop)]
pub struct Run {
    first: Address,
    frames: FrameRow,
    /// How many of the first frames are known to be kept as outputs.
    told: usize,
}

impl Model for Run {
    ghost use Rattle.link_store.specs.Runs.{Run, IsRun};
    ghost use Rattle.link_store.specs.Rows.{forms_of};

    ghost Value = { Run };

    ghost view = { λ r. record { first = r.first; frames = forms_of r.frames } };

    ghost invariant = { λ r. IsRun (record { first = r.first; frames = forms_of r.frames }) r.told };
}

/// Keeps each of these frames as the output that it tells, of which the first are kept so, this number of them.
fn tell_from(alloc: Global, from: usize, frames: &mut FrameRow) -> Result<(), NoMemory>
    requires { AreTold from (forms_of frames.old) }
    ensures as_many { length (forms_of frames.new) ≡ length (forms_of frames.old) }
    ensures ok { OnOk result ((epoch : ℕ)
        → TellsEach epoch (forms_of frames.old) (forms_of frames.new)) }
{
    for i in from..frames.len() {
        frames.tell(alloc, i)?;
    }
    Ok(())
}

impl Run {
    /// One frame, at this address.
    pub fn of(alloc: Global, at: Address, frame: KeptFrame) -> Result<Self, NoMemory>
        ensures { IfOk result (λ run. run ≡ record { first = at; frames = frame ∷ [] }) }
    {
        let mut frames = FrameRow::new(alloc);
        frames.push(alloc, frame)?;
        Ok(Run {
            first: at,
            frames,
            told: 0,
        })
    }

    /// Whether no frame is there.
    pub fn is_empty(&self) -> bool
        ensures { IsTrue result ↔ (self.now.frames ≡ []) }
    {
        self.frames.len() == 0
    }

    /// How many numbers the address is behind the first, if it is of the same epoch, kind and thread.
    fn index_of(&self, at: &Address) -> Option<u64>
        ensures there { IfSome result (λ i. at.now ≡ later self.now.first i) }
        ensures none { IfNone result ((i : ℕ) → at.now ≡ later self.now.first i → ⊥) }
    {
        if !self.first.is_beside(at) || at.number < self.first.number {
            return None;
        }
        Some(at.number - self.first.number)
    }

    /// Whether a frame has this address, or would as the next one.
    pub fn takes(&self, at: &Address) -> bool
        ensures { IsTrue result ↔ Takes self.now at.now }
    {
        match self.index_of(at) {
            Some(place) => place <= self.frames.len() as u64,
            None => false,
        }
    }

    /// The frame at this address.
    pub fn get(&self, at: &Address) -> Option<SeenFrame<'_>>
        ensures { option_map (bytes_of at.now.epoch) (option_map form_of result)
            ≡ frame_at (frames_of self.now) at.now }
    {
        self.frames.get(self.index_of(at)? as usize)
    }

    /// Puts a frame at this address, in the place of the one before or as the next.
    pub fn put(&mut self, alloc: Global, at: &Address, frame: KeptFrame) -> Result<(), NoMemory>
        requires { Takes self.old at.now }
        ensures ok { OnOk result (Sends (frames_of self.old) (frames_of self.new) at.now
            (bytes_of at.now.epoch frame)) }
        ensures err { OnErr result (self.new ≡ self.old) }
    {
        let place = (at.number - self.first.number) as usize;
        self.told = self.told.min(place);
        if place < self.frames.len() {
            self.frames.set(alloc, place, frame)
        } else {
            self.frames.push(alloc, frame)
        }
    }

    /// Takes the first frame out, if it has this address.
    pub fn take_first(&mut self, at: &Address) -> Option<KeptFrame>
        ensures taken { IfSome result (λ frame. frame_at (frames_of self.old) at.now
            ≡ Some (bytes_of at.now.epoch frame)) }
        ensures others { (a : Address) → a ≢ at.now
            → frame_at (frames_of self.new) a ≡ frame_at (frames_of self.old) a }
        ensures none { IfNone result (self.new ≡ self.old) }
    {
        let place = self.index_of(at)?;
        if place > 0 {
            return None;
        }
        let frame = self.frames.pop_front()?;
        self.first.number = self.first.number.saturating_add(1);
        self.told = self.told.saturating_sub(1);
        Some(frame)
    }

    /// Forgets the frames up to this address.
    pub fn forget(&mut self, last: &Address)
        ensures { ForgetsIn (IsUpTo last.now) self.old self.new }
    {
        if !self.first.is_beside(last) {
            return;
        }
        while self.frames.len() > 0 {
            if self.first.number > last.number {
                return;
            }
            self.frames.pop_front();
            self.first.number = self.first.number.saturating_add(1);
            self.told = self.told.saturating_sub(1);
        }
    }

    /// Forgets the frames past this address.
    pub fn forget_past(&mut self, last: &Address)
        ensures { ForgetsIn (IsPast last.now) self.old self.new }
    {
        if !self.first.is_beside(last) {
            return;
        }
        let _count = self.frames.len();
        match last.number.checked_sub(self.first.number) {
            Some(behind) => self.frames.truncate(behind.saturating_add(1) as usize),
            None => self.frames.truncate(0),
        }
    }

    /// The outputs of this epoch are those of the next one. Frames of entries are forgotten, and those of other epochs.
    pub fn turn(&mut self, alloc: Global, epoch: u32) -> Result<(), NoMemory>
        requires { epoch < 2 ^ 32 - 1 }
        ensures { OnOk result (TurnsIn epoch self.old self.new) }
    {
        if !self.first.is_output_of(epoch) {
            self.frames.truncate(0);
            return Ok(());
        }
        let told = mem::replace(&mut self.told, 0);
        tell_from(alloc, told, &mut self.frames)?;
        self.told = self.frames.len();
        self.first.epoch += 1;
        Ok(())
    }
}
