//! Frames that follow one another. While all stamps have but a few components that are not 0, a frame has room for no more.
ghost use Rattle.std.specs.Prelude.{◌≡◌, ◌<◌, ◌++◌, ◌∷◌, ℕ, [], None, Some, Ok, IfOk, IfSome, OnOk, OnErr};
ghost use Rattle.std.specs.Prelude.{MatchOption, drop, length, option_map, slice_get, slice_index_or};
ghost use Rattle.std.specs.Prelude.{slice_set, take, option_to_list};
ghost use Rattle.wire_frames.specs.FromAccessLog.{Output as OutputValue};
ghost use Rattle.wire_frames.specs.FromAccessLog.{StampedEntry as EntryValue};
ghost use Rattle.wire_frames.specs.declared.frame.Frame.TheVariants as frame_is;
ghost use Rattle.wire_frames.specs.Layout.{IsFrame};
ghost use Rattle.link_store.specs.declared.kept.Form.{Form};
ghost use Rattle.link_store.specs.Kept.{bytes_of};
ghost use Rattle.link_store.specs.Rows.{forms_of, form_of, TellsOne};

use crate::KeptFrame;
use crate::narrow::NarrowFrame;
use plain_text::NoMemory;
use std::alloc::Global;
use std::collections::VecDeque;
use thread_clock::Stamp;
use wire_frames::{Output, StampedEntry};

/// Frames that follow one another. Contracts read by `forms_of` how each is kept.
#[derive(Debug, Drop)]
pub enum FrameRow {
    /// Each is kept as its output, of whose stamp the components are 0 but for those of threads 0 to 3.
    Narrow(VecDeque<NarrowFrame<4>>),
    /// There is room for all components.
    Whole(VecDeque<KeptFrame>),
}

/// A frame that is looked at where it stands.
#[derive(Clone, Copy, Debug)]
pub enum SeenFrame<'a> {
    Narrow(&'a NarrowFrame<4>),
    Whole(&'a KeptFrame),
}

impl<'a> SeenFrame<'a> {
    /// The entry of the frame, as `KeptFrame` has it.
    pub fn entry(self, alloc: Global) -> Result<Option<StampedEntry>, NoMemory>
        ensures { IfOk result (λ found. (epoch threads : ℕ) (e : EntryValue)
            → IsFrame (bytes_of epoch (form_of self.entry)) (frame_is.Entry epoch threads e)
            → found ≡ Some e) }
    {
        match self {
            SeenFrame::Narrow(frame) => {
                frame.is_no_entry();
                Ok(None)
            }
            SeenFrame::Whole(frame) => frame.entry(alloc),
        }
    }

    /// The output of the frame, as `KeptFrame` has it.
    pub fn output(self, alloc: Global) -> Result<Option<Output>, NoMemory>
        ensures { IfOk result (λ found. (epoch threads : ℕ) (o : OutputValue)
            → IsFrame (bytes_of epoch (form_of self.entry)) (frame_is.Output epoch threads o)
            → found ≡ Some o) }
    {
        match self {
            SeenFrame::Narrow(frame) => frame.copied(alloc)?.into_output(alloc),
            SeenFrame::Whole(frame) => frame.output(alloc),
        }
    }

    /// The stamp of the output, where the frame is kept as one.
    pub fn stamp(self) -> Option<Stamp>
        ensures { IfSome result (λ stamp. (epoch threads : ℕ) (o : OutputValue)
            → IsFrame (bytes_of epoch (form_of self.entry)) (frame_is.Output epoch threads o)
            → stamp ≡ o.stamp) }
    {
        match self {
            SeenFrame::Narrow(frame) => Some(frame.stamp()),
            SeenFrame::Whole(frame) => frame.stamp(),
        }
    }
}

impl FrameRow {
    /// No frames. It takes no memory.
    pub fn new(alloc: Global) -> Self
        ensures { forms_of result ≡ [] }
    {
        FrameRow::Narrow(VecDeque::new(alloc))
    }

    /// How many frames there are.
    pub fn len(&self) -> usize
        ensures { result ≡ length (forms_of self.now) }
    {
        match self {
            FrameRow::Narrow(frames) => frames.len(),
            FrameRow::Whole(frames) => frames.len(),
        }
    }

    /// A frame, to be looked at.
    pub fn get(&self, i: usize) -> Option<SeenFrame<'_>>
        ensures { option_map form_of result ≡ slice_get (forms_of self.now) i }
    {
        match self {
            FrameRow::Narrow(frames) => frames.get(i).map(SeenFrame::Narrow),
            FrameRow::Whole(frames) => frames.get(i).map(SeenFrame::Whole),
        }
    }

    /// A copy of a frame, with all room.
    fn copied(&self, alloc: Global, i: usize) -> Result<KeptFrame, NoMemory>
        requires { i < length (forms_of self.now) }
        ensures { IfOk result (λ copy. copy ≡ slice_index_or (forms_of self.now) i copy) }
    {
        match self {
            FrameRow::Narrow(frames) => frames[i].copied(alloc),
            FrameRow::Whole(frames) => frames[i].copied(alloc),
        }
    }

    /// Takes the first frame out.
    pub fn pop_front(&mut self) -> Option<KeptFrame>
        ensures items { forms_of self.old ≡ option_to_list result ++ forms_of self.new }
        ensures rest { forms_of self.new ≡ drop 1 (forms_of self.old) }
    {
        match self {
            FrameRow::Narrow(frames) => match frames.pop_front() {
                Some(frame) => Some(frame.whole()),
                None => None,
            },
            FrameRow::Whole(frames) => frames.pop_front(),
        }
    }

    /// Keeps the first frames, at most this number. It takes no memory.
    pub fn truncate(&mut self, count: usize)
        ensures { forms_of self.new ≡ take count (forms_of self.old) }
    {
        match self {
            FrameRow::Narrow(frames) => frames.truncate(count),
            FrameRow::Whole(frames) => frames.truncate(count),
        }
    }

    /// The same frames, each a copy with all room.
    fn widened(&self, alloc: Global) -> Result<VecDeque<KeptFrame>, NoMemory>
        ensures { IfOk result (λ whole. whole.items ≡ forms_of self.now) }
    {
        let mut whole = VecDeque::new(alloc);
        for i in 0..self.len() {
            whole.push_back(self.copied(alloc, i)?)?;
        }
        Ok(whole)
    }

    /// Appends a frame if there is room for it as frames are kept; else it comes back.
    fn push_as_laid_out(&mut self, frame: KeptFrame) -> Result<Option<KeptFrame>, NoMemory>
        ensures pushed { result ≡ Ok None → forms_of self.new ≡ forms_of self.old ++ frame ∷ [] }
        ensures back { (back : Form) → result ≡ Ok (Some back)
            → (back ≡ frame) × (forms_of self.new ≡ forms_of self.old) }
        ensures err { OnErr result (forms_of self.new ≡ forms_of self.old) }
    {
        match self {
            FrameRow::Narrow(frames) => match NarrowFrame::of(frame) {
                Ok(narrow) => frames.push_back(narrow)?,
                Err(back) => return Ok(Some(back)),
            },
            FrameRow::Whole(frames) => frames.push_back(frame)?,
        }
        Ok(None)
    }

    /// Appends a frame, in time that does not grow with the row, taken over many calls.
    pub fn push(&mut self, alloc: Global, frame: KeptFrame) -> Result<(), NoMemory>
        ensures ok { OnOk result (forms_of self.new ≡ forms_of self.old ++ frame ∷ []) }
        ensures err { OnErr result (forms_of self.new ≡ forms_of self.old) }
    {
        let Some(frame) = self.push_as_laid_out(frame)? else {
            return Ok(());
        };
        let mut whole = self.widened(alloc)?;
        whole.push_back(frame)?;
        *self = FrameRow::Whole(whole);
        Ok(())
    }

    /// Puts a frame in the place of another if there is room for it as frames are kept; else it comes back.
    fn set_as_laid_out(&mut self, i: usize, frame: KeptFrame) -> Option<KeptFrame>
        requires { i < length (forms_of self.old) }
        ensures { MatchOption result (forms_of self.new ≡ slice_set (forms_of self.old) i frame)
            (λ back. (back ≡ frame) × (forms_of self.new ≡ forms_of self.old)) }
    {
        match self {
            FrameRow::Narrow(frames) => match NarrowFrame::of(frame) {
                Ok(narrow) => frames[i] = narrow,
                Err(back) => return Some(back),
            },
            FrameRow::Whole(frames) => frames[i] = frame,
        }
        None
    }

    /// Puts a frame in the place of another, in time that does not grow with the row, taken over many calls.
    pub fn set(&mut self, alloc: Global, i: usize, frame: KeptFrame) -> Result<(), NoMemory>
        requires { i < length (forms_of self.old) }
        ensures ok { OnOk result (forms_of self.new ≡ slice_set (forms_of self.old) i frame) }
        ensures err { OnErr result (forms_of self.new ≡ forms_of self.old) }
    {
        let Some(frame) = self.set_as_laid_out(i, frame) else {
            return Ok(());
        };
        let mut whole = self.widened(alloc)?;
        whole[i] = frame;
        *self = FrameRow::Whole(whole);
        Ok(())
    }

    /// Keeps a frame as the output that it tells, as `KeptFrame` has it.
    pub fn tell(&mut self, alloc: Global, i: usize) -> Result<(), NoMemory>
        requires { i < length (forms_of self.old) }
        ensures tells { OnOk result (TellsOne i (forms_of self.old) (forms_of self.new)) }
        ensures as_many { length (forms_of self.new) ≡ length (forms_of self.old) }
    {
        match self {
            FrameRow::Narrow(frames) => {
                frames[i].is_told();
                Ok(())
            }
            FrameRow::Whole(frames) => frames[i].tell(alloc),
        }
    }
}
