ghost use Rattle.std.specs.Prelude.{◌≡◌, Some, None, if◌then◌else◌};
ghost use Rattle.handover.specs.Table.{word_of, parts_of};
ghost use Rattle.handover.specs.Values.{are_narrow, is_narrow, line_from};

use crate::image::Ended;
use crate::line::ImageLine;
use crate::values::{MOST_VALUES, Part};
use plain_machine::PlainMove;

/// A form of line: its first word, and what stands after it.
#[derive(Clone, Copy)]
pub enum Form {
    Heading,
    State,
    Ended,
    Released,
    /// A move that is told nothing.
    Move,
    /// A move that is told an answer.
    Told,
}

impl Form {
    /// The first word of the line.
    pub fn word(self) -> &'static [u8]
        ensures { result.now ≡ word_of self }
    {
        match self {
            Form::Heading => b"handover",
            Form::State => b"state",
            Form::Ended => b"ended",
            Form::Released => b"released",
            Form::Move | Form::Told => b"move",
        }
    }

    /// What stands after the first word.
    pub fn parts(self) -> &'static [Part]
        ensures { result.now ≡ parts_of self }
    {
        match self {
            Form::Heading => &[Part::One],
            Form::State => &[
                Part::Wide,
                Part::Wide,
                Part::Wide,
                Part::Narrow,
                Part::Wide,
                Part::Wide,
            ],
            Form::Ended => &[Part::Narrow, Part::Narrow, Part::Wide, Part::Wide],
            Form::Released => &[Part::Narrow, Part::Wide],
            Form::Move => &[Part::Narrow],
            Form::Told => &[Part::Narrow, Part::Equals, Part::Wide],
        }
    }

    /// What a line of this form says with these values after its first word; `None` where one is out of its range.
    pub fn line(self, values: [u64; MOST_VALUES]) -> Option<ImageLine>
        ensures { result ≡ (if are_narrow self values then Some (line_from self values) else None) }
    {
        let [a, b, c, d, e, f] = values;
        match self {
            Form::Heading => Some(ImageLine::Heading),
            Form::State => Some(ImageLine::State {
                fed: a,
                clock: b,
                draws: c,
                epoch: narrow(d)?,
                moves: e,
                bytes: f,
            }),
            Form::Ended => Some(ImageLine::Ended(Ended {
                epoch: narrow(a)?,
                thread: narrow(b)?,
                entries: c,
                outputs: d,
            })),
            Form::Released => Some(ImageLine::Released {
                thread: narrow(a)?,
                number: b,
            }),
            Form::Move => Some(move_of(narrow(a)?, None)),
            Form::Told => Some(move_of(narrow(a)?, Some(c))),
        }
    }
}

/// A number of 32 bits.
fn narrow(number: u64) -> Option<u32>
    ensures { result ≡ (if is_narrow number then Some number else None) }
{
    u32::try_from(number).ok()
}

/// The line of a move.
fn move_of(thread: u32, answer: Option<u64>) -> ImageLine
    ensures { result ≡ ImageLine.Move (record { thread = thread; answer = answer }) }
{
    ImageLine::Move(PlainMove { thread, answer })
}
