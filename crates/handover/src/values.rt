ghost use Rattle.std.specs.Prelude.{◌≡◌, ◌≤◌, Ok, Err, IfOk, IfErr, length, map, take};
ghost use Rattle.plain_text.specs.Grammar.{value_at};
ghost use Rattle.line_tables.specs.Parts.{value_or_misfit, values_at};
ghost use Rattle.handover.specs.Table.{place_of};

use plain_text::{LineCause, WordIter, read_u64};

/// The most values of a line.
pub const MOST_VALUES: usize = 6;

/// What stands at a place of a line, after its first word.
#[derive(Clone, Copy)]
pub enum Part {
    /// The word `1`, whose value is 0: the form of the text that this program knows.
    One,
    /// The sign `=`, whose value is 0.
    Equals,
    /// A decimal number below 2^32.
    Narrow,
    /// A decimal number below 2^64.
    Wide,
}

impl Part {
    /// The value of a word at this place, or its fault; a range is judged behind the whole line.
    fn value(self, word: &[u8]) -> Result<u64, LineCause>
        ensures { result ≡ value_or_misfit (place_of self) (value_at (place_of self) word.now) }
    {
        match self {
            Part::One if word == b"1".as_slice() => Ok(0),
            Part::Equals if word == b"=".as_slice() => Ok(0),
            Part::One | Part::Equals => Err(LineCause::UnknownWord),
            Part::Narrow | Part::Wide => read_u64(word).ok_or(LineCause::BadNumber),
        }
    }
}

/// The values of a line's words at these places, followed by zeros; or its fault.
pub(crate) fn read_values(
    mut words: WordIter<'_>,
    parts: &[Part],
) -> Result<[u64; MOST_VALUES], LineCause>
    requires { length parts.now ≤ 6 }
    ensures values { IfOk result (λ values.
        values_at (map place_of parts.now) words.entry ≡ Ok (take (length parts.now) values)) }
    ensures fault { IfErr result (λ cause.
        values_at (map place_of parts.now) words.entry ≡ Err cause) }
{
    let mut values = [0; MOST_VALUES];
    for (index, part) in parts.iter().enumerate() {
        let Some(word) = words.next() else {
            return Err(LineCause::MissingWord);
        };
        values[index] = part.value(word)?;
    }
    match words.next() {
        None => Ok(values),
        Some(_) => Err(LineCause::ExtraWord),
    }
}
