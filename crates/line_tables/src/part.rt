ghost use Rattle.std.specs.Prelude.{◌≡◌};
ghost use Rattle.plain_text.specs.Grammar.{value_at};
ghost use Rattle.line_tables.specs.Parts.{grammar_place, kind_from, value_or_misfit};

use plain_text::{Kind, LineCause, read_u64};

/// What stands at a place of a line, after its first word.
#[derive(Clone, Copy, Debug, PartialEq, Eq)]
pub enum Part {
    /// A decimal number below 2^64.
    Number,
    /// The sign `=`, whose value is 0.
    Equals,
    /// The word `log`, whose value is 0, or `out`, whose value is 1.
    Kind,
}

impl Part {
    /// The value of a word at this place, or its fault.
    pub fn value(self, word: &[u8]) -> Result<u64, LineCause>
        ensures { result
            ≡ value_or_misfit (grammar_place self) (value_at (grammar_place self) word.now) }
    {
        match self {
            Part::Number => read_u64(word).ok_or(LineCause::BadNumber),
            Part::Equals if word == b"=".as_slice() => Ok(0),
            Part::Kind if word == b"log".as_slice() => Ok(0),
            Part::Kind if word == b"out".as_slice() => Ok(1),
            Part::Equals | Part::Kind => Err(LineCause::UnknownWord),
        }
    }
}

/// The kind whose word has this value.
pub fn kind_of(value: u64) -> Kind
    ensures { result ≡ kind_from value }
{
    if value == 0 { Kind::Log } else { Kind::Out }
}
