//! Words with numbers, as lines are written.
ghost use Rattle.std.specs.Prelude.{◌≡◌, ◌++◌, OnOk};
ghost use Rattle.std.specs.String.{string_bytes};
ghost use Rattle.plain_text.specs.NumberedWords.{one, two, kind_word};

use plain_text::{Kind, NoMemory, put_decimal};

/// The word of a kind, and a space.
pub fn word_of_kind(kind: Kind) -> &'static str
    ensures { result.now ≡ kind_word kind }
{
    match kind {
        Kind::Log => "log ",
        Kind::Out => "out ",
    }
}

/// Appends words.
pub fn put_word(text: &mut String, word: &str) -> Result<(), NoMemory>
    ensures { OnOk result (string_bytes text.new ≡ string_bytes text.old ++ word.now) }
{
    text.push_str(word)?;
    Ok(())
}

/// Appends words with a number behind them.
pub fn put_one(text: &mut String, word: &str, number: u64) -> Result<(), NoMemory>
    ensures { OnOk result (string_bytes text.new ≡ string_bytes text.old ++ one word.now number) }
{
    text.push_str(word)?;
    put_decimal(text, number)
}

/// Appends words with a number behind them, twice.
pub fn put_two(text: &mut String, word: &str, a: u64, other: &str, b: u64) -> Result<(), NoMemory>
    ensures { OnOk result (string_bytes text.new
        ≡ string_bytes text.old ++ two word.now a other.now b) }
{
    put_one(text, word, a)?;
    put_one(text, other, b)
}
