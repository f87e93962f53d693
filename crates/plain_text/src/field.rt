ghost use Rattle.std.specs.Prelude.{◌≡◌, [], Ok, Err, OnOk, IfOk, IfErr};
ghost use Rattle.plain_text.specs.Fields.{take_field, fields_of};

use crate::{LineCause, WordIter, read_address, read_u64};

/// What stands at one place of a line, after its first word.
#[derive(Clone, Copy, Debug, PartialEq, Eq)]
pub enum Field<'a> {
    /// A decimal number below 2^64.
    Number,
    /// An address, whose number has 32 bits.
    Address,
    /// This very word. It counts as 0.
    Fixed(&'a [u8]),
}

/// Takes the next word of a line, which has to be this field, and gives its number.
///
/// It answers `MissingWord` where there is no word, `BadNumber` where a number or an address has to stand and does not,
/// and `UnknownWord` where a fixed word has to stand and another does.
pub fn read_field(words: &mut WordIter<'_>, field: Field<'_>) -> Result<u64, LineCause>
    ensures value { IfOk result (λ n. take_field field.entry words.old ≡ Ok (n, words.new)) }
    ensures fault { IfErr result (λ cause. take_field field.entry words.old ≡ Err cause) }
{
    let Some(word) = words.next() else {
        return Err(LineCause::MissingWord);
    };
    match field {
        Field::Number => read_u64(word).ok_or(LineCause::BadNumber),
        Field::Address => match read_address(word) {
            Some(address) => Ok(u64::from(address)),
            None => Err(LineCause::BadNumber),
        },
        Field::Fixed(fixed) => {
            if word == fixed {
                Ok(0)
            } else {
                Err(LineCause::UnknownWord)
            }
        }
    }
}

/// Says that a line has no further word, or `ExtraWord`.
pub fn end_of_line(mut words: WordIter<'_>) -> Result<(), LineCause>
    ensures ok { OnOk result (fields_of [] words.entry ≡ Ok []) }
    ensures fault { IfErr result (λ cause. fields_of [] words.entry ≡ Err cause) }
{
    match words.next() {
        None => Ok(()),
        Some(_) => Err(LineCause::ExtraWord),
    }
}
