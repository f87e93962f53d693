ghost use Rattle.std.specs.Prelude.{◌≡◌, Some, IfOk, IfErr};
ghost use Rattle.plain_text.specs.Lines.{words_of};
ghost use Rattle.line_tables.specs.Tables.{Table, IsTable, Says, fault_of, form_named, has_third};

use crate::part::Part;
use crate::values::{MOST_VALUES, read_values};
use plain_text::{LineCause, WordIter, words};

/// A table of lines. Which forms a line may have depends on whether it has a third word.
pub trait LineTable {
    /// A form of line: its first word, and what stands after it.
    type Form: Copy + 'static;
    /// What a line says.
    type Thing;

    /// The forms, and how they and the things that lines say are made of one another.
    ghost table: { Table Self.Form Self.Thing };

    /// The forms of lines that have a third word, or of those that have not.
    fn forms(third: bool) -> &'static [Self::Form]
        ensures { result.now ≡ table.forms third };

    /// The first word of a line of this form.
    fn word(form: Self::Form) -> &'static [u8]
        ensures { result.now ≡ table.word_of form };

    /// What stands after the first word.
    fn parts(form: Self::Form) -> &'static [Part]
        ensures { result.now ≡ table.parts_of form };

    /// The thing that a line of this form says with these values after its first word.
    fn thing(form: Self::Form, values: [u64; MOST_VALUES]) -> Self::Thing
        ensures { result ≡ table.thing_from form values };
}

/// The thing that a line says, or its fault.
pub fn read_thing<T: LineTable>(line: &[u8]) -> Result<T::Thing, LineCause>
    requires table { IsTable T.table }
    ensures thing { IfOk result (Says T.table (words_of line.now)) }
    ensures fault { IfErr result (λ cause. fault_of T.table (words_of line.now) ≡ Some cause) }
{
    let third = is_third_there(words(line));
    let mut left = words(line);
    let Some(word) = left.next() else {
        return Err(LineCause::UnknownWord);
    };
    let Some(form) = find_form::<T>(third, word) else {
        return Err(LineCause::UnknownWord);
    };
    let values = read_values(left, T::parts(form))?;
    Ok(T::thing(form, values))
}

/// Whether a line has three words or more.
fn is_third_there(mut words: WordIter<'_>) -> bool
    ensures { result ≡ has_third words.entry }
{
    words.nth(2).is_some()
}

/// The form of a line with this first word, if there is one; `third` says whether the line has a third word.
fn find_form<T: LineTable>(third: bool, word: &[u8]) -> Option<T::Form>
    ensures { result ≡ form_named T.table third word.now }
{
    T::forms(third)
        .iter()
        .copied()
        .find(|form| word == T::word(*form))
}
