ghost use Rattle.std.specs.Prelude.{◌≡◌, ◌≤◌, Ok, Err, IfOk, IfErr, length, map, take};
ghost use Rattle.line_tables.specs.Parts.{grammar_place, values_at};

use crate::part::Part;
use plain_text::{LineCause, WordIter};

/// The most values of a line.
pub const MOST_VALUES: usize = 4;

/// The values of a line's words at these places, followed by zeros; or its fault.
pub(crate) fn read_values(
    mut words: WordIter<'_>,
    parts: &[Part],
) -> Result<[u64; MOST_VALUES], LineCause>
    requires { length parts.now ≤ 4 }
    ensures values { IfOk result (λ values.
        values_at (map grammar_place parts.now) words.entry
        ≡ Ok (take (length parts.now) values)) }
    ensures fault { IfErr result (λ cause.
        values_at (map grammar_place parts.now) words.entry ≡ Err cause) }
{
    let mut values = [0; MOST_VALUES];
    for (index, part) in parts.iter().enumerate() {
        let Some(word) = words.next() else {
            return Err(LineCause::MissingWord);
        };
        values[index] = part.value(word)?;
    }
    match words.next() {
        None => Ok(values),
        Some(_) => Err(LineCause::ExtraWord),
    }
}
