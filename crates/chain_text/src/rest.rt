//! What stands behind the first word of a line.
ghost use Rattle.std.specs.Prelude.{◌≡◌, ◌<◌, ◌∷◌, drop, length, position, nat_lt, if◌then◌else◌};
ghost use Rattle.plain_text.specs.Lines.{is_blank as is_blank_byte, words_of};

/// What stands behind the first word of a line; nothing where the line has no word.
pub(crate) fn behind_word(line: &[u8]) -> &[u8]
    ensures { words_of result.now ≡ drop 1 (words_of line.now) }
{
    let mut rest = line;
    while !rest.is_empty() {
        let (word, behind) = cut_word(rest);
        rest = behind;
        if !word.is_empty() {
            return rest;
        }
    }
    rest
}

/// Whether a byte separates words.
fn is_blank(byte: u8) -> bool
    ensures { result ≡ is_blank_byte byte }
{
    byte == b' ' || byte == b'\t'
}

/// What stands before the first blank of a line that is not empty, and what follows that blank.
fn cut_word(line: &[u8]) -> (&[u8], &[u8])
    requires { 0 < length line.now }
    ensures words { words_of line.now ≡ (if nat_lt 0 (length result.0.now)
        then result.0.now ∷ words_of result.1.now else words_of result.1.now) }
    ensures shorter { length result.1.now < length line.now }
{
    let Some(end) = blank_in(line) else {
        return (line, &line[line.len()..]);
    };
    (&line[..end], &line[end + 1..])
}

/// Where the first blank is.
fn blank_in(line: &[u8]) -> Option<usize>
    ensures { result ≡ position is_blank_byte line.now }
{
    line.iter().position(|byte| is_blank(*byte))
}
