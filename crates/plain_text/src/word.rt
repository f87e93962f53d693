ghost use Rattle.std.specs.Prelude.{◌≡◌, ◌<◌, ◌∷◌, [], length, position, nat_lt, if◌then◌else◌};
ghost use Rattle.plain_text.specs.Lines.{is_blank as is_blank_byte, words_of};

use std::marker::Model;

/// The words of a line, in order. Contracts see those that are left.
#[derive(Drop)]
pub struct WordIter<'a> {
    rest: &'a [u8],
}

impl<'a> Model for WordIter<'a> {
    ghost use Rattle.std.specs.Prelude.{List, ℕ};
    ghost use Rattle.plain_text.specs.Lines.{words_of};

    ghost Value = { List (List ℕ) };

    ghost view = { λ w. words_of w.rest.now };
}

/// The words of a line, which spaces and tabs separate.
pub fn words(line: &[u8]) -> WordIter<'_>
    ensures { result ≡ words_of line.now }
{
    WordIter { rest: line }
}

impl<'a> Iterator for WordIter<'a> {
    ghost use Rattle.std.specs.Iterator.{YieldsFirstRef, item_count};

    type Item = &'a [u8];

    ghost next_gives = { YieldsFirstRef (λ left. left) };

    ghost remaining = { item_count (λ left. left) };

    fn next(&mut self) -> Option<&'a [u8]> {
        while !self.rest.is_empty() {
            let (word, rest) = cut_word(self.rest);
            self.rest = rest;
            if !word.is_empty() {
                return Some(word);
            }
        }
        None
    }
}

/// Whether a byte separates words.
fn is_blank(byte: u8) -> bool
    ensures { result ≡ is_blank_byte byte }
{
    byte == b' ' || byte == b'\t'
}

/// What stands before the first blank of a line that is not empty, and what follows that blank.
fn cut_word(line: &[u8]) -> (&[u8], &[u8])
    requires { 0 < length line.now }
    ensures words { words_of line.now ≡ (if nat_lt 0 (length result.0.now)
        then result.0.now ∷ words_of result.1.now else words_of result.1.now) }
    ensures shorter { length result.1.now < length line.now }
{
    let Some(end) = blank_in(line) else {
        return (line, &line[line.len()..]);
    };
    (&line[..end], &line[end + 1..])
}

/// Where the first blank is.
fn blank_in(line: &[u8]) -> Option<usize>
    ensures { result ≡ position is_blank_byte line.now }
{
    line.iter().position(|byte| is_blank(*byte))
}
