ghost use Rattle.std.specs.Prelude.{◌≡◌, ◌==◌, ◌<◌, ◌≤◌, ◌∷◌, [], length, position};
ghost use Rattle.std.specs.Str.Lines.{lines as lines_of, strip_carriage_return};
ghost use Rattle.plain_text.specs.Lines.{counted_lines, words_of, words_count};

use crate::words;
use std::marker::Model;

/// A line of a text file that counts.
#[derive(Drop)]
pub struct Line<'a> {
    /// Its number, from 1; lines that do not count have numbers too.
    pub number: u64,
    /// Its bytes, without the line feed and a carriage return before that.
    pub bytes: &'a [u8],
}

/// The lines of a text file that count, in order. Contracts see those that are left, each with its number.
#[derive(Drop)]
pub struct LineIter<'a> {
    rest: &'a [u8],
    number: u64,
}

impl<'a> Model for LineIter<'a> {
    ghost use Rattle.std.specs.Prelude.{List, ℕ, ◌+◌, ◌<◌, ◌≤◌, ◌^◌, length};
    ghost use Rattle.plain_text.specs.Lines.{counted_from};

    ghost Value = { List (ℕ × List ℕ) };

    ghost view = { λ l. counted_from l.number l.rest.now };

    ghost invariant = { λ l. l.number + length l.rest.now < 2 ^ 64 };
}

/// The lines of a text that count: those with a word, unless the first word begins with `#`.
///
/// A line ends at a line feed, which the last line may lack; a carriage return just before the line feed is dropped.
pub fn lines(text: &[u8]) -> LineIter<'_>
    ensures { result ≡ counted_lines text.now }
{
    LineIter {
        rest: text,
        number: 1,
    }
}

/// How many lines a text has, whether they count or not.
pub fn count_lines(text: &[u8]) -> u64
    ensures count { result ≡ length (lines_of text.now) }
    ensures bound { result ≤ length text.now }
{
    let mut rest = text;
    let mut count = 0;
    while !rest.is_empty() {
        let (_, more) = cut_line(rest);
        rest = more;
        count += 1;
    }
    count
}

impl<'a> Iterator for LineIter<'a> {
    ghost use Rattle.std.specs.Iterator.{YieldsFirstBy, item_count};

    type Item = Line<'a>;

    ghost next_gives = { YieldsFirstBy (λ line. (line.number, line.bytes.now)) (λ left. left) };

    ghost remaining = { item_count (λ left. left) };

    fn next(&mut self) -> Option<Line<'a>> {
        while !self.rest.is_empty() {
            let (bytes, rest) = cut_line(self.rest);
            let number = self.number;
            self.rest = rest;
            self.number += 1;
            if counts(bytes) {
                return Some(Line { number, bytes });
            }
        }
        None
    }
}

/// The first line of a text that is not empty, and what follows it.
fn cut_line(text: &[u8]) -> (&[u8], &[u8])
    requires { 0 < length text.now }
    ensures lines { lines_of text.now ≡ result.0.now ∷ lines_of result.1.now }
    ensures shorter { length result.1.now < length text.now }
{
    let Some(end) = line_feed_in(text) else {
        return (text, &text[text.len()..]);
    };
    (without_return(&text[..end]), &text[end + 1..])
}

/// Where the first line feed is.
fn line_feed_in(text: &[u8]) -> Option<usize>
    ensures { result ≡ position (λ byte. byte == 10) text.now }
{
    text.iter().position(|byte| *byte == b'\n')
}

/// A line without the carriage return at its end, if there is one.
fn without_return(line: &[u8]) -> &[u8]
    ensures { result.now ≡ strip_carriage_return line.now }
{
    match line {
        [front @ .., b'\r'] => front,
        _ => line,
    }
}

/// Whether a line counts.
fn counts(line: &[u8]) -> bool
    ensures { result ≡ words_count (words_of line.now) }
{
    match words(line).next() {
        None => false,
        Some(word) => word.first() != Some(&b'#'),
    }
}
