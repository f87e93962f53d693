use super::advice::{Advice, Flaw, LineAdvice};
use super::forms::{Grammar, stranger_in};
use super::shown::Shown;
use super::word_parts::{first_word, word_or_none};
use plain_machine::{PlayCause, PlayFault};
use plain_text::{LineCause, LineFault, lines};

/// How many bytes of a line are shown.
const MOST_SHOWN: usize = 60;

/// A line of a file that is told of.
#[derive(Clone, Copy)]
struct Told<'a> {
    /// The name of the file.
    name: Shown<'a>,
    /// Its bytes.
    text: &'a [u8],
    /// The number of the line, from 1.
    number: u64,
    /// The bytes of the line.
    line: &'a [u8],
}

impl<'a> Told<'a> {
    /// What is told of it where this is wrong with it.
    fn advice(self, flaw: Flaw<'a>) -> Advice<'a> {
        Advice::Line(LineAdvice {
            name: self.name,
            number: self.number,
            front: front(self.line),
            flaw,
        })
    }
}

/// What is wrong with the line that is refused: which word is in no line, which line it repeats, or what its form is.
pub fn advise<'a>(
    name: Shown<'a>,
    text: &'a [u8],
    fault: LineFault,
    grammar: Grammar,
) -> Option<Advice<'a>> {
    if let Some(mark) = byte_order_mark(text) {
        return Some(Advice::Name(name, mark));
    }
    let told = line_at(name, text, fault.line)?;
    match fault.cause {
        LineCause::UnknownWord => Some(told.advice(unknown_word(told, grammar))),
        LineCause::Twice => Some(told.advice(repeated_line(told))),
        LineCause::MissingWord
        | LineCause::ExtraWord
        | LineCause::BadNumber
        | LineCause::OutOfRange => Some(told.advice(form_of(told, grammar))),
        LineCause::MissingLine => None,
    }
}

/// The line with this number.
pub fn show_line<'a>(name: Shown<'a>, text: &'a [u8], number: u64) -> Option<Advice<'a>> {
    let told = line_at(name, text, number)?;
    Some(told.advice(Flaw::Told("")))
}

/// The line of the first move that is not legal, and why it is not.
pub fn advise_move<'a>(name: Shown<'a>, text: &'a [u8], fault: PlayFault) -> Option<Advice<'a>> {
    let told = move_at(name, text, fault.number)?;
    let why = match fault.cause {
        PlayCause::NoSuchThread => "; the threads of the box count from 0",
        PlayCause::NothingToTake => "; its thread has no packet left",
        PlayCause::MissingAnswer => "; the move is told an answer: T = A",
        PlayCause::UnwantedAnswer => "; the move is told no answer",
    };
    Some(told.advice(Flaw::Told(why)))
}

/// The line with this number, if it counts.
fn line_at<'a>(name: Shown<'a>, text: &'a [u8], number: u64) -> Option<Told<'a>> {
    for line in lines(text) {
        if line.number == number {
            return Some(Told {
                name,
                text,
                number,
                line: line.bytes,
            });
        }
    }
    None
}

/// The line of the move with this number, from 1.
fn move_at<'a>(name: Shown<'a>, text: &'a [u8], number: u64) -> Option<Told<'a>> {
    let mut left = number;
    for line in lines(text) {
        if left == 1 {
            return Some(Told {
                name,
                text,
                number: line.number,
                line: line.bytes,
            });
        }
        left = left.saturating_sub(1);
    }
    None
}

/// What is told of the mark that a text begins with, by which some editors tell in which form they wrote it (RFC 3629,
/// section 6).
fn byte_order_mark(text: &[u8]) -> Option<&'static str> {
    if text.starts_with(b"\xef\xbb\xbf") {
        Some(": it begins with a byte order mark (UTF-8): save it without one")
    } else if text.starts_with(b"\xff\xfe") || text.starts_with(b"\xfe\xff") {
        Some(": it begins with a byte order mark (UTF-16): save it without one")
    } else {
        None
    }
}

/// The first bytes of a line.
fn front(line: &[u8]) -> Shown<'_> {
    Shown::of(line.get(..MOST_SHOWN).unwrap_or(line))
}

/// Which word of a line is in no line of its grammar; where each is in one, how the line is to be.
fn unknown_word(told: Told<'_>, grammar: Grammar) -> Flaw<'_> {
    let Some(stranger) = stranger_in(grammar, told.line) else {
        return misplaced_line(told, grammar);
    };
    let word = front(stranger.word);
    match stranger.near {
        Some(near) => Flaw::Meant(word, near),
        None => Flaw::Unknown(word),
    }
}

/// Why a line may not stand there, whose words are all in the grammar.
fn misplaced_line(told: Told<'_>, grammar: Grammar) -> Flaw<'_> {
    let word = first_word(told.line);
    match grammar {
        Grammar::BoxFile if word != b"box".as_slice() => {
            let why = if is_first(told) {
                "; the first line is to be: box KIND"
            } else {
                "; no such line in a box of this kind"
            };
            Flaw::Told(why)
        }
        Grammar::Handover if word != b"handover".as_slice() => {
            Flaw::Told("; this line has another place")
        }
        _ => form_of(told, grammar),
    }
}

/// Whether a line is the first that counts.
fn is_first(told: Told<'_>) -> bool {
    match lines(told.text).next() {
        Some(line) => line.number == told.number,
        None => false,
    }
}

/// The form of a line, and one that has it.
fn form_of(told: Told<'_>, grammar: Grammar) -> Flaw<'_> {
    match grammar.form_of(told.line) {
        Some(form) => Flaw::Form(form.form, form.example),
        None => Flaw::Told(""),
    }
}

/// Which line was repeated.
fn repeated_line(told: Told<'_>) -> Flaw<'_> {
    match line_before(told) {
        Some(before) => Flaw::Repeats(before),
        None => Flaw::RepeatsEarlier,
    }
}

/// The number of the first line that a later one repeats, as far as their words tell it.
fn line_before(told: Told<'_>) -> Option<u64> {
    for line in lines(told.text) {
        if line.number >= told.number {
            return None;
        }
        if is_in_way(line.bytes, told.line) {
            return Some(line.number);
        }
    }
    None
}

/// Whether a line of a box file may not stand alongside another: of one that may stand again, where both name one
/// backend, or one endpoint inside or one port outside by the same protocol.
fn is_in_way(line: &[u8], other: &[u8]) -> bool {
    if !shares(line, other, 0) {
        return false;
    }
    let word = first_word(line);
    if word == b"backend".as_slice() {
        shares(line, other, 1) && shares(line, other, 2)
    } else if word == b"static".as_slice() {
        let inside = shares(line, other, 2) && shares(line, other, 3);
        shares(line, other, 1) && (inside || shares(line, other, 4))
    } else {
        true
    }
}

/// Whether two lines have the same word at this place, or neither has one.
fn shares(line: &[u8], other: &[u8], place: usize) -> bool {
    word_or_none(line, place) == word_or_none(other, place)
}
