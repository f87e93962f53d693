//! The word `-`: at the place of an input it stands for standard input, at that of a file that is written for standard
//! output. A file of that name is `./-`.
ghost use Rattle.std.specs.Prelude.{◌≡◌, ◌↔◌, ◌<◌, ◌≤◌, ◌⊎◌, ℕ, IfErr, IfOk, IfSome, IsTrue};
ghost use Rattle.std.specs.Prelude.{None, false, length, true};
ghost use Rattle.command_words.specs.Pipes.{ArePiped, ArePipePlaces, IsPiped, ReadsTwice};
ghost use Rattle.command_words.specs.Pipes.{WritesOutput, is_named, name_at, stream_at, word_at};

use crate::word_places::{WordPlaces, read_plain_places};
use job_commands::Status;
use plain_text::{NoMemory, Text};
use release_taps::count_pairs;
use std::alloc::Global;

/// Where the report stands.
#[derive(Clone, Copy, PartialEq, Eq)]
pub enum ReportOn {
    /// On standard output.
    Output,
    /// On standard error, since standard output is a file that is written.
    Errors,
}

/// Words in which the streams have their names.
#[derive(Drop)]
pub struct Piped {
    pub words: Vec<Text>,
    pub report: ReportOn,
}

/// Of which files a word is the name.
#[derive(Clone, Copy)]
enum Side {
    /// Of an input.
    Input,
    /// Of a file that is written.
    Written,
}

/// The words, with `/dev/stdin` or `/dev/stdout` in the place of each `-` that stands for a stream, and where the
/// report stands then. They are bad words where two inputs are standard input, which can be read once.
pub fn name_streams(alloc: Global, words: &[Text]) -> Result<Piped, Status>
    ensures piped { IfOk result
        (λ piped. ArePiped words.now piped.words.items piped.report) }
    ensures refused { IfErr result (λ status. (status ≡ Status.NoMemory)
        ⊎ ((status ≡ Status.BadWords) × ReadsTwice words.now)) }
{
    let places = read_pipe_places(words);
    if reads_twice(words, places) {
        return Err(Status::BadWords);
    }
    match copy_named(alloc, words, places) {
        Ok(named) => Ok(Piped {
            words: named,
            report: report_beside(words, places),
        }),
        Err(_) => Err(Status::NoMemory),
    }
}

/// Where the names of files stand. Unlike `read_places` it takes the name of a tap for one where another word is the
/// same one: a tap and an input may both be `-`.
fn read_pipe_places(words: &[Text]) -> WordPlaces
    ensures { ArePipePlaces words.now result }
{
    match count_pairs(words) {
        0 => read_plain_places(words),
        pairs => WordPlaces::after_taps(pairs),
    }
}

/// The words with the names of the streams.
fn copy_named(alloc: Global, words: &[Text], places: WordPlaces) -> Result<Vec<Text>, NoMemory>
    ensures count { IfOk result (λ named. length named.items ≡ length words.now) }
    ensures named { IfOk result (λ named. (place : ℕ) → place < length words.now
        → word_at named.items place ≡ name_at words.now places place) }
{
    let mut named = Vec::new(alloc);
    for place in 0..words.len() {
        let name = stream_name(places, place, words[place].as_str());
        named.push(Text::of(alloc, name)?)?;
    }
    Ok(named)
}

/// The name that a word at this place is or stands for.
fn stream_name(places: WordPlaces, place: usize, word: &str) -> &str
    ensures { result.now ≡ stream_at places place word.now }
{
    if word != "-" {
        return word;
    }
    if places.is_input(place) {
        return "/dev/stdin";
    }
    if places.is_written(place) {
        return "/dev/stdout";
    }
    word
}

/// Where the report stands beside the files of these words.
fn report_beside(words: &[Text], places: WordPlaces) -> ReportOn
    ensures errors { result ≡ ReportOn.Errors ↔ WritesOutput words.now places }
{
    match find_piped(words, places, Side::Written, 0) {
        Some(_) => ReportOn::Errors,
        None => ReportOn::Output,
    }
}

/// Whether two inputs are standard input.
fn reads_twice(words: &[Text], places: WordPlaces) -> bool
    ensures twice { result ≡ true → (one : ℕ) × (other : ℕ) × IsPiped words.now places Side.Input one
        × IsPiped words.now places Side.Input other × (one < other) }
    ensures once { result ≡ false → (one : ℕ) (other : ℕ) → IsPiped words.now places Side.Input one
        → IsPiped words.now places Side.Input other → one ≡ other }
{
    match find_piped(words, places, Side::Input, 0) {
        Some(first) => find_piped(words, places, Side::Input, first + 1).is_some(),
        None => false,
    }
}

/// The first place, from this one on, of a name of this kind that stands for a stream.
fn find_piped(words: &[Text], places: WordPlaces, side: Side, from: usize) -> Option<usize>
    ensures found { IfSome result
        (λ place. (from ≤ place) × IsPiped words.now places side place) }
    ensures first { IfSome result (λ place. (k : ℕ) → from ≤ k → k < place
        → ¬ IsPiped words.now places side k) }
    ensures none { result ≡ None → (k : ℕ) → from ≤ k → ¬ IsPiped words.now places side k }
{
    for place in from..words.len() {
        if is_piped(words, places, side, place) {
            return Some(place);
        }
    }
    None
}

/// Whether the word at this place stands for a stream.
fn is_piped(words: &[Text], places: WordPlaces, side: Side, place: usize) -> bool
    requires { place < length words.now }
    ensures { IsTrue result ↔ IsPiped words.now places side place }
{
    is_named(places, side, place) && words[place].as_str() == "-"
}

/// Whether the word at this place is a name of this kind.
fn is_named(places: WordPlaces, side: Side, place: usize) -> bool
    ensures { result ≡ is_named places side place }
{
    match side {
        Side::Input => places.is_input(place),
        Side::Written => places.is_written(place),
    }
}
