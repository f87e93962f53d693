use super::advice::{Advice, FileAdvice};
use super::captures::passes_limit;
use super::files::read_again;
use super::shown::Shown;
use super::word_parts::{first_word, word_or_none};
use crate::faults::{capture, handover, plan, schedule, script};
use crate::word_places::{read_line, read_places};
use job_commands::{Command, read_command};
use packet_taps::read_watch_words;
use plain_text::{
    Limit, MOST_EVENTS, MOST_FILE_BYTES, MOST_MOVES, MOST_OUTPUT_BYTES, MOST_PACKETS, Text, lines,
    read_u64,
};
use std::path::Path;
use std::rt::Files;

/// Which limit was passed, by which file, and what can be done.
pub fn advise<'a, R: AllocGlobal + Files>(
    rt: &R,
    words: &'a [Text],
    limit: Limit,
) -> Option<Advice<'a>> {
    match limit {
        Limit::File => match long_file(rt, words) {
            Some(advice) => Some(advice),
            None => Some(Advice::Most(bytes_of(words), MOST_FILE_BYTES, "bytes")),
        },
        Limit::Packets => {
            let name = long_capture(rt, read_line(words))?;
            let name = Shown::name(name.as_str());
            Some(Advice::File(FileAdvice::Packets(name, MOST_PACKETS)))
        }
        Limit::Events => advise_events(rt, read_line(words)),
        Limit::Moves => Some(Advice::Most(
            "the run would pass",
            u64::from(MOST_MOVES),
            "moves, those of recoveries included",
        )),
        Limit::OutputBytes => Some(Advice::Most(
            "the run would send out more than",
            u64::from(MOST_OUTPUT_BYTES),
            "bytes, with those that are sent again",
        )),
    }
}

/// The first input that has too many bytes.
fn long_file<'a, R: Files>(rt: &R, words: &'a [Text]) -> Option<Advice<'a>> {
    let places = read_places(words);
    for place in 0..words.len() {
        if places.is_input(place) {
            let name = words[place].as_str();
            if let Some(count) = too_many_bytes(rt, name) {
                let name = Shown::name(name);
                return Some(Advice::File(FileAdvice::Bytes(name, count, MOST_FILE_BYTES)));
            }
        }
    }
    None
}

/// How many bytes a file has, if they are too many.
fn too_many_bytes<R: Files>(rt: &R, name: &str) -> Option<u64> {
    match Path::new(name).metadata(rt) {
        Ok(about) if about.is_file() && about.len() > MOST_FILE_BYTES => Some(about.len()),
        _ => None,
    }
}

/// What would have too many bytes, where no input has.
fn bytes_of(words: &[Text]) -> &'static str {
    match read_command(read_line(words)) {
        Some(Command::Live(_)) => { "the script of the run, or an input, would have more than" }
        Some(Command::Hand(_)) => { "the text of the handover, or an input, would have more than" }
        _ => "an input has more than",
    }
}

/// The capture that has too many packets: that of `check` which was released, if its other one has not.
fn long_capture<'a, R: AllocGlobal + Files>(rt: &R, line: &'a [Text]) -> Option<&'a Text> {
    match read_command(line) {
        Some(Command::Check(names)) => {
            if passes_limit(rt, names.files.capture) {
                Some(names.files.capture)
            } else {
                Some(names.released)
            }
        }
        Some(command) => capture(command),
        None => Some(read_watch_words(line)?.capture),
    }
}

/// Which text has too many lines or events, or that the run would.
fn advise_events<'a, R: AllocGlobal + Files>(rt: &R, line: &'a [Text]) -> Option<Advice<'a>> {
    let command = read_command(line)?;
    for name in [
        handover(command),
        script(command),
        plan(command),
        schedule(command),
    ] {
        if let Some(name) = name {
            let count = count_again(rt, name);
            if count > u64::from(MOST_EVENTS) {
                let name = Shown::name(name.as_str());
                return Some(Advice::File(FileAdvice::Events(name, count, MOST_EVENTS)));
            }
        }
    }
    let most = u64::from(MOST_EVENTS);
    match command {
        Command::Live(_) => Some(Advice::Most(
            "the script of the run would have more than",
            most,
            "events",
        )),
        Command::Hand(_) => Some(Advice::Most(
            "the text of the handover would have more than",
            most,
            "lines",
        )),
        _ => Some(Advice::Most("an input has more than", most, "events")),
    }
}

/// As how many events the lines of a file count, if it can be read again.
fn count_again<R: AllocGlobal + Files>(rt: &R, name: &Text) -> u64 {
    match read_again(rt, name) {
        Some(text) => count_events(&text),
        None => 0,
    }
}

/// As how many events the lines of a text count.
fn count_events(text: &[u8]) -> u64 {
    let mut count: u64 = 0;
    for line in lines(text) {
        count = count.saturating_add(weight(line.bytes));
    }
    count
}

/// As how many events a line counts: `auto S N` as N, of a chain too.
fn weight(line: &[u8]) -> u64 {
    let word = first_word(line);
    let place = if word == b"1".as_slice() || word == b"2".as_slice() {
        1
    } else {
        0
    };
    if word_or_none(line, place) == b"auto".as_slice() {
        read_u64(word_or_none(line, place + 2)).unwrap_or(1)
    } else {
        1
    }
}
