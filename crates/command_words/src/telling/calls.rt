use super::advice::Advice;
use super::nearest::nearest;
use super::shown::Shown;
use crate::topic::{Topic, read_topic};
use crate::usage::help_of;
use crate::word_places::WordPlaces;
use plain_text::Text;

/// The names of the commands.
const COMMANDS: [&str; 13] = [
    "run", "live", "drill", "trace", "picture", "chain", "hand", "resume", "tap", "play", "check",
    "make", "watch",
];

/// How the command is called whose first word stands there, or the one that is nearest to it.
pub fn advise(words: &[Text]) -> Advice<'_> {
    let Some(word) = words.first() else {
        return Advice::Usage("ftmb COMMAND ..; ftmb --help tells the commands");
    };
    let word = word.as_str();
    if let Some(topic) = read_topic(word) {
        return advise_call(words, topic);
    }
    let shown = Shown::name(word);
    match topic_near(word) {
        Some(topic) => Advice::Meant(shown, usage_of(topic)),
        None => Advice::NoCommand(shown),
    }
}

/// How a command is called; or which name an output and another file have, where its words are as many as they are to
/// be.
fn advise_call(words: &[Text], topic: Topic) -> Advice<'_> {
    match same_name(words) {
        Some(name) => Advice::OneFile(Shown::name(name), Shown::name(name)),
        None => Advice::Usage(usage_of(topic)),
    }
}

/// The command whose name was meant.
fn topic_near(word: &str) -> Option<Topic> {
    read_topic(nearest(word.as_bytes(), &COMMANDS)?)
}

/// How a command is called: the first line of its help; of taps, which have two, both in one.
fn usage_of(topic: Topic) -> &'static str {
    match topic {
        Topic::Tap => "ftmb tap NAME [tap NAME] .. run .. or live ..",
        _ => {
            let help = help_of(topic);
            match help.split_once("\n") {
                Some((line, _)) => line,
                None => help,
            }
        }
    }
}

/// The first name that an output has and another file of the command, too.
fn same_name(words: &[Text]) -> Option<&str> {
    let places = places_of(words)?;
    for written in 0..words.len() {
        if places.is_written(written) && has_again(words, places, written) {
            return Some(words[written].as_str());
        }
    }
    None
}

/// Whether another file of the command has the name at this place.
fn has_again(words: &[Text], places: WordPlaces, written: usize) -> bool {
    let Some(name) = words.get(written) else {
        return false;
    };
    for other in 0..words.len() {
        if other != written && places.is_file(other) && words[other].as_str() == name.as_str() {
            return true;
        }
    }
    false
}

/// Where the names of a command would stand, if its words are as many as they are to be.
fn places_of(words: &[Text]) -> Option<WordPlaces> {
    let start = start_of(words)?;
    let (count, inputs, outputs) = counts_of(read_topic(words.get(start)?.as_str())?);
    if words.len().checked_sub(start)? != count {
        return None;
    }
    Some(WordPlaces {
        start,
        inputs,
        outputs_from: words.len().saturating_sub(outputs),
    })
}

/// How many words a command has, how many names of inputs stand after the first, and how many of outputs stand last.
/// Those of taps may have any number of words.
fn counts_of(topic: Topic) -> (usize, usize, usize) {
    match topic {
        Topic::Run | Topic::Hand => (6, 3, 2),
        Topic::Live => (7, 3, 3),
        Topic::Drill => (6, 2, 2),
        Topic::Trace | Topic::Picture | Topic::Play => (5, 3, 1),
        Topic::Chain => (9, 4, 4),
        Topic::Resume => (7, 4, 2),
        Topic::Tap => (0, 0, 0),
        Topic::Check => (5, 4, 0),
        Topic::Make => (4, 0, 1),
        Topic::Watch => (4, 1, 0),
    }
}

/// Where the command stands, after pairs of `tap` and a name.
fn start_of(words: &[Text]) -> Option<usize> {
    for place in 0..words.len() {
        if place % 2 == 0 && words[place].as_str() != "tap" {
            return Some(place);
        }
    }
    None
}
