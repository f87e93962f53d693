ghost use Rattle.std.specs.Prelude.{◌≡◌, ◌+◌, ◌*◌, ◌<◌, ◌^◌, length};
ghost use Rattle.job_commands.specs.Words.{asked, asked_of, inputs_of};
ghost use Rattle.packet_taps.specs.Words.{watch_names};
ghost use Rattle.command_words.specs.WordPlaces.{ArePlaces, IsLine, is_file, is_input, is_written};
ghost use Rattle.command_words.specs.WordPlaces.{outputs_of, plain_places, tapped_places};

use job_commands::{Command, read_command};
use packet_taps::read_watch_words;
use plain_text::Text;
use release_taps::{Split, run_line, split_taps};

/// Where names of files stand among the words. Places are counted from 0.
#[derive(Clone, Copy)]
pub struct WordPlaces {
    /// Where the command stands: after the pairs of `tap` and a name.
    pub start: usize,
    /// How many names of inputs come after the command.
    pub inputs: usize,
    /// From where on all words are names of outputs.
    pub outputs_from: usize,
}

impl WordPlaces {
    /// Where the names stand after so many pairs of `tap` and a name: a run has three inputs, and all its further words
    /// are names of outputs.
    pub fn after_taps(pairs: usize) -> Self
        requires { 2 * pairs + 4 < 2 ^ 64 }
        ensures { result ≡ tapped_places pairs }
    {
        WordPlaces {
            start: 2 * pairs,
            inputs: 3,
            outputs_from: 2 * pairs + 4,
        }
    }

    /// Whether the word at this place is the name of a file that is written: of a tap or of an output.
    pub fn is_written(self, place: usize) -> bool
        ensures { result ≡ is_written self place }
    {
        (place < self.start && place % 2 == 1) || self.outputs_from <= place
    }

    /// Whether it is the name of an input.
    pub fn is_input(self, place: usize) -> bool
        ensures { result ≡ is_input self place }
    {
        self.start < place && place - self.start <= self.inputs
    }

    /// Whether it is the name of a file.
    pub fn is_file(self, place: usize) -> bool
        ensures { result ≡ is_file self place }
    {
        self.is_written(place) || self.is_input(place)
    }
}

/// How many names of inputs and of outputs the words of a command have.
#[derive(Clone, Copy)]
struct Counts {
    inputs: usize,
    outputs: usize,
}

/// Where the names stand among these words. Words that ask for nothing have none.
pub fn read_places(words: &[Text]) -> WordPlaces
    ensures { ArePlaces words.now result }
{
    match split_taps(words) {
        Split::Taps { pairs, name } => WordPlaces {
            start: 2 * pairs,
            inputs: 3,
            outputs_from: name,
        },
        Split::Plain | Split::Bad => read_plain_places(words),
    }
}

/// The same of words without taps.
pub fn read_plain_places(words: &[Text]) -> WordPlaces
    ensures { result ≡ plain_places (length words.now) (asked words.now) (watch_names words.now) }
{
    let Some(command) = read_command(words) else {
        return WordPlaces {
            start: 0,
            inputs: usize::from(read_watch_words(words).is_some()),
            outputs_from: words.len(),
        };
    };
    let counts = counts_of(command);
    WordPlaces {
        start: 0,
        inputs: counts.inputs,
        outputs_from: words.len().saturating_sub(counts.outputs),
    }
}

fn counts_of(command: Command<'_>) -> Counts
    ensures inputs { result.inputs ≡ length (inputs_of (asked_of command.entry)) }
    ensures outputs { result.outputs ≡ length (outputs_of (asked_of command.entry)) }
{
    let (inputs, outputs) = match command {
        Command::Run(_) => (3, 2),
        Command::Live(_) => (3, 3),
        Command::Make(_) => (0, 1),
        Command::Play(_) => (3, 1),
        Command::Check(_) => (4, 0),
        Command::Drill(_) => (2, 2),
        Command::Trace(_) => (3, 1),
        Command::Picture(_) => (3, 1),
        Command::Chain(_) => (4, 4),
        Command::Hand(_) => (3, 2),
        Command::Resume(_) => (4, 2),
    };
    Counts { inputs, outputs }
}

/// The words of the command, which stand after those of the taps.
pub fn read_line(words: &[Text]) -> &[Text]
    ensures { IsLine words.now result.now }
{
    match split_taps(words) {
        Split::Taps { pairs, .. } => run_line(words, pairs),
        Split::Plain | Split::Bad => words,
    }
}
