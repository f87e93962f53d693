ghost use Rattle.std.specs.Prelude.{◌≡◌};
ghost use Rattle.command_words.specs.Request.{request_after, request_of};

use crate::topic::{Topic, read_topic};
use plain_text::Text;

/// What the words of the command line ask for.
#[derive(Clone, Copy, PartialEq, Eq)]
pub enum Request {
    /// The whole help.
    Help,
    /// The part of the help that is about a command.
    HelpOf(Topic),
    Version,
    Command,
}

/// Help where the one and only word is `--help`, `-h` or `help`; the help of a command where `--help` or `-h` is the
/// second and last word, after its name, and the whole help where `--help` stands so after another word; the version
/// where the one and only word is `--version` or `-V`; and else a command.
pub fn read_request(words: &[Text]) -> Request
    ensures { result ≡ request_of words.now }
{
    match words {
        [word] => match word.as_str() {
            "--help" | "-h" | "help" => Request::Help,
            "--version" | "-V" => Request::Version,
            _ => Request::Command,
        },
        [name, word] => read_after(read_topic(name.as_str()), word.as_str()),
        _ => Request::Command,
    }
}

/// What a word asks for after the name of a command, or after another word.
fn read_after(topic: Option<Topic>, word: &str) -> Request
    ensures { result ≡ request_after topic word.now }
{
    match topic {
        Some(topic) => match word {
            "--help" | "-h" => Request::HelpOf(topic),
            _ => Request::Command,
        },
        None => match word {
            "--help" => Request::Help,
            _ => Request::Command,
        },
    }
}
