ghost use Rattle.std.specs.Prelude.{◌≡◌, ◌≢◌, ◌↔◌, IfOk, IfErr, None, false};
ghost use Rattle.command_words.specs.Printing.{asked_text};

use crate::request::{Request, read_request};
use crate::usage::{help, help_of, version};
use plain_text::{NoMemory, Text};
use std::alloc::Global;

/// Whether the words ask for a text that the program prints without running a command.
pub fn asks_text(words: &[Text]) -> bool
    ensures { (result ≡ false) ↔ (asked_text words.now ≡ None) }
{
    match read_request(words) {
        Request::Help | Request::HelpOf(_) | Request::Version => true,
        Request::Command => false,
    }
}

/// The text that the words ask for, if they ask for one.
pub fn read_text(alloc: Global, words: &[Text]) -> Result<Option<Text>, NoMemory>
    ensures text { IfOk result (λ text. text ≡ asked_text words.now) }
    ensures memory { IfErr result (λ _. asked_text words.now ≢ None) }
{
    let text = match read_request(words) {
        Request::Help => help(alloc)?,
        Request::HelpOf(topic) => Text::of(alloc, help_of(topic))?,
        Request::Version => Text::of(alloc, version())?,
        Request::Command => return Ok(None),
    };
    Ok(Some(text))
}
