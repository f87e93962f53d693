ghost use Rattle.std.specs.Prelude.{◌≡◌, ◌++◌, codes, IfOk, OnOk};
ghost use Rattle.std.specs.String.{string_bytes};
ghost use Rattle.plain_text.specs.NumberedWords.{one};
ghost use Rattle.recovery_world.specs.Files.{given_words, event_words};
ghost use Rattle.line_tables.specs.Parts.{AreNumbers};
ghost use Rattle.script_text.specs.Scripts.{values_of};

use line_tables::{put_one, put_two, put_word, word_of_kind};
use plain_text::{NoMemory, Text};
use recovery_world::Event;
use std::alloc::Global;

/// The line of an event, without the line feed: one space between words, and no leading zeros.
pub fn put_event(alloc: Global, event: &Event) -> Result<Text, NoMemory>
    ensures line { IfOk result (λ text. text ≡ event_words event.now) }
    ensures fits { AreNumbers (values_of event.now) }
{
    let mut text = String::new(alloc);
    write_event(&mut text, *event)?;
    Text::of(alloc, text.as_str())
}

/// Appends the line of an event, without the line feed.
pub fn write_event(text: &mut String, event: Event) -> Result<(), NoMemory>
    ensures line { OnOk result
        (string_bytes text.new ≡ string_bytes text.old ++ event_words event) }
    ensures fits { AreNumbers (values_of event) }
{
    match event {
        Event::Feed(n) => put_one(text, "feed ", n),
        Event::Time(n) => put_one(text, "time ", n),
        Event::Step { thread, answer } => put_step(text, thread, answer),
        Event::Log { thread, number } => put_two(text, "log ", thread, " ", number),
        Event::Out { thread, number } => put_two(text, "out ", thread, " ", number),
        Event::Late {
            epoch,
            kind,
            thread,
            number,
        } => {
            put_one(text, "late ", epoch)?;
            text.push_str(" ")?;
            put_two(text, word_of_kind(kind), thread, " ", number)
        }
        Event::Cut {
            kind,
            thread,
            number,
            length,
        } => {
            text.push_str("cut ")?;
            put_two(text, word_of_kind(kind), thread, " ", number)?;
            put_one(text, " ", length)
        }
        Event::Snap => put_word(text, "snap"),
        Event::Store => put_word(text, "store"),
        Event::Crash => put_word(text, "crash"),
        Event::Recover => put_word(text, "recover"),
        Event::Show(v) => put_one(text, "show ", v),
        Event::Settle => put_word(text, "settle"),
        Event::Flow(n) => put_one(text, "flow ", n),
        Event::Auto { seed, n } => put_two(text, "auto ", seed, " ", n),
    }
}

fn put_step(text: &mut String, thread: u64, answer: Option<u64>) -> Result<(), NoMemory>
    ensures { OnOk result (string_bytes text.new
        ≡ string_bytes text.old ++ one (codes "step ") thread ++ given_words answer) }
{
    put_one(text, "step ", thread)?;
    match answer {
        None => Ok(()),
        Some(answer) => put_one(text, " = ", answer),
    }
}
