ghost use Rattle.std.specs.Prelude.{◌≡◌};
ghost use Rattle.script_text.specs.Table.{word_of, parts_of, forms};
ghost use Rattle.script_text.specs.Values.{event_from};

use line_tables::{MOST_VALUES, Part, kind_of};
use recovery_world::Event;

/// A form of a script's line: its first word, and what stands after it. `step` has two forms, without an answer and
/// with one.
#[derive(Clone, Copy, Debug, PartialEq, Eq)]
pub enum Form {
    Feed,
    Time,
    Step,
    Answered,
    Log,
    Out,
    Late,
    Cut,
    Snap,
    Store,
    Crash,
    Recover,
    Show,
    Settle,
    Flow,
    Auto,
}

/// The forms of lines with a third word.
static FORMS: [Form; 16] = [
    Form::Answered,
    Form::Step,
    Form::Feed,
    Form::Time,
    Form::Log,
    Form::Out,
    Form::Late,
    Form::Cut,
    Form::Snap,
    Form::Store,
    Form::Crash,
    Form::Recover,
    Form::Show,
    Form::Settle,
    Form::Flow,
    Form::Auto,
];

impl Form {
    /// The forms of lines that have a third word, or of those that have not.
    pub fn all(third: bool) -> &'static [Form]
        ensures { result.now ≡ forms third }
    {
        if third { &FORMS } else { &FORMS[1..] }
    }

    /// The first word of the line.
    pub fn word(self) -> &'static [u8]
        ensures { result.now ≡ word_of self }
    {
        match self {
            Form::Feed => b"feed",
            Form::Time => b"time",
            Form::Step | Form::Answered => b"step",
            Form::Log => b"log",
            Form::Out => b"out",
            Form::Late => b"late",
            Form::Cut => b"cut",
            Form::Snap => b"snap",
            Form::Store => b"store",
            Form::Crash => b"crash",
            Form::Recover => b"recover",
            Form::Show => b"show",
            Form::Settle => b"settle",
            Form::Flow => b"flow",
            Form::Auto => b"auto",
        }
    }

    /// What stands after the first word.
    pub fn parts(self) -> &'static [Part]
        ensures { result.now ≡ parts_of self }
    {
        match self {
            Form::Feed | Form::Time | Form::Step | Form::Show | Form::Flow => &[Part::Number],
            Form::Answered => &[Part::Number, Part::Equals, Part::Number],
            Form::Log | Form::Out | Form::Auto => &[Part::Number, Part::Number],
            Form::Late => &[Part::Number, Part::Kind, Part::Number, Part::Number],
            Form::Cut => &[Part::Kind, Part::Number, Part::Number, Part::Number],
            Form::Snap | Form::Store | Form::Crash | Form::Recover | Form::Settle => &[],
        }
    }

    /// The event of a line of this form, with these values after its first word.
    pub fn event(self, values: [u64; MOST_VALUES]) -> Event
        ensures { result ≡ event_from self values }
    {
        let [a, b, c, d] = values;
        match self {
            Form::Feed => Event::Feed(a),
            Form::Time => Event::Time(a),
            Form::Step => Event::Step {
                thread: a,
                answer: None,
            },
            Form::Answered => Event::Step {
                thread: a,
                answer: Some(c),
            },
            Form::Log => Event::Log {
                thread: a,
                number: b,
            },
            Form::Out => Event::Out {
                thread: a,
                number: b,
            },
            Form::Late => Event::Late {
                epoch: a,
                kind: kind_of(b),
                thread: c,
                number: d,
            },
            Form::Cut => Event::Cut {
                kind: kind_of(a),
                thread: b,
                number: c,
                length: d,
            },
            Form::Snap => Event::Snap,
            Form::Store => Event::Store,
            Form::Crash => Event::Crash,
            Form::Recover => Event::Recover,
            Form::Show => Event::Show(a),
            Form::Settle => Event::Settle,
            Form::Flow => Event::Flow(a),
            Form::Auto => Event::Auto { seed: a, n: b },
        }
    }
}
