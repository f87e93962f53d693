ghost use Rattle.std.specs.Prelude.{◌≡◌};
ghost use Rattle.plan_text.specs.Table.{word_of, parts_of};
ghost use Rattle.plan_text.specs.Values.{line_from};

use line_tables::{MOST_VALUES, Part, kind_of};
use plan_script::PlanLine;

/// A form of a plan's line: its first word, and what stands after it.
#[derive(Clone, Copy)]
pub enum Form {
    Feed,
    Limit,
    Take,
    Lose,
    Round,
    Snap,
    Store,
    Crash,
    Recover,
    Show,
    Settle,
}

impl Form {
    /// The first word of the line.
    pub fn word(self) -> &'static [u8]
        ensures { result.now ≡ word_of self }
    {
        match self {
            Form::Feed => b"feed",
            Form::Limit => b"limit",
            Form::Take => b"take",
            Form::Lose => b"lose",
            Form::Round => b"round",
            Form::Snap => b"snap",
            Form::Store => b"store",
            Form::Crash => b"crash",
            Form::Recover => b"recover",
            Form::Show => b"show",
            Form::Settle => b"settle",
        }
    }

    /// What stands after the first word.
    pub fn parts(self) -> &'static [Part]
        ensures { result.now ≡ parts_of self }
    {
        match self {
            Form::Feed | Form::Show => &[Part::Number],
            Form::Limit | Form::Take => &[Part::Number, Part::Number],
            Form::Lose => &[Part::Kind, Part::Number, Part::Number],
            Form::Round | Form::Snap | Form::Store | Form::Crash | Form::Recover | Form::Settle =>
                &[],
        }
    }

    /// What a line of this form says, with these values after its first word.
    pub fn line(self, values: [u64; MOST_VALUES]) -> PlanLine
        ensures { result ≡ line_from self values }
    {
        let [a, b, c, _] = values;
        match self {
            Form::Feed => PlanLine::Feed(a),
            Form::Limit => PlanLine::Limit {
                thread: a,
                moves: b,
            },
            Form::Take => PlanLine::Take {
                thread: a,
                frames: b,
            },
            Form::Lose => PlanLine::Lose {
                kind: kind_of(a),
                thread: b,
                number: c,
            },
            Form::Round => PlanLine::Round,
            Form::Snap => PlanLine::Snap,
            Form::Store => PlanLine::Store,
            Form::Crash => PlanLine::Crash,
            Form::Recover => PlanLine::Recover,
            Form::Show => PlanLine::Show(a),
            Form::Settle => PlanLine::Settle,
        }
    }
}
