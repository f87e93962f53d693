ghost use Rattle.std.specs.Prelude.{◌≡◌, ◌++◌, IfOk, OnOk};
ghost use Rattle.std.specs.String.{string_bytes};
ghost use Rattle.line_tables.specs.Parts.{AreNumbers};
ghost use Rattle.plan_text.specs.Plans.{plan_words};
ghost use Rattle.plan_text.specs.Values.{values_of};

use line_tables::{put_one, put_two, put_word, word_of_kind};
use plain_text::{NoMemory, Text};
use plan_script::PlanLine;
use std::alloc::Global;

/// A line of a plan, without the line feed: one space between words, and no leading zeros.
pub fn put_plan_line(alloc: Global, line: &PlanLine) -> Result<Text, NoMemory>
    ensures line { IfOk result (λ text. text ≡ plan_words line.now) }
    ensures fits { AreNumbers (values_of line.now) }
{
    let mut text = String::new(alloc);
    write_line(&mut text, *line)?;
    Text::of(alloc, text.as_str())
}

/// Appends a line of a plan, without the line feed.
fn write_line(text: &mut String, line: PlanLine) -> Result<(), NoMemory>
    ensures line { OnOk result
        (string_bytes text.new ≡ string_bytes text.old ++ plan_words line) }
    ensures fits { AreNumbers (values_of line) }
{
    match line {
        PlanLine::Feed(n) => put_one(text, "feed ", n),
        PlanLine::Limit { thread, moves } => put_two(text, "limit ", thread, " ", moves),
        PlanLine::Take { thread, frames } => put_two(text, "take ", thread, " ", frames),
        PlanLine::Lose {
            kind,
            thread,
            number,
        } => {
            text.push_str("lose ")?;
            put_two(text, word_of_kind(kind), thread, " ", number)
        }
        PlanLine::Round => put_word(text, "round"),
        PlanLine::Snap => put_word(text, "snap"),
        PlanLine::Store => put_word(text, "store"),
        PlanLine::Crash => put_word(text, "crash"),
        PlanLine::Recover => put_word(text, "recover"),
        PlanLine::Show(var) => put_one(text, "show ", var),
        PlanLine::Settle => put_word(text, "settle"),
    }
}
