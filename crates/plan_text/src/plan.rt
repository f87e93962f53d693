ghost use Rattle.std.specs.Prelude.{◌≡◌, ◌≤◌, IfOk, IfErr, OnOk};
ghost use Rattle.plain_text.specs.declared.limit.TheConstants.{MOST_EVENTS as most_events};
ghost use Rattle.plan_text.specs.Plans.{IsPlan, IsRefused, FitWords, count_of, plan_text};

use crate::form::Form;
use crate::written::put_plan_line;
use line_tables::{LineTable, MOST_VALUES, Part, read_thing};
use plain_text::{
    Bytes, LineCause, LineFile, MOST_EVENTS, NoMemory, ReadError, WrittenFile, put_lines,
    read_lines,
};
use plan_script::{Plan, PlanLine};
use std::alloc::Global;

/// Reads a plan: one thing on each line that counts. Its time and memory grow with the length of the text, and no
/// faster.
///
/// It answers `TooMany` where the lines before the first faulty one, or all lines, are more than `MOST_EVENTS`. Else it
/// answers `Fault` with the first faulty line, if there is one.
pub fn read_plan(alloc: Global, text: &[u8]) -> Result<Plan, ReadError>
    ensures plan { IfOk result (λ lines. IsPlan text.now lines) }
    ensures few { IfOk result (λ lines. count_of lines ≤ most_events) }
    ensures refused { IfErr result (IsRefused text.now) }
{
    read_lines::<Plans>(alloc, text, u64::from(MOST_EVENTS))
}

/// Plans as files of lines.
pub struct Plans;

/// The forms of lines, whether they have a third word or not.
static FORMS: [Form; 11] = [
    Form::Feed,
    Form::Limit,
    Form::Take,
    Form::Lose,
    Form::Round,
    Form::Snap,
    Form::Store,
    Form::Crash,
    Form::Recover,
    Form::Show,
    Form::Settle,
];

impl LineTable for Plans {
    ghost use Rattle.plan_text.specs.Plans.{plan_table};

    type Form = Form;

    type Thing = PlanLine;

    ghost table = { plan_table };

    fn forms(_: bool) -> &'static [Form] {
        &FORMS
    }

    fn word(form: Form) -> &'static [u8] {
        form.word()
    }

    fn parts(form: Form) -> &'static [Part] {
        form.parts()
    }

    fn thing(form: Form, values: [u64; MOST_VALUES]) -> PlanLine {
        form.line(values)
    }
}

impl LineFile for Plans {
    ghost use Rattle.plan_text.specs.Plans.{plan_form};

    type Thing = PlanLine;

    ghost form = { plan_form };

    fn read_line(line: &[u8]) -> Result<PlanLine, LineCause> {
        read_thing::<Plans>(line)
    }

    fn weight(_: &PlanLine) -> u64 {
        1
    }
}

impl WrittenFile for Plans {
    ghost use Rattle.plan_text.specs.Plans.{FitsWords, plan_words};

    type Thing = PlanLine;

    ghost line = { plan_words };

    ghost fits = { FitsWords };

    fn put_line(alloc: Global, text: &mut Bytes, line: &PlanLine) -> Result<(), NoMemory> {
        let line = put_plan_line(alloc, line)?;
        text.extend(line.as_str().as_bytes())
    }
}

/// The text of a plan: its lines, in order, each with a line feed. Its numbers fit their lines, so the text is read
/// back.
pub fn put_plan(alloc: Global, lines: &[PlanLine]) -> Result<Bytes, NoMemory>
    ensures text { IfOk result (λ text. text ≡ plan_text lines.now) }
    ensures fit_words { OnOk result (FitWords lines.now) }
{
    put_lines::<Plans>(alloc, lines)
}
