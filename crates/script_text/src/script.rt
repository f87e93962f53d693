ghost use Rattle.std.specs.Prelude.{◌≡◌, ◌≤◌, IfOk, IfErr, OnOk};
ghost use Rattle.plain_text.specs.declared.limit.TheConstants.{MOST_EVENTS as most_events};
ghost use Rattle.script_text.specs.Scripts.{IsScript, IsRefused, count_of};
ghost use Rattle.script_text.specs.Scripts.{FitWords, script_text, weight};

use crate::form::Form;
use crate::written::put_event;
use line_tables::{LineTable, MOST_VALUES, Part, read_thing};
use plain_text::{
    Bytes, LineCause, LineFile, MOST_EVENTS, NoMemory, ReadError, Sequence, WrittenFile, put_lines,
    read_lines,
};
use recovery_world::Event;
use std::alloc::Global;
use std::mem::size_of;

/// The events of a script, in order.
pub type Events = Sequence<Event>;

// An event takes at most 48 bytes.
const _: () = prove!(size_of::<Event>() <= 48);

/// Reads a script: one event on each line that counts. Its time and memory grow with the length of the text, and no
/// faster.
///
/// It answers `TooMany` where the events of the lines before the first faulty one, or of all lines, pass `MOST_EVENTS`;
/// there `auto S N` counts as N events, and any other as one. Else it answers `Fault` with the first faulty line, if
/// there is one.
pub fn read_script(alloc: Global, text: &[u8]) -> Result<Events, ReadError>
    ensures script { IfOk result (λ events. IsScript text.now events) }
    ensures few { IfOk result (λ events. count_of events ≤ most_events) }
    ensures refused { IfErr result (IsRefused text.now) }
{
    read_lines::<Scripts>(alloc, text, u64::from(MOST_EVENTS))
}

/// Scripts as files of lines.
pub struct Scripts;

impl LineTable for Scripts {
    ghost use Rattle.script_text.specs.Scripts.{script_table};

    type Form = Form;

    type Thing = Event;

    ghost table = { script_table };

    fn forms(third: bool) -> &'static [Form] {
        Form::all(third)
    }

    fn word(form: Form) -> &'static [u8] {
        form.word()
    }

    fn parts(form: Form) -> &'static [Part] {
        form.parts()
    }

    fn thing(form: Form, values: [u64; MOST_VALUES]) -> Event {
        form.event(values)
    }
}

impl LineFile for Scripts {
    ghost use Rattle.script_text.specs.Scripts.{script_form};

    type Thing = Event;

    ghost form = { script_form };

    fn read_line(line: &[u8]) -> Result<Event, LineCause> {
        read_thing::<Scripts>(line)
    }

    fn weight(event: &Event) -> u64 {
        weight_of(event)
    }
}

impl WrittenFile for Scripts {
    ghost use Rattle.recovery_world.specs.Files.{event_words};
    ghost use Rattle.script_text.specs.Scripts.{FitsWords};

    type Thing = Event;

    ghost line = { event_words };

    ghost fits = { FitsWords };

    fn put_line(alloc: Global, text: &mut Bytes, event: &Event) -> Result<(), NoMemory> {
        let line = put_event(alloc, event)?;
        text.extend(line.as_str().as_bytes())
    }
}

/// The text of a script: the line of each event, in order, each with a line feed. Its numbers fit their lines, so the
/// text is read back.
pub fn put_script(alloc: Global, events: &[Event]) -> Result<Bytes, NoMemory>
    ensures text { IfOk result (λ text. text ≡ script_text events.now) }
    ensures fit_words { OnOk result (FitWords events.now) }
{
    put_lines::<Scripts>(alloc, events)
}

/// As how many events an event counts.
fn weight_of(event: &Event) -> u64
    ensures { result ≡ weight event.now }
{
    match event {
        Event::Auto { n, .. } => *n,
        _ => 1,
    }
}
