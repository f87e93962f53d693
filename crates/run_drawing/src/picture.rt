ghost use Rattle.std.specs.Prelude.{◌≡◌, ◌++◌, ◌<◌, IfOk, OnOk};
ghost use Rattle.svg_text.specs.Drawing.{drawing_text};
ghost use Rattle.run_drawing.specs.Picture.{are_short as are_all_short, drawn_elements};
ghost use Rattle.run_drawing.specs.Picture.{frame_elements, high_of as high_of_all};
ghost use Rattle.run_drawing.specs.Picture.{is_small as is_small_run};
ghost use Rattle.run_drawing.specs.Picture.{logger_lanes, picture, run_elements, thread_lanes};
ghost use Rattle.run_drawing.specs.Picture.{wide_of as wide_of_all};
ghost use Rattle.run_drawing.specs.Places.{columns};

use crate::Note;
use crate::events::put_events;
use crate::ground::{put_bands, put_logger_lanes, put_thread_lanes, width, words};
use crate::legend::put_legend;
use crate::places::{advance, left, top};
use crate::scales::overview_high;
use crate::time_chart::put_overview;
use plain_text::{Bytes, NoMemory};
use std::alloc::Global;
use svg_text::{Class, Drawing, Element, Elements, Point, Shape, put_drawing};

/// How many columns the events have.
fn count_columns(notes: &[Note]) -> Result<u64, NoMemory>
    ensures { IfOk result (λ many. many ≡ columns 0 notes.now) }
{
    let mut many = 0;
    let mut before = 0;
    for note in notes {
        many = advance(many, width(before, note)?)?;
        before = note.released;
    }
    Ok(many)
}

/// Whether no master makes too many moves for a picture of each.
fn are_short(notes: &[Note]) -> bool
    ensures { result ≡ are_all_short notes.now }
{
    notes.iter().all(|note| note.moves <= 400)
}

/// Appends the paper, the title and the last line of the report.
fn put_frame(
    alloc: Global,
    out: &mut Elements,
    wide: u32,
    high: u32,
    title: &[u8],
    last: &[u8],
) -> Result<(), NoMemory>
    ensures { OnOk result (out.new ≡ out.old ++ frame_elements wide high title.now last.now) }
{
    out.push(Element {
        class: Class::Paper,
        title: None,
        shape: Shape::Rectangle {
            corner: Point { x: 0, y: 0 },
            width: wide,
            height: high,
        },
    })?;
    out.push(words(alloc, Class::Heading, Point { x: 10, y: 24 }, title)?)?;
    out.push(words(alloc, Class::Label, Point { x: 10, y: 44 }, last)?)
}

/// Appends a run, move by move.
fn put_run(
    alloc: Global,
    out: &mut Elements,
    many: u64,
    threads: u64,
    notes: &[Note],
) -> Result<(), NoMemory>
    requires { threads < 1000 }
    ensures { OnOk result (out.new ≡ out.old ++ run_elements many threads notes.now) }
{
    put_bands(alloc, out, threads, notes)?;
    put_lanes(alloc, out, many, threads)?;
    put_events(alloc, out, threads, notes)?;
    put_legend(alloc, out, threads + 2, threads + 3)
}

/// Appends all lanes.
fn put_lanes(alloc: Global, out: &mut Elements, many: u64, threads: u64) -> Result<(), NoMemory>
    requires { threads < 1000 }
    ensures { OnOk result
        (out.new ≡ out.old ++ (thread_lanes many 0 threads ++ logger_lanes many threads)) }
{
    put_thread_lanes(alloc, out, many, threads)?;
    put_logger_lanes(alloc, out, many, threads)
}

/// Whether a run, which has so many columns, is drawn move by move.
fn is_small(many: u64, notes: &[Note]) -> bool
    requires { many ≡ columns 0 notes.now }
    ensures { result ≡ is_small_run notes.now }
{
    are_short(notes) && many <= 400
}

/// How wide the picture of a run is, which has so many columns.
fn wide_of(many: u64, notes: &[Note]) -> u32
    requires { many ≡ columns 0 notes.now }
    ensures { result ≡ wide_of_all notes.now }
{
    if is_small(many, notes) {
        1300u32.max(left(many) + 40)
    } else {
        1300
    }
}

/// How high the picture of a run is, which has so many columns.
fn high_of(many: u64, threads: u64, notes: &[Note]) -> u32
    requires columns { many ≡ columns 0 notes.now }
    requires threads { threads < 1000 }
    ensures { result ≡ high_of_all threads notes.now }
{
    if is_small(many, notes) {
        300u32.max(top(threads + 4) + 20)
    } else {
        overview_high(threads)
    }
}

/// Appends what is drawn of a run, which has so many columns.
fn put_drawn(
    alloc: Global,
    out: &mut Elements,
    many: u64,
    threads: u64,
    times: &[u64],
    notes: &[Note],
) -> Result<(), NoMemory>
    requires columns { many ≡ columns 0 notes.now }
    requires threads { threads < 1000 }
    ensures { OnOk result (out.new ≡ out.old ++ drawn_elements threads times.now notes.now) }
{
    if is_small(many, notes) {
        return put_run(alloc, out, many, threads, notes);
    }
    put_overview(alloc, out, threads, times, notes)
}

/// All that is drawn of a run, which has so many columns.
fn elements_of(
    alloc: Global,
    title: &[u8],
    last: &[u8],
    many: u64,
    threads: u64,
    times: &[u64],
    notes: &[Note],
) -> Result<Elements, NoMemory>
    requires columns { many ≡ columns 0 notes.now }
    requires threads { threads < 1000 }
    ensures { IfOk result (λ elements. elements
        ≡ frame_elements (wide_of_all notes.now) (high_of_all threads notes.now) title.now last.now
        ++ drawn_elements threads times.now notes.now) }
{
    let wide = wide_of(many, notes);
    let high = high_of(many, threads, notes);
    let mut elements = Elements::new(alloc);
    put_frame(alloc, &mut elements, wide, high, title, last)?;
    put_drawn(alloc, &mut elements, many, threads, times, notes)?;
    Ok(elements)
}

/// The picture of a run, as SVG: with this title, and this last line of its report, of so many threads. The times are
/// those of the packets of the capture, in microseconds.
pub fn put_picture(
    alloc: Global,
    title: &[u8],
    last: &[u8],
    threads: u64,
    times: &[u64],
    notes: &[Note],
) -> Result<Bytes, NoMemory>
    requires { threads < 1000 }
    ensures { IfOk result (λ text.
        text ≡ drawing_text (picture title.now last.now threads times.now notes.now)) }
{
    let many = count_columns(notes)?;
    let drawing = Drawing {
        width: wide_of(many, notes),
        height: high_of(many, threads, notes),
        title: Bytes::of(alloc, title)?,
        elements: elements_of(alloc, title, last, many, threads, times, notes)?,
    };
    put_drawing(alloc, &drawing)
}
