ghost use Rattle.std.specs.Prelude.{◌≡◌, ◌++◌, ◌<◌, IfOk, OnOk, codes, decimal};
ghost use Rattle.run_drawing.specs.Picture.{band_class as band_for, band_of, bands_from};
ghost use Rattle.run_drawing.specs.Picture.{lane_elements, logger_lanes, thread_lanes, words_at};
ghost use Rattle.run_drawing.specs.Places.{width as width_of};
ghost use Rattle.run_drawing.specs.Slices.{number_at};

use crate::Note;
use crate::marks::put_named;
use crate::places::{advance, in_cell, top};
use plain_text::{Bytes, NoMemory, put_u64};
use std::alloc::Global;
use svg_text::{Class, Element, Elements, Point, Shape};

/// How many columns an event has, before which so many outputs were released.
pub fn width(before: u64, note: &Note) -> Result<u64, NoMemory>
    ensures { IfOk result (λ many. many ≡ width_of before note.now) }
{
    let released = note.released.saturating_sub(before);
    let many = advance(note.made.len() as u64, released)?;
    Ok(1u64.max(many))
}

/// The class of the ground of an epoch, where the master is up or down.
fn band_class(up: bool, epoch: u32) -> Class
    ensures { result ≡ band_for up epoch }
{
    if !up {
        return Class::Paper;
    }
    if epoch % 2 == 1 {
        Class::OtherBand
    } else {
        Class::Band
    }
}

/// The ground of an event.
fn band(
    alloc: Global,
    threads: u64,
    column: u64,
    before: u64,
    note: &Note,
) -> Result<Element, NoMemory>
    requires { threads < 1000 }
    ensures { IfOk result (λ element. element ≡ band_of threads column before note.now) }
{
    let mut title = Bytes::new(alloc);
    put_named(&mut title, b"epoch ", u64::from(note.epoch))?;
    let columns = width(before, note)?.min(10000) as u32;
    let lanes = (threads + 2).min(100) as u32;
    Ok(Element {
        class: band_class(note.up, note.epoch),
        title: Some(title),
        shape: Shape::Rectangle {
            corner: in_cell(column, 0, 0, 0),
            width: 24 * columns,
            height: 40 * lanes,
        },
    })
}

/// Appends the ground of the events.
pub fn put_bands(
    alloc: Global,
    out: &mut Elements,
    threads: u64,
    notes: &[Note],
) -> Result<(), NoMemory>
    requires { threads < 1000 }
    ensures { OnOk result (out.new ≡ out.old ++ bands_from threads 0 0 notes.now) }
{
    let mut column = 0;
    let mut before = 0;
    for note in notes {
        out.push(band(alloc, threads, column, before, note)?)?;
        column = advance(column, width(before, note)?)?;
        before = note.released;
    }
    Ok(())
}

/// Words at a place.
pub fn words(alloc: Global, class: Class, at: Point, text: &[u8]) -> Result<Element, NoMemory>
    ensures { IfOk result (λ element. element ≡ words_at class at text.now) }
{
    Ok(Element {
        class,
        title: None,
        shape: Shape::Words {
            at,
            words: Bytes::of(alloc, text)?,
        },
    })
}

/// Appends a number at a place, unless it has more than nine digits.
pub fn put_number(alloc: Global, out: &mut Elements, at: Point, number: u64) -> Result<(), NoMemory>
    ensures { OnOk result (out.new ≡ out.old ++ number_at at.x at.y number) }
{
    if number > 999_999_999 {
        return Ok(());
    }
    let mut digits = Bytes::new(alloc);
    put_u64(&mut digits, number)?;
    out.push(words(alloc, Class::Note, at, digits.as_slice())?)
}

/// Appends a lane with its word.
#[tactic(auto, unfolding(crate::specs::Picture::lane_elements))]
fn put_lane(
    alloc: Global,
    out: &mut Elements,
    many: u64,
    lane: u64,
    word: &[u8],
) -> Result<(), NoMemory>
    ensures { OnOk result (out.new ≡ out.old ++ lane_elements many lane word.now) }
{
    out.push(Element {
        class: Class::Lane,
        title: None,
        shape: Shape::Line {
            from: in_cell(0, lane, 0, 20),
            to: in_cell(many, lane, 0, 20),
        },
    })?;
    let at = Point {
        x: 10,
        y: top(lane) + 24,
    };
    out.push(words(alloc, Class::Label, at, word)?)
}

/// Appends the lane of a thread.
fn put_thread_lane(
    alloc: Global,
    out: &mut Elements,
    many: u64,
    thread: u64,
) -> Result<(), NoMemory>
    ensures { OnOk result
        (out.new ≡ out.old ++ lane_elements many thread (codes "thread " ++ decimal thread)) }
{
    let mut word = Bytes::new(alloc);
    put_named(&mut word, b"thread ", thread)?;
    put_lane(alloc, out, many, thread, word.as_slice())
}

/// Appends the lanes of the threads.
pub fn put_thread_lanes(
    alloc: Global,
    out: &mut Elements,
    many: u64,
    threads: u64,
) -> Result<(), NoMemory>
    ensures { OnOk result (out.new ≡ out.old ++ thread_lanes many 0 threads) }
{
    'lanes: for thread in 0..threads {
        put_thread_lane(alloc, out, many, thread)?;
    }
    Ok(())
}

/// Appends the lanes of the output logger.
pub fn put_logger_lanes(
    alloc: Global,
    out: &mut Elements,
    many: u64,
    threads: u64,
) -> Result<(), NoMemory>
    requires { threads < 1000 }
    ensures { OnOk result (out.new ≡ out.old ++ logger_lanes many threads) }
{
    put_lane(alloc, out, many, threads, b"entries")?;
    put_lane(alloc, out, many, threads + 1, b"outputs")
}
